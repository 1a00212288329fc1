// Laws of the definitions: functions with an empty body whose contract is the law.
ghost use Rattle.std.specs.Prelude.{◌≡◌, ◌≤◌, ◌↔◌, ◌++◌, ◌+◌, ◌==◌, ◌∷◌, ℕ, IsTrue, List, length, take, count_by, Option, Some, None};
ghost use Rattle.srs.specs.declared.piece.Piece.{Piece};
ghost use Rattle.srs.specs.Piece.{piece_code};
ghost use Rattle.hold_queue.specs.declared.hold.Hold.{Hold};
ghost use Rattle.hold_queue.specs.declared.hold.Hold.TheVariants.{Allowed};
ghost use Rattle.hold_queue.specs.AtHand.{at_hand, Takes, taken_from};
ghost use Rattle.hold_queue.specs.Permits.{Permits, permits};
ghost use Rattle.hold_queue.specs.QueueSet.{QueuesInPlay, QueuesPermit, queues_permit};
ghost use Rattle.hold_queue.specs.AtHand.{count_held};
ghost use Rattle.hold_queue.specs.Supply.{supply_in_play};
ghost use Rattle.queue_pattern.specs.Queues.{queue_len};

/// A test decides what a queue permits, and what the queues of a pattern permit.
pub fn permits_is_decided()
    ensures queue { (hold : Hold) (queue : List Piece) (held : Option Piece) (pieces : List Piece) →
        IsTrue (permits hold queue held pieces) ↔ Permits hold queue held pieces }
    ensures line { (line : QueuesInPlay) (pieces : List Piece) →
        IsTrue (queues_permit line pieces) ↔ QueuesPermit line pieces }
{}

/// No permitted list that goes on by `left` pieces has more pieces of a kind than the supply.
pub fn supply_is_enough()
    ensures { (line : QueuesInPlay) (more : List Piece) (piece : Piece) → QueuesPermit line (line.played ++ more) →
        count_by (λ other. piece_code other == piece_code piece) more ≤ supply_in_play line (length more) piece }
{}

/// A permitted list has at most as many pieces as the queue, and one more for the piece held at the start.
pub fn permitted_lists_are_short()
    ensures { (line : QueuesInPlay) (pieces : List Piece) → QueuesPermit line pieces →
        length pieces ≤ queue_len line.elements + count_held line.held }
{}

/// A queue permits exactly what can be taken from the pieces at hand. A held piece is like a first piece of the queue.
pub fn permitting_is_taking()
    ensures taken { (hold : Hold) (queue : List Piece) (held : Option Piece) (pieces : List Piece) →
        Permits hold queue held pieces ↔ Takes hold (at_hand hold held queue) pieces }
    ensures held { (piece : Piece) (queue pieces : List Piece) →
        permits Allowed (piece ∷ queue) None pieces ≡ permits Allowed queue (Some piece) pieces }
{}

/// Pieces at hand that are never reached may be cut off.
pub fn later_pieces_are_cut()
    ensures { (hold : Hold) (count : ℕ) (hand pieces : List Piece) → taken_from hold (length pieces) ≤ count →
        Takes hold hand pieces ↔ Takes hold (take count hand) pieces }
{}
