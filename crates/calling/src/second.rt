// The second piece of a pattern.
ghost use Rattle.std.specs.Prelude.{◌≡◌, ◌↔◌, IsTrue, [], ◌∷◌};
ghost use Rattle.srs.specs.declared.piece.Piece.{Piece};
ghost use Rattle.queue_pattern.specs.Pattern.{elements_of};
ghost use Rattle.queue_pattern.specs.Queues.{queues};
ghost use Rattle.hold_queue.specs.Permits.{SomePermits};
ghost use Rattle.hold_queue.specs.QueueSet.{QueuesPermit, queues_in_play};

use hold_queue::{Hold, QueueSet};
use queue_pattern::Pattern;
use srs::Piece;

/// Whether some queue permits these two pieces, if nothing was played before.
fn permits_both(start: &QueueSet, first: Piece, second: Piece) -> bool
    requires { (queues_in_play start.now).played ≡ [] }
    ensures { IsTrue result ↔ QueuesPermit (queues_in_play start.now) (first ∷ second ∷ []) }
{
    if !start.may_play(first) {
        return false;
    }
    start.after(first).may_play(second)
}

/// Whether a piece may be the second to be played: some queue of the pattern permits some first piece followed by it.
pub fn may_come_second(pattern: &Pattern, hold: Hold, held: Option<Piece>, piece: Piece) -> bool
    ensures { IsTrue result ↔ ((first : Piece)
        × SomePermits hold (queues (elements_of pattern.now)) held (first ∷ piece ∷ [])) }
{
    let start = QueueSet::start(pattern, hold, held);
    for first in Piece::ALL {
        if permits_both(&start, first, piece) {
            return true;
        }
    }
    false
}
