// Laws of the definitions: functions with an empty body whose contract is the law.
ghost use Rattle.std.specs.Prelude.{◌≡◌, ◌≢◌, ◌↔◌, [], ◌∷◌, ℕ, ◌<◌, ◌≤◌, List, Ok, Err, All, length, slice_get};
ghost use Rattle.std.specs.Prelude.{◌*◌, ◌/◌, slice_index_or, take};
ghost use Rattle.std.specs.List.Sorted.{IsStrictlySortedBy};
ghost use Rattle.srs.specs.declared.piece.Piece.{Piece};
ghost use Rattle.srs.specs.Forms.{LeavesForm};
ghost use Rattle.queue_pattern.specs.declared.element.Element.{Element};
ghost use Rattle.queue_pattern.specs.declared.fault.PatternFault.{PatternFault};
ghost use Rattle.queue_pattern.specs.declared.fault.PatternFault.TheVariants.{Unexpected};
ghost use Rattle.queue_pattern.specs.declared.pattern.Pattern.{Pattern};
ghost use Rattle.queue_pattern.specs.Cut.{cut};
ghost use Rattle.queue_pattern.specs.Faults.{IsPatternFault, IsUnexpectedAt};
ghost use Rattle.queue_pattern.specs.Form.{HasForm};
ghost use Rattle.queue_pattern.specs.Grammar;
ghost use Rattle.queue_pattern.specs.Grammar.{singles};
ghost use Rattle.queue_pattern.specs.Order.{queue_cmp};
ghost use Rattle.queue_pattern.specs.Pattern.{elements_of};
ghost use Rattle.queue_pattern.specs.Queues.{queues, queue_count, queue_len};
ghost use Rattle.queue_pattern.specs.Spelling.{SpellsElements};

/// The number of queues is the product of the numbers of choices of the elements.
pub fn queues_are_counted()
    ensures { (elements : List Element) → length (queues elements) ≡ queue_count elements }
{}

/// Each queue has as many pieces as the elements choose together.
pub fn queues_are_as_long()
    ensures { (elements : List Element) → All (λ queue. length queue ≡ queue_len elements) (queues elements) }
{}

/// The list of queues rises strictly in the order of queues, so no two of them are equal.
pub fn queues_rise()
    ensures rising { (elements : List Element) → IsStrictlySortedBy queue_cmp (queues elements) }
    ensures distinct { (elements : List Element) (i j : ℕ) → i < j → j < length (queues elements) →
        slice_get (queues elements) i ≢ slice_get (queues elements) j }
{}

/// A pattern has at least one queue, and its queues have at most 22 pieces.
pub fn patterns_are_within_limits()
    ensures some { (pattern : Pattern) → 0 < length (queues (elements_of pattern)) }
    ensures short { (pattern : Pattern) → queue_len (elements_of pattern) ≤ 22 }
{}

/// The queues that begin alike stand together: each queue of a pattern that is cut is the front of equally many queues
/// of the whole. The front of a queue has the queue's number, divided by how many queues share a front.
pub fn queues_are_cut()
    ensures divided { (elements : List Element) (pieces : ℕ) →
        (factor : ℕ) × (length (queues elements) ≡ factor * length (queues (cut pieces elements))) }
    ensures fronts { (elements : List Element) (pieces factor number : ℕ) →
        length (queues elements) ≡ factor * length (queues (cut pieces elements)) → number < length (queues elements) →
        slice_index_or (queues (cut pieces elements)) (number / factor) []
        ≡ take pieces (slice_index_or (queues elements) number []) }
{}

/// The pattern with each piece of one queue as an element stands for this queue and no other.
pub fn one_queue_is_alone()
    ensures { (queue : List Piece) → queues (singles queue) ≡ queue ∷ [] }
{}

/// A text is read as these elements exactly if it spells them.
pub fn texts_are_read_as_they_spell()
    ensures { (text : List ℕ) (elements : List Element) →
        (Grammar.elements text ≡ Ok elements) ↔ SpellsElements text elements }
{}

/// Elements that are read within the limits are those of a pattern.
pub fn texts_without_a_fault_have_a_pattern()
    ensures { (text : List ℕ) (elements : List Element) → Grammar.limited (Grammar.elements text) ≡ Ok elements
        → (pattern : Pattern) × (elements_of pattern ≡ elements) }
{}

/// A text is refused exactly by its first fault: an unexpected byte, a repeated piece or a choice of too many,
/// whichever stands first behind whole elements. If it has none of these, a limit is the fault.
pub fn texts_are_refused_by_their_first_fault()
    ensures { (text : List ℕ) (fault : PatternFault) →
        (Grammar.limited (Grammar.elements text) ≡ Err fault) ↔ IsPatternFault text fault }
{}

/// Unexpected is a text's fault exactly at the first byte with which no pattern text goes on, whatever pieces are
/// listed and chosen, or at its end if it ends within an element. Whole elements and the beginning of one stand before
/// it.
pub fn unexpected_bytes_leave_the_form()
    ensures exact { (text : List ℕ) (place : ℕ) →
        (Grammar.elements text ≡ Err (Unexpected place)) ↔ IsUnexpectedAt text place }
    ensures only { (text : List ℕ) (place : ℕ) → Grammar.elements text ≡ Err (Unexpected place)
        → LeavesForm HasForm text place }
{}
