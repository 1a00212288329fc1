// The elements that a text has spelled so far, within the limits of a pattern or beyond them.
ghost use Rattle.std.specs.Prelude.{◌≡◌, ◌+◌, ◌<◌, ◌≤◌, ◌++◌, ◌∷◌, [], List, length, IsTrue};
ghost use Rattle.queue_pattern.specs.Queues.{pieces_in, falling_factor};
ghost use Rattle.queue_pattern.specs.Sound.{is_sound};
ghost use Rattle.queue_pattern.specs.declared.element.Element.{Element};

use crate::element::Element;
use crate::sets::size;

/// The most pieces that a queue may have.
pub const MOST_PIECES: u8 = 22;
/// The most queues that a pattern may have.
pub const MOST_QUEUES: u32 = 10_000_000;

/// The first 22 elements of a text, and how many pieces and queues all its elements make. Counting stops at one more
/// than is allowed.
#[derive(Clone, Copy)]
pub struct Builder {
    pub elements: [Element; 22],
    pub number: u8,
    pub pieces: u8,
    pub count: u32,
    ghost room: { length elements ≡ 22 },
    ghost within: { number ≤ 22 },
    ghost pieces_limit: { pieces ≤ 23 },
    ghost count_limit: { count ≤ 10000001 },
}

/// How many ways there are to choose `chosen` of `pieces` pieces in order.
fn falling_product(pieces: u8, chosen: u8) -> u64
    requires few { pieces ≤ 7 }
    requires within { chosen ≤ pieces }
    ensures value { result ≡ falling_factor pieces chosen }
    ensures small { result ≤ 823543 }
{
    let mut product = 1;
    for taken in 0..chosen {
        product *= u64::from(pieces - taken);
    }
    product
}

/// How many choices an element has.
#[tactic(auto, unfolding(crate::specs::Sound::is_sound))]
fn choice_count(element: Element) -> u64
    requires { IsTrue (is_sound element) }
    ensures value { result ≡ falling_factor (length (pieces_in element.set)) element.chosen }
    ensures some { 1 ≤ result }
    ensures small { result ≤ 823543 }
{
    falling_product(size(element.set), element.chosen)
}

impl Builder {
    ghost use Rattle.queue_pattern.specs.Builder.{Holds};

    /// A builder without elements.
    #[tactic(auto, unfolding(crate::specs::Queues::queue_count))]
    pub fn new() -> Builder
        ensures { Holds result [] }
    {
        Builder {
            elements: [Element::default(); 22],
            number: 0,
            pieces: 0,
            count: 1,
        }
    }

    /// Adds one element.
    pub fn add(&mut self, element: Element)
        requires { IsTrue (is_sound element) }
        ensures { (elements : List Element) → Holds self.old elements → Holds self.new (elements ++ element ∷ []) }
    {
        self.pieces = self
            .pieces
            .saturating_add(element.chosen)
            .min(MOST_PIECES + 1);
        self.count = (u64::from(self.count) * choice_count(element)).min(
            u64::from(MOST_QUEUES) + 1,
        ) as u32;
        if self.number < MOST_PIECES {
            self.elements[self.number as usize] = element;
            self.number += 1;
        }
    }
}
