// Patterns, and the queues that they stand for.
ghost use Rattle.std.specs.Prelude.{◌≡◌, ◌≤◌, ◌<◌, length, take, IsTrue};
ghost use Rattle.std.specs.List.{list_all};
ghost use Rattle.queue_pattern.specs.Queues.{queue_len, queue_count};
ghost use Rattle.queue_pattern.specs.Sound.{is_sound};
ghost use Rattle.queue_pattern.specs.declared.element.Element.{Element};

use crate::builder::{Builder, MOST_PIECES, MOST_QUEUES};
use crate::element::Element;
use crate::fault::PatternFault;
use crate::sets::{nth, set_of_one, size, without};
use crate::text::next_element;
use arrayvec::ArrayVec;
use srs::Piece;

/// A queue of at most 22 pieces, first piece first.
pub type Queue = ArrayVec<Piece, 22>;

/// A list of elements. Each of its queues joins one choice of each element. A queue has at most 22 pieces, and there
/// are at most 10,000,000 queues.
#[derive(Clone, Copy)]
pub struct Pattern {
    elements: [Element; 22],
    number: u8,
    pieces: u8,
    count: u32,
    ghost room: { length elements ≡ 22 },
    ghost within: { number ≤ 22 },
    ghost sound: { IsTrue (list_all is_sound (take number elements)) },
    ghost len: { pieces ≡ queue_len (take number elements) },
    ghost short: { pieces ≤ 22 },
    ghost counted: { count ≡ queue_count (take number elements) },
    ghost some: { 0 < count },
    ghost few: { count ≤ 10000000 },
}

impl Pattern {
    ghost use Rattle.std.specs.Prelude.{IfOk, IfErr, Ok, Err, Some, slice_get, List, drop};
    ghost use Rattle.queue_pattern.specs.Builder.{Holds};
    ghost use Rattle.queue_pattern.specs.Cut.{cut};
    ghost use Rattle.queue_pattern.specs.Grammar.{elements, limited, singles};
    ghost use Rattle.queue_pattern.specs.Pattern.{elements_of};
    ghost use Rattle.queue_pattern.specs.Queues.{queues};

    /// The pattern that a text spells.
    #[tactic(auto, using(crate::proofs::ParseLemmas::reads_more))]
    pub fn parse(text: &str) -> Result<Pattern, PatternFault>
        ensures pattern { IfOk result (λ pattern. limited (elements text.now) ≡ Ok (elements_of pattern)) }
        ensures fault { IfErr result (λ fault. limited (elements text.now) ≡ Err fault) }
    {
        let bytes = text.as_bytes();
        let mut builder = Builder::new();
        let mut place = 0;
        while let Some((element, after)) = next_element(bytes, place)? {
            builder.add(element);
            place = after;
        }
        Pattern::within_limits(builder)
    }

    /// The pattern that stands for one queue: each piece is an element.
    pub fn from_queue(queue: &Queue) -> Pattern
        ensures { elements_of result ≡ singles queue.now.items }
    {
        let mut builder = Builder::new();
        'pieces: for piece in queue.as_slice() {
            let set = set_of_one(*piece);
            builder.add(Element { set, chosen: 1 });
        }
        match Pattern::within_limits(builder) {
            Ok(pattern) => pattern,
            Err(_) => unreachable!(),
        }
    }

    /// The pattern of the first pieces of each queue, as many as this number or all.
    pub fn cut(&self, pieces: u8) -> Pattern
        ensures { elements_of result ≡ cut pieces (elements_of self.now) }
    {
        let mut builder = Builder::new();
        let mut left = pieces;
        'elements: for element in &self.elements[..self.number as usize] {
            let chosen = element.chosen.min(left);
            if chosen > 0 {
                builder.add(Element {
                    set: element.set,
                    chosen,
                });
            }
            left -= chosen;
        }
        match Pattern::within_limits(builder) {
            Ok(pattern) => pattern,
            Err(_) => unreachable!(),
        }
    }

    /// The pattern of a builder, if its elements are within the limits.
    #[tactic(auto, unfolding(crate::specs::Pattern::elements_of))]
    fn within_limits(builder: Builder) -> Result<Pattern, PatternFault>
        requires { (elements : List Element) × Holds builder elements }
        ensures pattern { (elements : List Element) → Holds builder elements →
            IfOk result (λ pattern. limited (Ok elements) ≡ Ok (elements_of pattern)) }
        ensures fault { (elements : List Element) → Holds builder elements →
            IfErr result (λ fault. limited (Ok elements) ≡ Err fault) }
    {
        if builder.pieces > MOST_PIECES {
            return Err(PatternFault::PatternTooLong);
        }
        if builder.count > MOST_QUEUES {
            return Err(PatternFault::TooManyQueues);
        }
        let elements = builder.elements;
        Ok(Pattern {
            elements,
            number: builder.number,
            pieces: builder.pieces,
            count: builder.count,
        })
    }

    /// How many queues the pattern stands for.
    #[tactic(auto, unfolding(crate::specs::Pattern::elements_of))]
    pub fn count(&self) -> u32
        ensures number { result ≡ length (queues (elements_of self.now)) }
        ensures some { 0 < result }
        ensures few { result ≤ 10000000 }
    {
        self.count
    }

    /// How many pieces each queue has.
    #[tactic(auto, unfolding(crate::specs::Pattern::elements_of))]
    pub fn len(&self) -> u8
        ensures value { result ≡ queue_len (elements_of self.now) }
        ensures short { result ≤ 22 }
    {
        self.pieces
    }

    /// The queue with this number, counted from 0.
    pub fn queue(&self, index: u32) -> Queue
        requires { index < length (queues (elements_of self.now)) }
        ensures { slice_get (queues (elements_of self.now)) index ≡ Some result.items }
    {
        let mut queue = Queue::new();
        let mut left = index;
        let mut block = self.count;
        'elements: for element in &self.elements[..self.number as usize] {
            let mut set = element.set;
            'pieces: for _ in 0..element.chosen {
                block /= u32::from(size(set));
                let piece = nth(set, left / block);
                left %= block;
                set = without(set, piece);
                queue.push(piece);
            }
        }
        queue
    }

    /// How many queues the elements from this number on stand for, counted from 0.
    #[tactic(auto, unfolding(crate::specs::Pattern::elements_of))]
    pub fn count_from(&self, first: u8) -> u32
        requires { first ≤ length (elements_of self.now) }
        ensures { result ≡ length (queues (drop first (elements_of self.now))) }
    {
        let mut builder = Builder::new();
        'elements: for element in &self.elements[first as usize..self.number as usize] {
            builder.add(*element);
        }
        builder.count
    }

    /// How many elements the pattern has.
    #[tactic(auto, unfolding(crate::specs::Pattern::elements_of))]
    pub fn elements(&self) -> u8
        ensures number { result ≡ length (elements_of self.now) }
        ensures few { result ≤ 22 }
    {
        self.number
    }

    /// The element with this number, counted from 0.
    #[tactic(auto, unfolding(crate::specs::Pattern::elements_of))]
    pub fn element(&self, index: u8) -> Element
        requires { index < length (elements_of self.now) }
        ensures { slice_get (elements_of self.now) index ≡ Some result }
    {
        self.elements[index as usize]
    }
}
