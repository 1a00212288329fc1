// The pieces at hand: a held piece in front of the rest of a queue.
use crate::hold::Hold;
use queue_pattern::Queue;
use srs::Piece;

/// A held piece that may be played, if any, and how many pieces of the queue are drawn.
#[derive(Clone, Copy, PartialEq, Eq)]
pub struct Hand {
    pub held: Option<Piece>,
    pub drawn: u8,
}

/// A piece that is taken from the pieces at hand, and the hand that is left.
#[derive(Clone, Copy)]
pub struct Taken {
    pub piece: Piece,
    pub rest: Hand,
}

impl Hand {
    ghost use Rattle.std.specs.Prelude.{◌≡◌, ◌≤◌, IfSome, List, None, length};
    ghost use Rattle.srs.specs.declared.piece.Piece.{Piece};
    ghost use Rattle.hold_queue.specs.AtHand.{at_hand};
    ghost use Rattle.hold_queue.specs.Hand.{AreAllTakes, AreInOrder, IsFirstAtHand, IsSecondAtHand, pieces_at};

    /// The pieces at hand at the start: the held piece if it may be played, and the whole queue.
    pub fn start(hold: Hold, held: Option<Piece>) -> Hand
        ensures at { (queue : List Piece) → pieces_at queue result ≡ at_hand hold held queue }
        ensures none_drawn { result.drawn ≡ 0 }
    {
        Hand {
            held: hold.playable(held),
            drawn: 0,
        }
    }

    /// How many pieces are at hand.
    pub fn count(self, queue: &Queue) -> u8
        ensures value { result ≡ length (pieces_at queue.now.items self) }
        ensures few { result ≤ 23 }
    {
        let left = queue.len().saturating_sub(self.drawn as usize) as u8;
        match self.held {
            None => left,
            Some(_) => left + 1,
        }
    }

    /// The first piece at hand, and the other pieces. `None` exactly if there is none.
    pub fn first(self, queue: &Queue) -> Option<Taken>
        ensures first { IsFirstAtHand queue.now.items self result }
        ensures none_held { IfSome result (λ taken. taken.rest.held ≡ None) }
    {
        let (held, drawn) = (None, self.drawn);
        if let Some(piece) = self.held {
            let rest = Hand { held, drawn };
            return Some(Taken { piece, rest });
        }
        if drawn as usize >= queue.len() {
            return None;
        }
        let rest = Hand {
            held,
            drawn: drawn + 1,
        };
        Some(Taken {
            piece: queue[drawn as usize],
            rest,
        })
    }

    /// The second piece at hand, and the other pieces: the first one is held. `None` exactly if there are fewer than
    /// two.
    pub fn second(self, queue: &Queue) -> Option<Taken>
        ensures { IsSecondAtHand queue.now.items self result }
    {
        let first = self.first(queue)?;
        let second = first.rest.first(queue)?;
        let rest = Hand {
            held: Some(first.piece),
            drawn: second.rest.drawn,
        };
        Some(Taken {
            piece: second.piece,
            rest,
        })
    }

    /// The same pieces at hand, the first of which is held.
    fn with_first_held(self, queue: &Queue) -> Hand
        ensures { pieces_at queue.now.items result ≡ pieces_at queue.now.items self }
    {
        let Some(first) = self.first(queue) else {
            return self;
        };
        Hand {
            held: Some(first.piece),
            drawn: first.rest.drawn,
        }
    }

    /// All ways to take a piece: the first one or, where hold is allowed, the second. The lesser piece comes first; two
    /// that are the same piece are one.
    // Equal pieces are left as equal hands, so that what is kept of a hand is found again.
    pub fn takes(self, queue: &Queue, hold: Hold) -> (Option<Taken>, Option<Taken>)
        ensures order { AreInOrder result.0 result.1 }
        ensures all { AreAllTakes hold queue.now.items self result.0 result.1 }
    {
        let first = self.first(queue);
        if let Hold::Avoided = hold {
            return (first, None);
        }
        let (Some(one), Some(other)) = (first, self.second(queue)) else {
            return (first, None);
        };
        let one = Taken {
            piece: one.piece,
            rest: one.rest.with_first_held(queue),
        };
        if one.piece.code() == other.piece.code() {
            return (Some(one), None);
        }
        if other.piece.code() < one.piece.code() {
            return (Some(other), Some(one));
        }
        (Some(one), Some(other))
    }
}
