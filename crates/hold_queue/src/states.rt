// The states of a queue set: families of sets of drawn pieces, by what is held, and how they go on.
ghost use Rattle.std.specs.Prelude.{◌≡◌, ◌*◌, ◌≤◌, ◌<◌, IsTrue, ℕ, map, Option, Some, None, [], ◌∷◌, false};
ghost use Rattle.srs.specs.declared.piece.Piece.{Piece};
ghost use Rattle.srs.specs.Piece.{all_pieces};
ghost use Rattle.hold_queue.specs.Family.{has_set};
ghost use Rattle.hold_queue.specs.States.{family_at, held_code};

use crate::family::{Draw, Family};
use crate::hold::Hold;
use srs::Piece;

/// What the next piece is drawn from if nothing is held, and if a piece is held.
#[derive(Clone, Copy, PartialEq, Eq)]
pub struct Draws {
    pub empty_handed: Option<Draw>,
    pub holding: Option<Draw>,
}

/// Families of sets of drawn pieces, and what decides how they go on.
#[derive(Clone, Copy, PartialEq, Eq)]
pub struct States {
    pub hold: Hold,
    pub due: Draws,
    /// Two numbers of 64 bits for no held piece, and for each piece that may be held, by its code.
    pub words: [u64; 16],
    /// A number that differs for most words, by which a memory finds what comes after the states.
    pub hash: u64,
}

/// A family for no held piece, and one for each piece that may be held.
#[derive(Clone, Copy)]
struct Families {
    empty_handed: Family,
    i: Family,
    l: Family,
    o: Family,
    z: Family,
    t: Family,
    j: Family,
    s: Family,
}

impl Families {
    ghost use Rattle.std.specs.Prelude.{[], ◌∷◌};

    /// The states of these families.
    #[inline(always)]
    fn states(&self) -> [u64; 16]
        ensures { result ≡ self.now.empty_handed.low ∷ self.now.empty_handed.high ∷ self.now.i.low ∷ self.now.i.high
            ∷ self.now.l.low ∷ self.now.l.high ∷ self.now.o.low ∷ self.now.o.high ∷ self.now.z.low ∷ self.now.z.high
            ∷ self.now.t.low ∷ self.now.t.high ∷ self.now.j.low ∷ self.now.j.high ∷ self.now.s.low ∷ self.now.s.high
            ∷ [] }
    {
        [
            self.empty_handed.low,
            self.empty_handed.high,
            self.i.low,
            self.i.high,
            self.l.low,
            self.l.high,
            self.o.low,
            self.o.high,
            self.z.low,
            self.z.high,
            self.t.low,
            self.t.high,
            self.j.low,
            self.j.high,
            self.s.low,
            self.s.high,
        ]
    }
}

/// The index of the two numbers for what is held among the states.
pub fn index_of(held: Option<Piece>) -> usize
    ensures value { result ≡ 2 * held_code held }
    ensures within { result ≤ 14 }
{
    match held {
        Some(piece) => 2 * piece.code() as usize,
        None => 0,
    }
}

/// The family that goes with what is held.
fn family_of(words: &[u64; 16], held: Option<Piece>) -> Family
    ensures { result ≡ family_at words.now held }
{
    let index = index_of(held);
    Family {
        low: words[index],
        high: words[index + 1],
    }
}

/// A number that differs for most words.
pub fn hash_of(words: &[u64; 16]) -> u64 {
    let mut hash = 0_u64;
    for word in words {
        hash = (hash ^ *word).wrapping_mul(0x9e37_79b9_7f4a_7c15);
        hash ^= hash >> 32;
    }
    hash
}

impl States {
    ghost use Rattle.hold_queue.specs.declared.hold.Hold.TheVariants.{Allowed};
    ghost use Rattle.hold_queue.specs.States.{IsNextFamily, IsHeldFamily, IsHolding, WhereverTheyStand, states_permit};

    /// The states where a piece is held before the next draw.
    pub fn first_held(&self) -> [u64; 16]
        ensures none { family_at result None ≡ record { low = 0; high = 0 } }
        ensures held { (piece : Piece) → WhereverTheyStand self.now (λ elements start played.
            IsHeldFamily elements self.now.hold start self.now.words played piece (family_at result (Some piece))) }
    {
        Families {
            empty_handed: Family::EMPTY,
            i: self.with_held(Piece::I),
            l: self.with_held(Piece::L),
            o: self.with_held(Piece::O),
            z: self.with_held(Piece::Z),
            t: self.with_held(Piece::T),
            j: self.with_held(Piece::J),
            s: self.with_held(Piece::S),
        }
        .states()
    }

    /// The drawn sets after one more piece if nothing is held then: the piece was drawn, or it was held and the queue
    /// is used up.
    fn next_empty_handed(&self, piece: Piece) -> Family
        ensures { WhereverTheyStand self.now (λ elements start played.
            IsNextFamily elements self.now.hold start self.now.words played piece None result) }
    {
        let plain = family_of(&self.words, None).draw(self.due.empty_handed, piece);
        if let Hold::Avoided = self.hold {
            return plain;
        }
        if let Some(_) = self.due.holding {
            return plain;
        }
        plain.or(family_of(&self.words, Some(piece)))
    }

    /// The drawn sets after one more piece if `first` is held then: `first` may be held before the next draw and the
    /// piece is drawn, or the piece is held and `first` is drawn in exchange.
    #[inline(always)]
    fn next_holding(&self, piece: Piece, first: Piece) -> Family
        ensures { WhereverTheyStand self.now (λ elements start played.
            IsNextFamily elements self.now.hold start self.now.words played piece (Some first) result) }
    {
        if let Hold::Avoided = self.hold {
            return family_of(&self.words, Some(first)).draw(self.due.holding, piece);
        }
        let second = self.with_held(first).draw(self.due.holding, piece);
        let exchange = family_of(&self.words, Some(piece)).draw(self.due.holding, first);
        second.or(exchange)
    }

    /// The families after one more piece.
    pub fn next(&self, piece: Piece) -> [u64; 16]
        ensures { (held : Option Piece) → WhereverTheyStand self.now (λ elements start played.
            IsNextFamily elements self.now.hold start self.now.words played piece held (family_at result held)) }
    {
        Families {
            empty_handed: self.next_empty_handed(piece),
            i: self.next_holding(piece, Piece::I),
            l: self.next_holding(piece, Piece::L),
            o: self.next_holding(piece, Piece::O),
            z: self.next_holding(piece, Piece::Z),
            t: self.next_holding(piece, Piece::T),
            j: self.next_holding(piece, Piece::J),
            s: self.next_holding(piece, Piece::S),
        }
        .states()
    }

    /// The drawn sets with which this piece may be held before the next draw: it is held, or nothing is held and it is
    /// drawn.
    fn with_held(&self, first: Piece) -> Family
        ensures { WhereverTheyStand self.now (λ elements start played.
            IsHeldFamily elements self.now.hold start self.now.words played first result) }
    {
        let held = family_of(&self.words, Some(first));
        if let Hold::Avoided = self.hold {
            return held;
        }
        held.or(family_of(&self.words, None).draw(self.due.empty_handed, first))
    }

    /// The drawn sets with which some piece may be held before the next draw.
    pub fn holding(&self) -> Family
        ensures { WhereverTheyStand self.now (λ elements start played.
            IsHolding elements self.now.hold start self.now.words played all_pieces result) }
    {
        let held_i = self.with_held(Piece::I);
        let held_l = self.with_held(Piece::L);
        let held_o = self.with_held(Piece::O);
        let held_z = self.with_held(Piece::Z);
        let held_t = self.with_held(Piece::T);
        let held_j = self.with_held(Piece::J);
        let held_s = self.with_held(Piece::S);
        let four = held_i.or(held_l).or(held_o).or(held_z);
        four.or(held_t).or(held_j).or(held_s)
    }

    /// Whether a piece may come next: it can be drawn while nothing is held or while a piece is held, or it is the held
    /// piece.
    pub fn permits(&self, holding: Family, piece: Piece) -> bool
        requires { WhereverTheyStand self.now (λ elements start played.
            IsHolding elements self.now.hold start self.now.words played all_pieces holding) }
        ensures { WhereverTheyStand self.now (λ elements start played.
            result ≡ states_permit elements self.now.hold start self.now.words played (piece ∷ [])) }
    {
        let plain = family_of(&self.words, None).draw(self.due.empty_handed, piece);
        if !plain.is_empty() {
            return true;
        }
        if self.may_exchange(piece) {
            return true;
        }
        !holding.draw(self.due.holding, piece).is_empty()
    }

    /// Whether the piece may be held and played from there.
    #[inline(always)]
    fn may_exchange(&self, piece: Piece) -> bool
        ensures allowed { IsTrue result → self.now.hold ≡ Allowed }
        ensures some { IsTrue result → ((set : ℕ) → set < 128 →
            has_set (family_at self.now.words (Some piece)) set ≡ false) → ⊥ }
        ensures none { result ≡ false → self.now.hold ≡ Allowed → (set : ℕ) → set < 128 →
            has_set (family_at self.now.words (Some piece)) set ≡ false }
    {
        if let Hold::Avoided = self.hold {
            return false;
        }
        !family_of(&self.words, Some(piece)).is_empty()
    }

    /// For each kind, in the order of codes, whether it may come next.
    pub fn permitted(&self) -> [bool; 7]
        ensures { WhereverTheyStand self.now (λ elements start played.
            result ≡ map (λ piece. states_permit elements self.now.hold start self.now.words played (piece ∷ []))
            all_pieces) }
    {
        let holding = self.holding();
        [
            self.permits(holding, Piece::I),
            self.permits(holding, Piece::L),
            self.permits(holding, Piece::O),
            self.permits(holding, Piece::Z),
            self.permits(holding, Piece::T),
            self.permits(holding, Piece::J),
            self.permits(holding, Piece::S),
        ]
    }
}
