// The placements that a flood found in low rows.
ghost use Rattle.std.specs.Prelude.{◌≡◌, ℕ, ◌*◌, ◌+◌, ◌-◌, ◌/◌, ◌%◌, ◌<◌, ◌≤◌, ◌&&◌, nat_lt};
ghost use Rattle.lane_board.specs.Board.{field_of};
ghost use Rattle.lane_board.specs.Lanes.{has_bit};
ghost use Rattle.srs.specs.Piece.{piece_code};
ghost use Rattle.srs.specs.Rotation.{rotation_index};

use crate::pivots::Pivots;
use crate::scan::rotation_at;
use crate::tops::pivot_bounds;
use crate::words::{bits_under, four_rows};
use lane_board::LaneBoard;
use lane_board::words::{bits_of_either, bits_without, has_none, lowest_bit, without_lowest};
use srs::{Piece, Placement};

/// Canonical placements of one piece with the pivot in rows 0 to 7.
#[derive(Clone, Copy)]
pub struct LowPlaces {
    /// Their pivots: two words for each rotation, in the order 0, R, 2, L; four rows in each word, and sixteen bits for
    /// each row. They come first, so that pairs of them are copied as they were written.
    words: [u64; 8],
    /// The index of their piece in the order of codes. It takes a whole word, so that all parts of the set are words.
    kind: u64,
    ghost seven: { kind < 7 },
}

/// The index of a piece in the order of codes.
#[inline(always)]
fn kind_of(piece: Piece) -> u64
    ensures { result ≡ piece_code piece - 1 }
{
    u64::from(piece.code() - 1)
}

/// The first or second four rows of a board, without those at or above row `rows`.
#[inline(always)]
fn rows_under<const N: usize>(board: &LaneBoard<N>, four: u8, rows: u8) -> u64
    requires four { four ≤ 1 }
    requires eight { rows ≤ 8 }
    ensures { (k : ℕ) → k < 64 → has_bit result k
        ≡ (field_of board.now (k % 16) (4 * four + k / 16) && nat_lt k (16 * (rows - 4 * four))) }
{
    bits_under(four_rows(board, 4 * four), four, rows)
}

/// The placement whose pivot has this bit of this word.
#[inline(always)]
fn placement_at(piece: Piece, word: usize, bit: u16) -> Placement
    requires word { word < 8 }
    requires bit { bit < 64 }
    ensures piece { result.piece ≡ piece }
    ensures rotation { rotation_index result.rotation ≡ word / 2 }
    ensures row { result.y ≡ 4 * (word % 2) + bit / 16 }
    ensures column { result.x ≡ bit % 16 }
{
    Placement {
        piece,
        rotation: rotation_at((word / 2) as u8),
        x: (bit % 16) as u8,
        y: (4 * (word % 2)) as u8 + (bit / 16) as u8,
    }
}

impl LowPlaces {
    ghost use Rattle.std.specs.Prelude.{◌↔◌, ◌≢◌, not, false, IsTrue, MatchOption, None, Some, slice_index};
    ghost use Rattle.srs.specs.Order.{placement_cmp};
    ghost use Rattle.lane_board.specs.Words.{cells_of_words};
    ghost use Rattle.srs.specs.Rising.{IsNextAbove};
    ghost use Rattle.well.specs.LockLaws.{is_below};
    ghost use Rattle.place_sets.specs.LowPlaces.{holds, piece_of};
    ghost use Rattle.place_sets.specs.States.{has_state, states_of};

    /// Their piece.
    #[tactic(auto, unfolding(crate::specs::LowPlaces::piece_of))]
    #[inline(always)]
    fn piece(&self) -> Piece
        ensures { result ≡ piece_of self.now }
    {
        match self.kind {
            0 => Piece::I,
            1 => Piece::L,
            2 => Piece::O,
            3 => Piece::Z,
            4 => Piece::T,
            5 => Piece::J,
            _ => Piece::S,
        }
    }

    /// The placements of a piece with these pivots whose cells all lie below row `rows`.
    #[inline(always)]
    pub fn of_states<const N: usize>(piece: Piece, states: &Pivots<N>, rows: u8) -> LowPlaces
        requires { rows ≤ 8 }
        ensures piece { piece_of result ≡ piece }
        ensures held { (q : Placement) → IsTrue (holds result q)
            ↔ ((q.piece ≡ piece) × IsTrue (has_state (states_of states.now) q) × IsTrue (is_below rows q)) }
    {
        let bounds = pivot_bounds(piece, rows);
        LowPlaces {
            words: [
                rows_under(&states.spawn, 0, bounds[0]),
                rows_under(&states.spawn, 1, bounds[0]),
                rows_under(&states.right, 0, bounds[1]),
                rows_under(&states.right, 1, bounds[1]),
                rows_under(&states.reverse, 0, bounds[2]),
                rows_under(&states.reverse, 1, bounds[2]),
                rows_under(&states.left, 0, bounds[3]),
                rows_under(&states.left, 1, bounds[3]),
            ],
            kind: kind_of(piece),
        }
    }

    /// The index of the first word with a bit. `None` exactly if there is none.
    #[inline(always)]
    fn first_word(&self) -> Option<usize>
        ensures { MatchOption result ((w : ℕ) → w < 8 → slice_index self.now.words w ≡ 0)
            (λ at. (at < 8) × (0 < slice_index self.now.words at)
            × ((w : ℕ) → w < at → slice_index self.now.words w ≡ 0)) }
    {
        for at in 0..8 {
            if self.words[at] != 0 {
                return Some(at);
            }
        }
        None
    }

    /// Whether there is no placement.
    #[inline(always)]
    pub fn is_empty(&self) -> bool
        ensures { IsTrue result ↔ ((q : Placement) → holds self.now q ≡ false) }
    {
        let [a, b, c, d, e, f, g, h] = self.words;
        let four = bits_of_either(bits_of_either(bits_of_either(a, b), c), d);
        let others = bits_of_either(bits_of_either(bits_of_either(e, f), g), h);
        has_none(bits_of_either(four, others))
    }

    /// Removes the least placement and returns it. `None` exactly if there is none.
    #[inline(always)]
    #[tactic(auto, using(crate::proofs::LowPlaceLemmas::low_none), unfolding(crate::specs::LowPlaces::piece_of))]
    pub fn take_least(&mut self) -> Option<Placement>
        ensures piece { piece_of self.new ≡ piece_of self.old }
        ensures least { IsNextAbove placement_cmp (λ q. IsTrue (holds self.old q)) None result }
        ensures rest { (q : Placement) → IsTrue (holds self.new q) ↔ (IsTrue (holds self.old q) × (result ≢ Some q)) }
    {
        match self.first_word() {
            None => None,
            Some(at) => {
                let word = self.words[at];
                self.words[at] = without_lowest(word);
                Some(placement_at(self.piece(), at, lowest_bit(word)))
            }
        }
    }

    /// Leaves out the placements with these pivots: two words for each rotation, in the order 0, R, 2, L, four rows in
    /// each word, and sixteen bits for each row.
    #[inline(always)]
    pub fn leave_out(&mut self, pivots: &[u64; 8])
        ensures piece { piece_of self.new ≡ piece_of self.old }
        ensures held { (q : Placement) → holds self.new q
            ≡ (holds self.old q && not (cells_of_words pivots.now (rotation_index q.rotation) q.x q.y)) }
    {
        self.words = [
            bits_without(self.words[0], pivots[0]),
            bits_without(self.words[1], pivots[1]),
            bits_without(self.words[2], pivots[2]),
            bits_without(self.words[3], pivots[3]),
            bits_without(self.words[4], pivots[4]),
            bits_without(self.words[5], pivots[5]),
            bits_without(self.words[6], pivots[6]),
            bits_without(self.words[7], pivots[7]),
        ];
    }
}
