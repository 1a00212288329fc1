// Sets of pieces as bits: bit `c - 1` stands for the piece with code `c`.
ghost use Rattle.std.specs.Prelude.{◌≡◌, ◌-◌, ◌<◌, ◌≤◌, ◌==◌, length, Some, slice_get};
ghost use Rattle.queue_pattern.specs.Queues.{is_in, pieces_in, others};
ghost use Rattle.queue_pattern.specs.Grammar.{set_of};

use srs::Piece;

/// The set of all pieces.
pub const ALL: u8 = 127;

/// Whether the set has this piece.
pub fn is_in(piece: Piece, set: u8) -> bool
    ensures { result ≡ is_in piece set }
{
    set >> (piece.code() - 1) & 1 == 1
}

/// The set of this piece alone.
pub fn set_of_one(piece: Piece) -> u8
    ensures { result ≡ set_of piece }
{
    1 << (piece.code() - 1)
}

/// How many of the seven pieces the set has.
#[tactic(auto, unfolding(crate::specs::Queues::pieces_in))]
pub fn size(set: u8) -> u8
    ensures number { result ≡ length (pieces_in set) }
    ensures few { result ≤ 7 }
{
    Piece::ALL
        .iter()
        .filter(|piece| is_in(**piece, set))
        .count() as u8
}

/// The set without this piece, whether or not it has it.
pub fn without(set: u8, piece: Piece) -> u8
    requires { set < 128 }
    ensures rest { pieces_in result ≡ others piece (pieces_in set) }
    ensures within { result < 128 }
{
    set & !set_of_one(piece)
}

/// The piece of the set with this number, counted from 0 in the order of the pieces' codes.
pub fn nth(set: u8, number: u32) -> Piece
    requires { number < length (pieces_in set) }
    ensures { slice_get (pieces_in set) number ≡ Some result }
{
    let mut left = number;
    for piece in Piece::ALL {
        if is_in(piece, set) {
            if left == 0 {
                return piece;
            }
            left -= 1;
        }
    }
    unreachable!()
}
