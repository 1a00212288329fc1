// The cells that a placement leaves.
ghost use Rattle.std.specs.Prelude.{◌≡◌, ◌≤◌, ◌≤ℤ◌, ◌+◌, ◌+ℤ◌, ◌*◌, ◌==◌, ◌&&◌, ℕ, IsTrue, nat_abs, nat_le, pos};
ghost use Rattle.lane_board.specs.Lanes.{has_bit};
ghost use Rattle.srs.specs.Cells.{cells_of, is_near, minus, shape};
ghost use Rattle.srs.specs.SameCells.{is_among};
ghost use Rattle.empty_cells.specs.Empties.{empty_cells, without_placement};
ghost use Rattle.empty_cells.specs.ShapeBits.{bit_index, has_shape_bit};
ghost use Rattle.srs.specs.declared.placement.Placement.{Placement};

use crate::empties::Empties;
use srs::{Piece, Placement, Rotation, shape};

impl Empties {
    /// The set without the cells of a placement.
    #[inline(always)]
    pub fn without(&self, placement: &Placement) -> Empties
        requires column { placement.now.x ≤ 31 }
        requires row { placement.now.y ≤ 31 }
        ensures { empty_cells result ≡ without_placement (empty_cells self.now) placement.now }
    {
        self.without_bits(bits_of(placement))
    }
}

/// The cells of a placement that lie in the columns and rows of a set: bit `8 * column + row`. If its pivot is too far
/// away, there are none.
#[inline(always)]
fn bits_of(placement: &Placement) -> u128
    ensures { (a b : ℕ) → a ≤ 9 → b ≤ 7
        → has_bit result (8 * a + b) ≡ is_among (cells_of placement.now) (pos a, pos b) }
{
    let (x, y) = (placement.x, placement.y);
    if 11 < x || 9 < y {
        return 0;
    }
    let bits = shape_bits(placement.piece, placement.rotation) & rows_kept(y);
    u128::from(bits) << (8 * x + y) >> 18
}

/// If row 2 of five columns moves to row `y`: which of their rows move to rows 0 to 7. Bit `8 * column + row`.
#[inline(always)]
fn rows_kept(y: u8) -> u64
    requires { y ≤ 9 }
    ensures { (c r : ℕ) → c ≤ 4 → r ≤ 4
        → has_bit result (8 * c + r) ≡ (nat_le 2 (y + r) && nat_le (y + r) 9) }
{
    (0x3fc >> y & 0xff) * 0x1_0101_0101
}

/// The cells of a piece whose pivot is in column 2 and row 2: bit `8 * column + row`. Each arm is a constant.
#[inline(always)]
fn shape_bits(piece: Piece, rotation: Rotation) -> u64
    ensures { (k : ℕ) → has_bit result k ≡ has_shape_bit (shape piece rotation) k }
{
    match piece {
        Piece::I => turned_bits(Piece::I, rotation),
        Piece::L => turned_bits(Piece::L, rotation),
        Piece::O => turned_bits(Piece::O, rotation),
        Piece::Z => turned_bits(Piece::Z, rotation),
        Piece::T => turned_bits(Piece::T, rotation),
        Piece::J => turned_bits(Piece::J, rotation),
        Piece::S => turned_bits(Piece::S, rotation),
    }
}

/// The same for a piece that is known when the program is built.
#[inline(always)]
fn turned_bits(piece: Piece, rotation: Rotation) -> u64
    ensures { (k : ℕ) → has_bit result k ≡ has_shape_bit (shape piece rotation) k }
{
    match rotation {
        Rotation::Spawn => known_bits(piece, Rotation::Spawn),
        Rotation::Right => known_bits(piece, Rotation::Right),
        Rotation::Reverse => known_bits(piece, Rotation::Reverse),
        Rotation::Left => known_bits(piece, Rotation::Left),
    }
}

/// The same for a rotation that is known then too.
#[inline(always)]
fn known_bits(piece: Piece, rotation: Rotation) -> u64
    ensures { (k : ℕ) → has_bit result k ≡ has_shape_bit (shape piece rotation) k }
{
    let [a, b, c, d] = shape(piece, rotation);
    cell_bit(a) | cell_bit(b) | cell_bit(c) | cell_bit(d)
}

/// The bit of the cell at this offset from the pivot.
#[inline(always)]
fn cell_bit(offset: (i8, i8)) -> u64
    requires { IsTrue (is_near offset) }
    ensures { (k : ℕ) → has_bit result k ≡ (bit_index offset == k) }
{
    1 << (8 * from_two(offset.0) + from_two(offset.1))
}

/// The column or row at this offset from column or row 2.
#[inline(always)]
fn from_two(offset: i8) -> u8
    requires low { minus 2 ≤ℤ offset }
    requires high { offset ≤ℤ pos 2 }
    ensures { result ≡ nat_abs (pos 2 +ℤ offset) }
{
    (2 + offset) as u8
}
