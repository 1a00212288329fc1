// How low the pivot lies if all cells of a placement lie below a row.
ghost use Rattle.std.specs.Prelude.{◌≡◌, ℕ, ◌-◌, ◌<◌, ◌≤◌, length, slice_index};
ghost use Rattle.srs.specs.Rotation.{rotation_index};
ghost use Rattle.srs.specs.declared.rotation.Rotation.{Rotation};
ghost use Rattle.place_sets.specs.Tops.{rows_over_pivot};

use srs::{Piece, Rotation};

/// For each rotation, the row that a pivot lies below exactly if all cells of the piece lie below row `rows`.
pub(crate) fn pivot_bounds(piece: Piece, rows: u8) -> [u8; 4]
    ensures four { length result ≡ 4 }
    ensures few { (index : ℕ) → index < 4 → slice_index result index ≤ rows }
    ensures bounds { (rotation : Rotation) → slice_index result (rotation_index rotation)
        ≡ rows - rows_over_pivot piece rotation }
{
    [
        rows.saturating_sub(rows_over_pivot(piece, Rotation::Spawn)),
        rows.saturating_sub(rows_over_pivot(piece, Rotation::Right)),
        rows.saturating_sub(rows_over_pivot(piece, Rotation::Reverse)),
        rows.saturating_sub(rows_over_pivot(piece, Rotation::Left)),
    ]
}

/// How many rows the highest cell lies above the pivot.
#[inline(always)]
fn rows_over_pivot(piece: Piece, rotation: Rotation) -> u8
    ensures { result ≡ rows_over_pivot piece rotation }
{
    match (piece, rotation) {
        (Piece::I, Rotation::Left) => 2,
        (Piece::I, Rotation::Spawn | Rotation::Reverse) => 0,
        (Piece::O, Rotation::Right | Rotation::Reverse) => 0,
        (Piece::O, _) => 1,
        (Piece::I, Rotation::Right) => 1,
        (_, Rotation::Reverse) => 0,
        _ => 1,
    }
}
