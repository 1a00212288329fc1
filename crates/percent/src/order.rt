// In which order positions are tried. The answers are the same in any order.
ghost use Rattle.std.specs.Prelude.{◌≤◌};

use crate::position::Child;
use well::Well;

/// With more empty cells than this, the sides of the field don't count.
const FEW_EMPTIES: u8 = 36;

/// How rough a well is below row `rows`: how often neighbouring cells of a row differ, with both sides of the field
/// counted as filled, plus three for each empty cell right below a filled one. With many empty cells the sides don't
/// count, and an empty cell below a filled one counts eight. Nothing relies on it except which position is tried first.
pub fn roughness(well: &Well, rows: u8) -> u32
    requires { rows ≤ 8 }
{
    let (neighbours, weight) = if well.empties_below(rows) > FEW_EMPTIES {
        (0x3fe, 8)
    } else {
        (0x7ff, 3)
    };
    let board = well.board();
    let mut above = 0;
    let mut sum = 0u32;
    for y in (0..rows).rev() {
        let row = board.row(y);
        let with_sides = row << 1 | 0x801;
        let changes = ((with_sides ^ with_sides >> 1) & neighbours).count_ones();
        let covered = (above & !row).count_ones();
        sum = sum
            .wrapping_add(changes)
            .wrapping_add(covered.wrapping_mul(weight));
        above = row;
    }
    sum
}

/// A number by which positions after the places of a piece are tried: the least rough first, and those that are equally
/// rough in the order of placements.
pub fn rank(child: &Child) -> u64 {
    let placement = &child.placement;
    u64::from(child.position.roughness) << 24
        | u64::from(placement.rotation.index()) << 16
        | u64::from(placement.y) << 8
        | u64::from(placement.x)
}
