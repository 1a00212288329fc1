// Reading numbers as placements.
ghost use Rattle.std.specs.Prelude.{◌≡◌, ◌≤◌, List, MatchOption};
ghost use Rattle.srs.specs.declared.placement.Placement.{Placement};
ghost use Rattle.placement_numbers.specs.Numbers.{AreNumbersOf};
ghost use Rattle.placement_numbers.specs.Reading.{placement_in, rotation_at};

use problem::Sequence;
use srs::{Piece, Placement, Rotation};

/// The rotation with this index in the order 0, R, 2, L, if there is one.
fn rotation_at(index: u8) -> Option<Rotation>
    ensures { result ≡ rotation_at index }
{
    Rotation::ALL
        .iter()
        .copied()
        .find(|rotation| rotation.index() == index)
}

/// The placement with these four numbers and its pivot in the well, if there is one.
#[tactic(auto, unfolding(crate::specs::Reading::placement_in))]
fn placement_in(code: u8, index: u8, column: u8, row: u8) -> Option<Placement>
    ensures { result ≡ placement_in code index column row }
{
    let piece = Piece::from_code(code)?;
    let rotation = rotation_at(index)?;
    (column <= 9 && row <= 22).then_some(Placement {
        piece,
        rotation,
        x: column,
        y: row,
    })
}

/// The sequence of `needed` placements, each with its pivot in the well, that has these numbers. `None` exactly if
/// there is none.
pub fn sequence_in(needed: u8, numbers: &[u8]) -> Option<Sequence>
    requires { needed ≤ 22 }
    ensures { MatchOption result
        ((sequence : List Placement) → AreNumbersOf needed numbers.now sequence → ⊥)
        (λ sequence. AreNumbersOf needed numbers.now sequence.items) }
{
    if numbers.len() != 4 * usize::from(needed) {
        return None;
    }
    let mut sequence = Sequence::new();
    let mut rest = numbers;
    while let [code, index, column, row, behind @ ..] = rest {
        sequence.push(placement_in(*code, *index, *column, *row)?);
        rest = behind;
    }
    Some(sequence)
}
