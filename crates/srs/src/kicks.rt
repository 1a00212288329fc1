// How a quarter turn moves the pivot.
ghost use Rattle.std.specs.Prelude.{◌≡◌, ◌≤◌, ◌⊎◌};
ghost use Rattle.srs.specs.Rotation.{clockwise_of, anticlockwise_of};
ghost use Rattle.srs.specs.Kick.{pair_of, kick_in};
ghost use Rattle.srs.specs.Rules.{table_of};

use crate::offset::Offset;
use crate::piece::Piece;
use crate::rotation::Rotation;
use crate::rules::Rules;

/// How far test 1 to 5 of a quarter turn moves the pivot: the offset of the old rotation minus the offset of the new
/// one.
pub fn kick(rules: &Rules, piece: Piece, from: Rotation, to: Rotation, test: u8) -> Offset
    requires neighbour { (to ≡ clockwise_of from) ⊎ (to ≡ anticlockwise_of from) }
    requires first { 1 ≤ test }
    requires last { test ≤ 5 }
    ensures { pair_of result ≡ kick_in (table_of rules.now) piece from to test }
{
    let left = rules.offset(piece, from, test);
    let reached = rules.offset(piece, to, test);
    Offset {
        dx: left.dx - reached.dx,
        dy: left.dy - reached.dy,
    }
}
