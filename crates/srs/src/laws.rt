// Laws of the definitions: functions with an empty body whose contract is the law.
ghost use Rattle.std.specs.Prelude.{◌≡◌, ◌↔◌, IsTrue, List, Some, map};
ghost use Rattle.std.specs.Cmp.{IsTotalOrder};
ghost use Rattle.srs.specs.declared.placement.Placement.{Placement};
ghost use Rattle.srs.specs.Piece.{all_pieces, piece_code, piece_letter, piece_with_code, piece_with_letter};
ghost use Rattle.srs.specs.Rotation.{all_rotations, rotation_letter, rotation_with_letter, clockwise_of, anticlockwise_of};
ghost use Rattle.srs.specs.Cells.{shape, turned_clockwise};
ghost use Rattle.srs.specs.SameCells.{HasSameCells};
ghost use Rattle.srs.specs.Canonical.{IsCanonical, is_canonical};
ghost use Rattle.srs.specs.Order.{placement_cmp, sequence_cmp};
ghost use Rattle.srs.specs.Rising.{IsRisingListOf};
ghost use Rattle.srs.specs.Placements.{IsCanonicalInside, placements_of};
ghost use Rattle.srs.specs.Kick.{IsSmallTable};
ghost use Rattle.srs.specs.Rules.{table_of};

use crate::piece::Piece;
use crate::rotation::Rotation;
use crate::rules::Rules;
use std::cmp::Ordering;

/// `Piece::ALL` lists the pieces in the order of their codes, and `Rotation::ALL` the rotations in the order 0, R, 2,
/// L.
pub fn all_are_listed()
    ensures pieces { Piece.ALL ≡ all_pieces }
    ensures rotations { Rotation.ALL ≡ all_rotations }
{}

/// Each code and each letter names its piece or rotation.
pub fn names_are_read_back()
    ensures code { (piece : Piece) → piece_with_code (piece_code piece) ≡ Some piece }
    ensures letter { (piece : Piece) → piece_with_letter (piece_letter piece) ≡ Some piece }
    ensures rotation { (rotation : Rotation) → rotation_with_letter (rotation_letter rotation) ≡ Some rotation }
{}

/// A quarter turn clockwise and one anticlockwise undo each other.
pub fn turns_undo_each_other()
    ensures clockwise { (rotation : Rotation) → clockwise_of (anticlockwise_of rotation) ≡ rotation }
    ensures anticlockwise { (rotation : Rotation) → anticlockwise_of (clockwise_of rotation) ≡ rotation }
{}

/// Each shape of a piece is the one before it, turned by a quarter about the pivot.
pub fn shapes_turn()
    ensures { (piece : Piece) (rotation : Rotation) →
        shape piece (clockwise_of rotation) ≡ map turned_clockwise (shape piece rotation) }
{}

/// The order of placements is total. Only equal placements compare as Equal.
pub fn placements_are_ordered()
    ensures total { IsTotalOrder placement_cmp }
    ensures equal { (s t : Placement) → (placement_cmp s t ≡ Ordering.Equal) ↔ (s ≡ t) }
{}

/// The order of sequences is total. Only equal sequences compare as Equal.
pub fn sequences_are_ordered()
    ensures total { IsTotalOrder sequence_cmp }
    ensures equal { (s t : List Placement) → (sequence_cmp s t ≡ Ordering.Equal) ↔ (s ≡ t) }
{}

/// Placements with the same cells are of one piece, and exactly one of them is canonical. A test decides which.
pub fn canonical_is_unique()
    ensures piece { (s t : Placement) → HasSameCells s t → s.piece ≡ t.piece }
    ensures unique { (s t : Placement) → IsCanonical s → IsCanonical t → HasSameCells s t → s ≡ t }
    ensures tested { (s : Placement) → IsTrue (is_canonical s) ↔ IsCanonical s }
{}

/// The canonical placements of a piece inside the well form a strictly rising list.
pub fn placements_are_listed()
    ensures { (piece : Piece) → IsRisingListOf placement_cmp (IsCanonicalInside piece) (placements_of piece) }
{}

/// Rules with the same table are the same.
pub fn rules_are_their_table()
    ensures { (rules others : Rules) → table_of rules ≡ table_of others → rules ≡ others }
{}

/// Every table has five offsets for each piece and rotation. Each is at most three columns and three rows.
pub fn offsets_are_small(rules: &Rules)
    ensures { IsSmallTable (table_of rules.now) }
{}
