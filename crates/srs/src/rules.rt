// The table of offsets that gives the kicks of all turns.
ghost use Rattle.std.specs.Prelude.{◌≡◌, ◌-◌, ◌≤◌, ◌↔◌, IsTrue, length, map, slice_set};
ghost use Rattle.std.specs.List.{list_all};
ghost use Rattle.srs.specs.Kick.{is_small, pair_of, offset_in, srs_table, piece_table_with, table_with, piece_tables_eq, table_eq};
ghost use Rattle.srs.specs.SameCells.{cells_eq};

use crate::offset::Offset;
use crate::piece::Piece;
use crate::rotation::Rotation;

/// The offsets of one piece in one rotation, for tests 1 to 5 of a turn.
#[derive(Clone, Copy, Debug, PartialEq, Eq)]
struct Tests {
    offsets: [Offset; 5],
    ghost five: { length offsets ≡ 5 },
    ghost small: { IsTrue (list_all is_small offsets) },
}

/// The offsets of one piece in its four rotations.
#[derive(Clone, Copy, Debug, PartialEq, Eq)]
struct PieceOffsets {
    spawn: Tests,
    right: Tests,
    reverse: Tests,
    left: Tests,
}

/// A table of offsets: five for each piece and rotation, for tests 1 to 5 of a turn. Each is at most three columns and
/// three rows.
#[derive(Clone, Copy, Debug, PartialEq, Eq)]
pub struct Rules {
    i: PieceOffsets,
    l: PieceOffsets,
    o: PieceOffsets,
    z: PieceOffsets,
    t: PieceOffsets,
    j: PieceOffsets,
    s: PieceOffsets,
}

impl Tests {
    /// Whether the five offsets are the same.
    fn is_same(&self, other: &Tests) -> bool
        ensures { result ≡ cells_eq (map pair_of self.now.offsets) (map pair_of other.now.offsets) }
    {
        self.offsets == other.offsets
    }

    /// The same offsets, with this one for the given test (1 to 5).
    fn with_offset(&self, test: u8, offset: Offset) -> Tests
        requires first { 1 ≤ test }
        requires last { test ≤ 5 }
        requires small { IsTrue (is_small offset) }
        ensures { result.offsets ≡ slice_set self.now.offsets (test - 1) offset }
    {
        let mut tests = *self;
        tests.offsets[test as usize - 1] = offset;
        tests
    }
}

impl PieceOffsets {
    ghost use Rattle.srs.specs.Rules.{piece_table};

    /// The offsets in a rotation.
    fn tests(&self, rotation: Rotation) -> &Tests
        ensures { map pair_of result.now.offsets ≡ piece_table self.now rotation }
    {
        match rotation {
            Rotation::Spawn => &self.spawn,
            Rotation::Right => &self.right,
            Rotation::Reverse => &self.reverse,
            Rotation::Left => &self.left,
        }
    }

    /// Whether the offsets are the same in every rotation.
    fn is_same(&self, other: &PieceOffsets) -> bool
        ensures { result ≡ piece_tables_eq (piece_table self.now) (piece_table other.now) }
    {
        self.spawn.is_same(&other.spawn)
            && self.right.is_same(&other.right)
            && self.reverse.is_same(&other.reverse)
            && self.left.is_same(&other.left)
    }

    /// The same offsets, with this one for the given rotation and test (1 to 5).
    fn with_offset(&self, rotation: Rotation, test: u8, offset: Offset) -> PieceOffsets
        requires first { 1 ≤ test }
        requires last { test ≤ 5 }
        requires small { IsTrue (is_small offset) }
        ensures { piece_table result ≡ piece_table_with (piece_table self.now) rotation test (pair_of offset) }
    {
        let mut table = *self;
        match rotation {
            Rotation::Spawn => table.spawn = table.spawn.with_offset(test, offset),
            Rotation::Right => table.right = table.right.with_offset(test, offset),
            Rotation::Reverse => table.reverse = table.reverse.with_offset(test, offset),
            Rotation::Left => table.left = table.left.with_offset(test, offset),
        }
        table
    }
}

impl Rules {
    ghost use Rattle.srs.specs.Rules.{table_of, piece_table};

    /// The offsets of the Super Rotation System.
    pub fn srs() -> Rules
        ensures { table_of result ≡ srs_table }
    {
        macro_rules! tests {
            ($(($dx:expr, $dy:expr))*) => {
                Tests { offsets: [$(Offset { dx: $dx, dy: $dy }),*] }
            };
        }
        let usual = PieceOffsets {
            spawn: tests! { (0, 0) (0, 0) (0, 0) (0, 0) (0, 0) },
            right: tests! { (0, 0) (1, 0) (1, -1) (0, 2) (1, 2) },
            reverse: tests! { (0, 0) (0, 0) (0, 0) (0, 0) (0, 0) },
            left: tests! { (0, 0) (-1, 0) (-1, -1) (0, 2) (-1, 2) },
        };
        let long = PieceOffsets {
            spawn: tests! { (0, 0) (-1, 0) (2, 0) (-1, 0) (2, 0) },
            right: tests! { (-1, 0) (0, 0) (0, 0) (0, 1) (0, -2) },
            reverse: tests! { (-1, 1) (1, 1) (-2, 1) (1, 0) (-2, 0) },
            left: tests! { (0, 1) (0, 1) (0, 1) (0, -1) (0, 2) },
        };
        let square = PieceOffsets {
            spawn: tests! { (0, 0) (0, 0) (0, 0) (0, 0) (0, 0) },
            right: tests! { (0, -1) (0, -1) (0, -1) (0, -1) (0, -1) },
            reverse: tests! { (-1, -1) (-1, -1) (-1, -1) (-1, -1) (-1, -1) },
            left: tests! { (-1, 0) (-1, 0) (-1, 0) (-1, 0) (-1, 0) },
        };
        Rules {
            i: long,
            l: usual,
            o: square,
            z: usual,
            t: usual,
            j: usual,
            s: usual,
        }
    }

    /// The offset of a piece in a rotation for the given test (1 to 5).
    pub fn offset(&self, piece: Piece, rotation: Rotation, test: u8) -> Offset
        requires first { 1 ≤ test }
        requires last { test ≤ 5 }
        ensures offset { pair_of result ≡ offset_in (table_of self.now) piece rotation test }
        ensures small { IsTrue (is_small result) }
    {
        self.of_piece(piece).tests(rotation).offsets[test as usize - 1]
    }

    /// Whether the table is that of `Rules::srs()`.
    pub fn is_srs(&self) -> bool
        ensures { IsTrue result ↔ (table_of self.now ≡ srs_table) }
    {
        self.is_same(&Rules::srs())
    }

    /// The offsets of a piece.
    #[tactic(auto, unfolding(crate::specs::Rules::table_of))]
    fn of_piece(&self, piece: Piece) -> &PieceOffsets
        ensures { piece_table result.now ≡ table_of self.now piece }
    {
        match piece {
            Piece::I => &self.i,
            Piece::L => &self.l,
            Piece::O => &self.o,
            Piece::Z => &self.z,
            Piece::T => &self.t,
            Piece::J => &self.j,
            Piece::S => &self.s,
        }
    }

    /// Whether all offsets of the two tables are the same.
    #[tactic(auto, unfolding(crate::specs::Rules::table_of))]
    fn is_same(&self, other: &Rules) -> bool
        ensures { result ≡ table_eq (table_of self.now) (table_of other.now) }
    {
        self.i.is_same(&other.i)
            && self.l.is_same(&other.l)
            && self.o.is_same(&other.o)
            && self.z.is_same(&other.z)
            && self.t.is_same(&other.t)
            && self.j.is_same(&other.j)
            && self.s.is_same(&other.s)
    }

    /// The same table, with this offset for the given piece, rotation and test (1 to 5).
    pub fn with_offset(&self, piece: Piece, rotation: Rotation, test: u8, offset: Offset) -> Rules
        requires first { 1 ≤ test }
        requires last { test ≤ 5 }
        requires small { IsTrue (is_small offset) }
        ensures { table_of result ≡ table_with (table_of self.now) piece rotation test (pair_of offset) }
    {
        let mut rules = *self;
        match piece {
            Piece::I => rules.i = rules.i.with_offset(rotation, test, offset),
            Piece::L => rules.l = rules.l.with_offset(rotation, test, offset),
            Piece::O => rules.o = rules.o.with_offset(rotation, test, offset),
            Piece::Z => rules.z = rules.z.with_offset(rotation, test, offset),
            Piece::T => rules.t = rules.t.with_offset(rotation, test, offset),
            Piece::J => rules.j = rules.j.with_offset(rotation, test, offset),
            Piece::S => rules.s = rules.s.with_offset(rotation, test, offset),
        }
        rules
    }
}
