// Positions: what remains after some placements.
ghost use Rattle.std.specs.Prelude.{◌≤◌};
ghost use Rattle.well.specs.Well.{filled};
ghost use Rattle.well.specs.LockLaws.{LiesBelow};
ghost use Rattle.percent.specs.OpenRows.{HasOpenRows};

use crate::order::roughness;
use srs::Placement;
use well::Well;

/// A well, and how many of its rows are left to be removed. All its cells lie in these rows, and none of them is full.
#[derive(Clone, Copy)]
pub struct Position {
    pub well: Well,
    pub rows: u8,
    /// How rough the well is (`order::roughness`), or 0 at first.
    pub roughness: u32,
    /// The column of the last placement, or 0 at first.
    pub near: u8,
    ghost few: { rows ≤ 8 },
    ghost below: { LiesBelow (filled well) rows },
    ghost open_rows: { HasOpenRows (filled well) rows },
}

/// A placement, and the position after it.
#[derive(Clone, Copy)]
pub struct Child {
    pub placement: Placement,
    pub position: Position,
    /// In which of the marks' tilings the placement may stand. Bit `k` stands for mark `k`.
    pub standing: u64,
}

impl Position {
    ghost use Rattle.std.specs.Prelude.{◌≡◌, ◌-◌, IsTrue};
    ghost use Rattle.well.specs.Free.{is_free};
    ghost use Rattle.well.specs.Lock.{locked, rows_removed};
    ghost use Rattle.well.specs.LockLaws.{is_below};

    /// The position after a placement that lies below the rows left.
    pub fn after(&self, placement: &Placement) -> Position
        requires free { IsTrue (is_free (filled self.now.well) placement.now) }
        requires below { IsTrue (is_below self.now.rows placement.now) }
        ensures field { filled result.well ≡ locked (filled self.now.well) placement.now }
        ensures rows { result.rows ≡ self.now.rows - rows_removed (filled self.now.well) placement.now }
    {
        let (well, removed) = self.well.lock(placement);
        let rows = self.rows.saturating_sub(removed);
        Position {
            well,
            rows,
            roughness: roughness(&well, rows),
            near: placement.x,
        }
    }
}

/// A number that differs for most sets of cells and numbers of placements to come.
pub fn hash_of(cells: u128, left: u8) -> u64 {
    let low = (cells % (1 << 64)) as u64;
    let high = (cells >> 64) as u64;
    let mut mixed = low ^ high.rotate_left(32) ^ u64::from(left);
    mixed = mixed.wrapping_mul(0x9e37_79b9_7f4a_7c15);
    mixed = (mixed ^ mixed >> 32).wrapping_mul(0xd6e8_feb8_6659_fd93);
    mixed >> 32
}
