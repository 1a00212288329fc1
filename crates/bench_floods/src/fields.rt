// The fields that are flooded.
ghost use Rattle.std.specs.Prelude.{◌<◌};

use moves::DropMode;
use reach::{Places, Steps, places};
use srs::{Piece, Placement, Rules};
use std::alloc::{AllocError, Global};
use std::io::{self, ErrorKind};
use std::sync::ledger::Ledger;
use well::Well;

/// An empty well, an opener of four rows, and a high ragged stack with holes and overhangs.
const FIELDS: [&[u8]; 3] = [
    b"",
    b"XX______XX/XXX____XXX/XXXX__XXXX/XXX___XXXX",
    b"X_________/XX_______X/XX____X_XX/XXX___XXXX/XX____XXXX/XXX__XXXXX/XX_X__XXXX/XXXX__X_XX/XXX__XXXXX/XXXX_XXXXX/X_XXX_XXXX/XXXX__XXXX",
];

/// How many ragged or played fields there are.
const COUNT: u32 = 512;

/// The fixed fields.
pub(crate) fn fixed_fields(alloc: Global) -> io::Result<Vec<Well>> {
    let mut wells = Vec::new(alloc);
    for field in FIELDS {
        let Ok(well) = Well::from_rows(field) else {
            return Err(io::Error::from(ErrorKind::InvalidData));
        };
        wells.push(well)?;
    }
    Ok(wells)
}

/// A generator of numbers that look random.
#[derive(Drop)]
struct Random {
    state: u64,
}

impl Random {
    /// The next number below `end`.
    fn below(&mut self, end: u64) -> u64
        requires { 0 < end }
        ensures { result < end }
    {
        self.state = self
            .state
            .wrapping_mul(6_364_136_223_846_793_005)
            .wrapping_add(1_442_695_040_888_963_407);
        (self.state >> 33) % end
    }
}

/// Fields whose lowest `rows` rows have cells, each with its own share of filled ones.
pub(crate) fn ragged_fields(alloc: Global, rows: u32) -> Result<Vec<Well>, AllocError> {
    let mut random = Random { state: 7 };
    let mut wells = Vec::new(alloc);
    for _ in 0..COUNT {
        wells.push(ragged_field(&mut random, rows))?;
    }
    Ok(wells)
}

/// One such field.
fn ragged_field(random: &mut Random, rows: u32) -> Well {
    let percent = 10 + random.below(85);
    let mut well = Well::empty();
    for y in 0..rows.min(22) as u8 {
        for x in 0..10 {
            if random.below(100) < percent {
                well = well.with(x, y);
            }
        }
    }
    well
}

/// Fields in which pieces were played in the lowest `rows` rows, each with another number of pieces.
pub(crate) fn played_fields<L: Ledger>(
    alloc: Global,
    rows: u32,
    steps: &mut Steps<L>,
) -> Result<Vec<Well>, AllocError> {
    let mut random = Random { state: 7 };
    let mut wells = Vec::new(alloc);
    for _ in 0..COUNT {
        wells.push(played_field(&mut random, rows.min(22) as u8, steps))?;
    }
    Ok(wells)
}

/// One such field: random pieces, each in one of its places whose cells lie in these rows.
fn played_field<L: Ledger>(random: &mut Random, rows: u8, steps: &mut Steps<L>) -> Well {
    let mut well = Well::empty();
    for _ in 0..random.below(10 * u64::from(rows) / 4 + 1) {
        let piece = Piece::ALL[random.below(7) as usize];
        let held = places(&well, &Rules::srs(), piece, DropMode::Soft, steps);
        match chosen(random, held.below(rows)) {
            None => return well,
            Some(placement) => well = locked(&well, &placement),
        }
    }
    well
}

/// One of these placements.
fn chosen(random: &mut Random, held: Places) -> Option<Placement> {
    let count = count(held);
    if count == 0 {
        return None;
    }
    let mut held = held;
    for _ in 0..random.below(count) {
        let _ = held.take_least();
    }
    held.take_least()
}

/// How many placements there are, counted up to a thousand.
fn count(held: Places) -> u64 {
    let mut held = held;
    for number in 0..1000 {
        if held.take_least().is_none() {
            return number;
        }
    }
    1000
}

/// The well with the placement locked, if it is free there.
fn locked(well: &Well, placement: &Placement) -> Well {
    if placement.x <= 9 && placement.y <= 22 && well.is_free(placement) {
        return well.lock(placement).0;
    }
    *well
}
