// The record of a page's cells: runs of cells, each with one difference to the page before.
ghost use Rattle.std.specs.Prelude.{◌≡◌, ◌+◌, ◌<◌, ◌≤◌, ◌↔◌, ◌++◌, length, take, All, IfOk, OnOk, OnErr, IsTrue, Ok, Err};
ghost use Rattle.std.specs.List.{list_all};
ghost use Rattle.fumen_digits.specs.Dialect.{page_cell_count};
ghost use Rattle.fumen_digits.specs.declared.dialect.Dialect.{Dialect};
ghost use Rattle.fumen_digits.specs.Reading.{number_at};
ghost use Rattle.fumen_digits.specs.ReadResults.{Reads};
ghost use Rattle.fumen_pages.specs.declared.record.CellsRead.{CellsRead};
ghost use Rattle.fumen_pages.specs.declared.record.CellsFault.{CellsFault};
ghost use Rattle.fumen_pages.specs.Cells.{AreCells, IsColour};
ghost use Rattle.fumen_pages.specs.Record.{moved_by, stays_colour, unchanged};
ghost use Rattle.fumen_pages.specs.Written.{colour_difference, same_count, written_record};
ghost use Rattle.fumen_pages.specs.Reading.{checked_run, record_at, run_at};
ghost use Rattle.fumen_pages.specs.Faults.{IsRecordFault, RecordStands, cells_fault};

use fumen_digits::{Dialect, DigitFault, FumenFault, push_number, read_number};
use pc_outside::NoMemory;

/// The cells that a record spells.
#[derive(Clone, Copy, Debug, PartialEq, Eq)]
pub struct CellsRead {
    /// The new cells.
    pub cells: [u8; 240],
    /// The place behind the record, as an index among the digits.
    pub place: usize,
    /// Whether the record is the single run `vh` or `7e`, which changes no cell. The digit behind it, which says how
    /// many more pages are unchanged, is not part of the record.
    pub unchanged: bool,
}

/// Why a record can't be read. A place is an index among the digits.
#[derive(Clone, Copy, Debug, PartialEq, Eq)]
pub enum CellsFault {
    /// The byte at this place is not a digit.
    BadDigit { place: usize },
    /// The digits end within the number that begins at this place.
    Truncated { place: usize },
    /// The run at this place is longer than the cells that are left.
    RunPastEnd { place: usize },
    /// The run at this place fits, but makes a cell below 0 or above 8.
    BadCell { place: usize },
}

impl From<CellsFault> for FumenFault {
    ghost from_gives = { λ fault text. text ≡ cells_fault fault };

    fn from(fault: CellsFault) -> FumenFault {
        match fault {
            CellsFault::BadDigit { place } => FumenFault::BadDigit { place },
            CellsFault::Truncated { place } => FumenFault::Truncated { place },
            CellsFault::RunPastEnd { place } => FumenFault::RunPastEnd { place },
            CellsFault::BadCell { place } => FumenFault::BadCell { place },
        }
    }
}

/// Reads the record of a page's cells at a place, where the page before leaves the old cells.
///
/// A refusal is the first fault from the left.
pub fn read_cells(
    digits: &[u8],
    place: usize,
    dialect: Dialect,
    old: &[u8; 240],
) -> Result<CellsRead, CellsFault>
    requires place { place ≤ length digits.now }
    requires old { AreCells dialect old.now }

    // The result of reading from the left.
    ensures exact { Reads (λ read. read) cells_fault result (record_at dialect digits.now place old.now) }

    // The place behind it is among the digits, or at their end, and the cells are valid for a page.
    ensures within { IfOk result (λ read. read.place ≤ length digits.now) }
    ensures sound { IfOk result (λ read. AreCells dialect read.cells) }

    // It is the record that stands there, or the first fault there.
    ensures found { (read : CellsRead) → (result ≡ Ok read) ↔ RecordStands dialect digits.now place old.now read }
    ensures fault { (f : CellsFault) → (result ≡ Err f)
        ↔ IsRecordFault dialect digits.now place old.now (cells_fault f) }
{
    read_record(digits, place, dialect, old)
}

fn read_record(
    digits: &[u8],
    place: usize,
    dialect: Dialect,
    old: &[u8; 240],
) -> Result<CellsRead, CellsFault>
    requires place { place ≤ length digits.now }
    requires old { AreCells dialect old.now }
    ensures { Reads (λ read. read) cells_fault result (record_at dialect digits.now place old.now) }
{
    let mut cells = *old;
    let mut start = 240 - dialect.cells() as usize;
    let mut behind = place;
    while start < 240 {
        let (count, shift) = run_at(digits, behind, dialect, &cells[start..])?;
        move_by(&mut cells[start..start + count], shift);
        start += count;
        behind += 2;
    }
    let unchanged = digits[place..].starts_with(unchanged(dialect));
    Ok(CellsRead {
        cells,
        place: behind,
        unchanged,
    })
}

/// The run that changes no cell.
#[tactic(auto, unfolding(fumen_digits::specs::Number::digits, fumen_digits::specs::Digit::digit))]
fn unchanged(dialect: Dialect) -> &'static [u8]
    ensures { result.now ≡ unchanged dialect }
{
    match dialect {
        Dialect::V110 => b"7e",
        Dialect::V115 => b"vh",
    }
}

/// The run at a place, within the cells that are left: how many cells, and their difference plus 8.
#[tactic(auto, unfolding(crate::specs::Reading::run_at))]
fn run_at(
    digits: &[u8],
    place: usize,
    dialect: Dialect,
    left: &[u8],
) -> Result<(usize, u8), CellsFault>
    requires place { place ≤ length digits.now }
    requires colours { All IsColour left.now }
    ensures exact { Reads (λ run. run) cells_fault result (run_at (page_cell_count dialect) digits.now place left.now) }
    ensures within { IfOk result (λ _. place + 2 ≤ length digits.now) }
    ensures some { IfOk result (λ run. 1 ≤ run.0) }
    ensures fits { IfOk result (λ run. run.0 ≤ length left.now) }
    ensures colours { IfOk result (λ run. IsTrue (list_all (stays_colour run.1) (take run.0 left.now))) }
{
    let cells = u32::from(dialect.cells());
    let number = number_at(digits, place)?;
    checked_run(
        place,
        left,
        (number % cells) as usize + 1,
        (number / cells) as u8,
    )
}

/// A run of this many cells with their difference plus 8, or its fault.
fn checked_run(
    place: usize,
    left: &[u8],
    count: usize,
    shift: u8,
) -> Result<(usize, u8), CellsFault>
    requires shift { shift ≤ 18 }
    requires colours { All IsColour left.now }
    ensures exact { Reads (λ run. run) cells_fault result (checked_run place left.now count shift) }
    ensures count { IfOk result (λ run. run.0 ≡ count) }
    ensures fits { IfOk result (λ run. run.0 ≤ length left.now) }
    ensures colours { IfOk result (λ run. IsTrue (list_all (stays_colour run.1) (take run.0 left.now))) }
{
    if count > left.len() {
        return Err(CellsFault::RunPastEnd { place });
    }
    if !stay_colours(&left[..count], shift) {
        return Err(CellsFault::BadCell { place });
    }
    Ok((count, shift))
}

/// The number of a run at a place, with its fault as one of the cells.
fn number_at(digits: &[u8], place: usize) -> Result<u32, CellsFault>
    requires { place ≤ length digits.now }
    ensures exact { Reads (λ n. n) cells_fault result (number_at digits.now place 2) }
    ensures within { IfOk result (λ _. place + 2 ≤ length digits.now) }
    ensures below { IfOk result (λ n. n < 4096) }
{
    match read_number(digits, place, 2) {
        Ok(number) => Ok(number),
        Err(DigitFault::Bad { place }) => Err(CellsFault::BadDigit { place }),
        Err(DigitFault::Truncated { place }) => Err(CellsFault::Truncated { place }),
    }
}

/// Whether all cells remain colours when the difference is added.
fn stay_colours(cells: &[u8], shift: u8) -> bool
    requires shift { shift ≤ 18 }
    requires colours { All IsColour cells.now }
    ensures { result ≡ list_all (stays_colour shift) cells.now }
{
    cells
        .iter()
        .all(|cell| 8 <= *cell + shift && *cell + shift <= 16)
}

/// Adds the difference to all cells.
#[tactic(auto, using(crate::proofs::RecordLoop::moved_fits, crate::proofs::RecordLoop::moved_more))]
fn move_by(cells: &mut [u8], shift: u8)
    requires { IsTrue (list_all (stays_colour shift) cells.old) }
    ensures { cells.new ≡ moved_by shift cells.old }
{
    for cell in cells.iter_mut() {
        *cell = *cell + shift - 8;
    }
}

/// Appends the record of a page's cells, where the page before leaves the old cells: the longest runs of one
/// difference. After NoMemory `out` is unchanged.
pub fn write_cells(
    out: &mut Vec<u8>,
    dialect: Dialect,
    old: &[u8; 240],
    new: &[u8; 240],
) -> Result<(), NoMemory>
    requires old { AreCells dialect old.now }
    requires new { AreCells dialect new.now }
    ensures ok { OnOk result (out.new.items ≡ out.old.items ++ written_record dialect old.now new.now) }
    ensures err { OnErr result (out.new.items ≡ out.old.items) }
{
    let before = out.len();
    let written = push_runs(out, dialect, old, new);
    if written.is_err() {
        out.truncate(before);
    }
    written
}

/// Appends the runs, or a front part of them.
fn push_runs(
    out: &mut Vec<u8>,
    dialect: Dialect,
    old: &[u8; 240],
    new: &[u8; 240],
) -> Result<(), NoMemory>
    requires old { AreCells dialect old.now }
    requires new { AreCells dialect new.now }
    ensures ok { OnOk result (out.new.items ≡ out.old.items ++ written_record dialect old.now new.now) }
    ensures kept { take (length out.old.items) out.new.items ≡ out.old.items }
{
    let cells = dialect.cells();
    let mut start = 240 - cells as usize;
    while start < 240 {
        let shift = difference(old[start], new[start]);
        let count = same_count(&old[start..], &new[start..], shift);
        push_number(
            out,
            u32::from(shift) * u32::from(cells) + (count - 1) as u32,
            2,
        )?;
        start += count;
    }
    Ok(())
}

/// The difference of a new cell to the old one, plus 8.
fn difference(old: u8, new: u8) -> u8
    requires old { old ≤ 8 }
    requires new { new ≤ 8 }
    ensures value { result ≡ colour_difference old new }
    ensures most { result ≤ 16 }
{
    new + 8 - old
}

/// How many cells from the first on have this difference (plus 8).
fn same_count(old: &[u8], new: &[u8], shift: u8) -> usize
    requires same { length old.now ≡ length new.now }
    requires old { All IsColour old.now }
    requires new { All IsColour new.now }
    ensures value { result ≡ same_count shift old.now new.now }
    ensures most { result ≤ length old.now }
{
    for i in 0..old.len() {
        if difference(old[i], new[i]) != shift {
            return i;
        }
    }
    old.len()
}
