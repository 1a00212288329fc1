// A reader of rows texts, byte by byte.
ghost use Rattle.std.specs.Prelude.{◌≡◌, ℕ, ◌≤◌, false};
ghost use Rattle.well.specs.Rows.{is_empty_char, is_filled_char};
ghost use Rattle.well.specs.Well.{filled};

use crate::rows::RowsFault;
use crate::well::Well;
use srs::Piece;

/// What has been read of a rows text: its cells (those of the current row lie in row 0), the number of the current row,
/// counted from 1, and how many of its characters have been read.
#[derive(Clone, Copy)]
pub(crate) struct RowsReader {
    pub(crate) well: Well,
    row: u8,
    characters: u8,
    ghost first: { 1 ≤ row },
    ghost last: { row ≤ 23 },
    ghost within: { characters ≤ 10 },
    ghost low: { (x y : ℕ) → row ≤ y → filled well x y ≡ false },
}

impl RowsReader {
    ghost use Rattle.std.specs.Prelude.{◌+◌, ◌<◌, ◌==◌, if◌then◌else◌, IfOk, IfErr, Some, None};
    ghost use Rattle.lane_board.specs.Field.{empty_field, with_cell};
    ghost use Rattle.well.specs.Rows.{fault_at_byte, fault_at_end};
    ghost use Rattle.well.specs.RowsReading.{ReadsByte, raised};

    /// The reader before the first byte.
    pub(crate) fn start() -> RowsReader
        ensures cells { filled result.well ≡ empty_field }
        ensures row { result.row ≡ 1 }
        ensures characters { result.characters ≡ 0 }
    {
        RowsReader {
            well: Well::empty(),
            row: 1,
            characters: 0,
        }
    }

    /// Reads one more byte, which stands at this index of the text. A refusal is the fault at this byte.
    pub(crate) fn read(&self, place: usize, byte: u8) -> Result<RowsReader, RowsFault>
        ensures next { IfOk result (λ next. ReadsByte self.now byte next) }
        ensures form { IfOk result (λ _. fault_at_byte self.now.row self.now.characters place byte ≡ None) }
        ensures fault { IfErr result (λ fault. fault_at_byte self.now.row self.now.characters place byte ≡ Some fault) }
    {
        if let Some(fault) = self.fault_at(place, byte) {
            return Err(fault);
        }
        if byte == b'/' {
            return Ok(self.next_row());
        }
        Ok(self.next_character(byte))
    }

    /// The cells that were read, if the text ends here. A refusal is the fault at its end.
    pub(crate) fn finish(&self) -> Result<Well, RowsFault>
        ensures well { IfOk result (λ well. well ≡ self.now.well) }
        ensures form { IfOk result (λ _. fault_at_end self.now.row self.now.characters ≡ None) }
        ensures fault { IfErr result (λ fault. fault_at_end self.now.row self.now.characters ≡ Some fault) }
    {
        if self.characters != 10 {
            return Err(RowsFault::BadRowLength { row: self.row });
        }
        Ok(self.well)
    }

    /// The fault at a byte that stands at this index of the text.
    fn fault_at(&self, place: usize, byte: u8) -> Option<RowsFault>
        ensures { result ≡ fault_at_byte self.now.row self.now.characters place byte }
    {
        if byte == b'/' {
            if self.characters != 10 {
                return Some(RowsFault::BadRowLength { row: self.row });
            }
            return (self.row == 23).then_some(RowsFault::TooManyRows);
        }
        if !is_empty(byte) && !is_filled(byte) {
            return Some(RowsFault::BadRowChar { place });
        }
        (self.characters == 10).then_some(RowsFault::BadRowLength { row: self.row })
    }

    /// Begins a row below those that were read.
    fn next_row(&self) -> RowsReader
        requires { self.now.row < 23 }
        ensures row { result.row ≡ self.now.row + 1 }
        ensures characters { result.characters ≡ 0 }
        ensures cells { filled result.well ≡ raised (filled self.now.well) }
    {
        RowsReader {
            well: self.well.raised(),
            row: self.row + 1,
            characters: 0,
        }
    }

    /// Reads one more character of the row.
    fn next_character(&self, byte: u8) -> RowsReader
        requires { self.now.characters < 10 }
        ensures row { result.row ≡ self.now.row }
        ensures characters { result.characters ≡ self.now.characters + 1 }
        ensures cells { filled result.well ≡ (if is_filled_char byte then with_cell
            (filled self.now.well) self.now.characters 0 else filled self.now.well) }
    {
        let well = if is_filled(byte) {
            self.well.with(self.characters, 0)
        } else {
            self.well
        };
        RowsReader {
            well,
            row: self.row,
            characters: self.characters + 1,
        }
    }
}

/// Whether the byte stands for an empty cell.
fn is_empty(byte: u8) -> bool
    ensures { result ≡ is_empty_char byte }
{
    byte == b'_' || byte == b'.'
}

/// Whether the byte stands for a filled cell.
fn is_filled(byte: u8) -> bool
    ensures { result ≡ is_filled_char byte }
{
    byte == b'X' || byte == b'x' || Piece::from_letter(byte).is_some()
}
