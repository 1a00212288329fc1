// Laws of locking and of rows texts: functions that do nothing and whose contract is the law.
ghost use Rattle.std.specs.Prelude.{◌≡◌, ◌↔◌, ℕ, List, None, Some};
ghost use Rattle.well.specs.LockLaws.{AddsFourCells, StaysBelow, RemovesBelow};
ghost use Rattle.well.specs.Rows.{IsRowsText, rows_fault};
ghost use Rattle.well.specs.RowsFaults.{IsRowsFault};
ghost use Rattle.well.specs.declared.rows.RowsFault.{RowsFault};

/// Locking a free placement adds four cells and takes ten for each removed row.
pub fn locking_adds_four_cells()
    ensures { AddsFourCells }
{}

/// If field and placement lie below a height, at most that many rows are removed. What is left lies below the height
/// minus the number of removed rows.
pub fn what_is_left_stays_below()
    ensures cells { StaysBelow }
    ensures rows { RemovesBelow }
{}

/// A rows text has no fault exactly if it is empty, or at most 23 rows of ten characters, separated by slashes.
pub fn texts_without_fault_are_rows()
    ensures { (text : List ℕ) → (rows_fault text ≡ None) ↔ IsRowsText text }
{}

/// A text is refused exactly by its first fault. Whole rows, and characters of one more row, stand before it. The fault
/// is a byte that is neither a row character nor a slash, a row that ends before its tenth character or has an
/// eleventh, or a 24th row.
pub fn texts_are_refused_by_their_first_fault()
    ensures { (text : List ℕ) (fault : RowsFault) → (rows_fault text ≡ Some fault) ↔ IsRowsFault text fault }
{}
