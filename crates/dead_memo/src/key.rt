// The key of a question: its cells as one number, its rows and its supply.
ghost use Rattle.std.specs.Prelude.{◌≡◌, ◌≤◌};
ghost use Rattle.well.specs.Well.{filled};
ghost use Rattle.dead_memo.specs.Question.{question};
ghost use Rattle.dead_memo.specs.Keys.{question_of};

use well::{Well, cells_below};

/// The cells of the rows that are left, ten bits for each row from the lowest up; the number of rows left; and the
/// supply.
#[derive(Clone, Copy, PartialEq, Eq, Hash)]
pub struct Key {
    cells: u128,
    rows_left: u8,
    supply: [u8; 7],
}

impl Key {
    /// The key of a question.
    pub(crate) fn new(well: &Well, rows_left: u8, supply: &[u8; 7]) -> Key
        requires { rows_left ≤ 8 }
        ensures { question_of result ≡ question (filled well.now) rows_left supply.now }
    {
        Key {
            cells: cells_below(well, rows_left),
            rows_left,
            supply: *supply,
        }
    }
}
