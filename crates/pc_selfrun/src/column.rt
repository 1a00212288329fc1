// The problem of a column.
ghost use Rattle.std.specs.Prelude.{◌≡◌, ◌<◌, codes, Ok};
ghost use Rattle.well.specs.Well.{filled};
ghost use Rattle.queue_pattern.specs.Grammar.{elements, limited};
ghost use Rattle.queue_pattern.specs.Pattern.{elements_of};
ghost use Rattle.problem.specs.Problem.{IsFit};
ghost use Rattle.pc_selfrun.specs.Problem.{IsColumnProblem, column_field, is_left_open};

use hold_queue::Hold;
use moves::DropMode;
use problem::Problem;
use queue_pattern::Pattern;
use srs::Rules;
use well::Well;

/// Whether column `x` is one of the four from this column on.
#[tactic(auto, unfolding(crate::specs::Problem::is_left_open))]
fn is_left_open(column: u8, x: u8) -> bool
    requires { column < 7 }
    ensures { result ≡ is_left_open column x }
{
    column <= x && x <= column + 3
}

/// Rows 0 to 3, filled except for the four columns from this one on.
fn column_field(column: u8) -> Well
    requires { column < 7 }
    ensures { filled result ≡ column_field column }
{
    let mut well = Well::empty();
    'cells: for index in 0..40 {
        let x = index % 10;
        if !is_left_open(column, x) {
            well = well.with(x, index / 10);
        }
    }
    well
}

/// The pattern of any five different pieces in any order.
fn five_pieces() -> Pattern
    ensures { Ok (elements_of result) ≡ limited (elements (codes "*p5")) }
{
    match Pattern::parse("*p5") {
        Ok(pattern) => pattern,
        Err(_) => unreachable!(),
    }
}

/// The problem of a column, 0 to 6: clear four rows that are filled except for the four columns from this one on, with
/// five of the seven pieces in any order.
pub fn column_problem(column: u8) -> Problem
    requires { column < 7 }
    ensures problem { IsColumnProblem column result }
    ensures fit { IsFit result }
{
    Problem {
        well: column_field(column),
        height: 4,
        pattern: five_pieces(),
        hold: Hold::Allowed,
        held: None,
        drop_mode: DropMode::Soft,
        rules: Rules::srs(),
    }
}
