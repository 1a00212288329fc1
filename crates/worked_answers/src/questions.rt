// The problems that tests ask about, and what they assert.
ghost use Rattle.std.specs.Prelude.{◌≡◌};
ghost use Rattle.problem.specs.Problem.{IsFit};

use hold_queue::Hold;
use kick_file::parse;
use moves::DropMode;
use pc_settings::{FieldSettings, FieldWords};
use problem::Problem;
use queue_pattern::Pattern;
use srs::{Piece, Rules};
use std::process::Abort;
use well::Well;

/// The rows, the height and the pattern of a problem, and whether it may hold.
pub type Question<'a> = (&'a [u8], u8, &'a str, Hold);

/// How a problem is played: whether it may hold, the piece that is held at the start, if any, the drop mode, and the
/// text of the table of offsets.
pub type Way<'a> = (Hold, Option<Piece>, DropMode, &'a str);

/// The problem of a question, with nothing held at the start, soft drops and the usual offsets.
pub fn problem(rt: &impl Abort, question: &Question) -> Problem
    ensures { IsFit result }
{
    let (rows, height, pattern, hold) = *question;
    problem_by(rt, rows, height, pattern, &(hold, None, DropMode::Soft, ""))
}

/// The problem of these rows, this height and this pattern that is played in this way.
pub fn problem_by(rt: &impl Abort, rows: &[u8], height: u8, pattern: &str, way: &Way) -> Problem
    ensures { IsFit result }
{
    let (hold, held, drop_mode, kicks) = *way;
    let well = Well::from_rows(rows).expect(rt, "a rows text");
    let pattern = Pattern::parse(pattern).expect(rt, "a pattern");
    let rules = parse(kicks).expect(rt, "a table of offsets");
    Problem::new(well, height, pattern, hold, held, drop_mode, rules).expect(rt, "a fit problem")
}

/// One row that an `I` clears, and the queues of this pattern, with hold.
pub fn one_row(patterns: &str) -> FieldSettings<'_>
    ensures page { result.page ≡ 1 }
    ensures height { result.height ≡ 1 }
{
    FieldSettings {
        field: FieldWords::Rows("XXXXXX____"),
        page: 1,
        height: 1,
        patterns,
        hold: Hold::Allowed,
        held: None,
        drop_mode: DropMode::Soft,
        rules: Rules::srs(),
    }
}

/// Asserts that something is so.
pub fn is_so(rt: &impl Abort, so: bool, what: &str) {
    assert!(rt; so, "{what}");
}
