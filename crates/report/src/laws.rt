// Laws of the formats: functions whose contract is the law.
ghost use Rattle.std.specs.Prelude.{◌≡◌, ◌≤◌, ℕ, Bool, List, length};
ghost use Rattle.lane_board.specs.Field.{Field};
ghost use Rattle.srs.specs.declared.placement.Placement.{Placement};
ghost use Rattle.srs.specs.Kick.{Table};
ghost use Rattle.moves.specs.declared.key.DropMode.{DropMode};
ghost use Rattle.problem.specs.Plays.{Plays};
ghost use Rattle.fumen_digits.specs.declared.dialect.Dialect.TheVariants.{V115};
ghost use Rattle.fumen_pages.specs.Lists.{most_pages};
ghost use Rattle.fumen_text.specs.Texts.{ReadsAs, empty_page};
ghost use Rattle.fumen_text.specs.Written.{written};
ghost use Rattle.report.specs.Forms.{key_part};
ghost use Rattle.report.specs.FumenLine.{grey_cells, left_after, sequence_pages};

use fumen_text::laws::encode_undone;

/// The fumen text of a sequence that clears a field, with keys or without, reads as the pages of the sequence. The last
/// page leaves no cell.
pub fn fumen_lines_are_read()
    ensures reads { (keys : Bool) (table : Table) (mode : DropMode) (F : Field) (rows : ℕ) (s : List Placement) →
        Plays table mode F rows s → length s ≤ most_pages →
        ReadsAs (written V115 (sequence_pages (key_part keys table mode) F s)) V115
        (sequence_pages (key_part keys table mode) F s) }
    ensures ends { (keys : Bool) (table : Table) (mode : DropMode) (F : Field) (rows : ℕ) (s : List Placement) →
        Plays table mode F rows s →
        left_after (grey_cells F) (sequence_pages (key_part keys table mode) F s) ≡ empty_page }
{
    encode_undone();
}
