// Laws of the definitions: functions with an empty body whose contract is the law.
ghost use Rattle.std.specs.Prelude.{◌≡◌, ◌≤◌, ◌<◌, ℕ, List, length, None};
ghost use Rattle.fumen_digits.specs.declared.dialect.Dialect.TheVariants.{V115};
ghost use Rattle.fumen_pages.specs.Lists.{most_pages};
ghost use Rattle.fumen_text.specs.Texts.{ReadsAs};
ghost use Rattle.fumen_text.specs.Written.{list_encode_fault, written};
ghost use Rattle.sample_pages.specs.Pages.{column_drawn, sample_pages};
ghost use Rattle.problem.specs.declared.problem.Problem.{Problem};
ghost use Rattle.problem.specs.Problem.{IsFit};
ghost use Rattle.pc_selfrun.specs.Output.{IsSelfrunOutput};
ghost use Rattle.pc_selfrun.specs.Problem.{IsColumnProblem};

use fumen_text::laws::encode_undone;

/// As many pages are made from a number as are asked for. They have no fault, and their text reads as them.
pub fn made_pages_are_read_again()
    ensures count { (number pages : ℕ) → length (sample_pages number pages) ≡ pages }
    ensures fault { (number pages : ℕ) → pages ≤ most_pages
        → list_encode_fault V115 (sample_pages number pages) ≡ None }
    ensures reads { (number pages : ℕ) → pages ≤ most_pages
        → ReadsAs (written V115 (sample_pages number pages)) V115 (sample_pages number pages) }
{
    encode_undone();
}

/// The problem of every column that can be drawn is fit.
pub fn column_problems_are_fit()
    ensures drawn { (number pages : ℕ) → column_drawn number pages < 7 }
    ensures fit { (column : ℕ) (problem : Problem) → column < 7 → IsColumnProblem column problem → IsFit problem }
{}

/// The output of `selfrun` depends only on its number and the number of pages.
pub fn output_is_determined()
    ensures { (number pages : ℕ) (one other : List ℕ) → IsSelfrunOutput number pages one
        → IsSelfrunOutput number pages other → one ≡ other }
{}
