// Laws of the definitions: functions with an empty body whose contract is the law.
ghost use Rattle.std.specs.Prelude.{◌≡◌, ◌++◌, ◌∷◌, ℕ, [], true, take, drop, List, Option, Some, None};
ghost use Rattle.std.specs.List.{flat_map};
ghost use Rattle.srs.specs.declared.placement.Placement.{Placement};
ghost use Rattle.placement_numbers.specs.Numbers.{AreNumbersOf, sequence_numbers};
ghost use Rattle.problem.specs.declared.problem.Problem.{Problem};
ghost use Rattle.problem.specs.Problem.{IsFit, needed_of};
ghost use Rattle.problem.specs.Solution.{IsSolution};
ghost use Rattle.problem.specs.SolutionList.{IsList};
ghost use Rattle.pc_settings.specs.Request.{PathRequest};
ghost use Rattle.pc_solutions.specs.Written.{WritesSolutions};

use problem::laws::lists_resume;

/// The numbers of a solution of a fit problem are those of a sequence of the needed length, so they may be given.
pub fn written_solutions_may_be_given()
    ensures { (problem : Problem) (sequence : List Placement) → IsFit problem → IsSolution problem None sequence
        → AreNumbersOf (needed_of problem) (sequence_numbers sequence) sequence }
{}

/// What is left behind the solutions that were written is the list after the last of them.
pub fn lists_go_on_behind_the_last_one_written()
    ensures { (problem : Problem) (after : Option (List Placement)) (sequences front : List (List Placement))
        (last : List Placement) (count : ℕ)
        → IsList (record { problem = problem; queue = None; bound = after }) sequences
        → take count sequences ≡ front ++ last ∷ []
        → IsList (record { problem = problem; queue = None; bound = Some last }) (drop count sequences) }
{
    lists_resume()
}

/// If a list is told to end with the solutions that were written, all of it was written.
pub fn ended_lists_are_written_whole()
    ensures { (request : PathRequest) (bytes numbers : List ℕ) (room : ℕ) (written : List ℕ) (count floods : ℕ)
        → (writes : WritesSolutions request bytes numbers room written count true floods)
        → written ≡ flat_map sequence_numbers writes.sequences }
{}
