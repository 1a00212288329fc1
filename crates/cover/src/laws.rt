// Laws of the definitions: functions with an empty body whose contract is the law.
ghost use Rattle.std.specs.Prelude.{◌≡◌, ◌↔◌, ℕ, List, Contains, None, Some, slice_get};
ghost use Rattle.srs.specs.declared.piece.Piece.{Piece};
ghost use Rattle.srs.specs.declared.placement.Placement.{Placement};
ghost use Rattle.queue_pattern.specs.Pattern.{elements_of};
ghost use Rattle.queue_pattern.specs.Queues.{queues};
ghost use Rattle.problem.specs.declared.problem.Problem.{Problem};
ghost use Rattle.problem.specs.Problem.{IsFit};
ghost use Rattle.problem.specs.Solution.{IsSolution};
ghost use Rattle.cover.specs.Covered.{IsCovered, IsCoveredList};

/// If all solutions of a problem are among the sequences, a queue is covered exactly if some sequence solves the problem
/// with this queue alone.
pub fn all_solutions_cover_each_queue_that_has_one()
    ensures { (problem : Problem) (sequences : List (List Placement)) (number : ℕ) (queue : List Piece) →
        ((sequence : List Placement) → IsSolution problem None sequence → Contains sequences sequence) →
        slice_get (queues (elements_of problem.pattern)) number ≡ Some queue →
        IsCovered problem sequences number
        ↔ ((sequence : List Placement) × IsSolution problem (Some queue) sequence) }
{}

/// For a fit problem, the rising list of the covered queues exists, whatever the sequences are.
pub fn covered_lists_exist()
    ensures { (problem : Problem) (sequences : List (List Placement)) → IsFit problem
        → (numbers : List ℕ) × IsCoveredList problem sequences numbers }
{}
