// Laws of several crates: functions with an empty body whose contract is the law.
ghost use Rattle.std.specs.Prelude.{◌≡◌, ◌↔◌, ℕ, Bool, IsTrue, List, None, Some, Contains, count_by, length, slice_get};
ghost use Rattle.srs.specs.declared.piece.Piece.{Piece};
ghost use Rattle.srs.specs.declared.placement.Placement.{Placement};
ghost use Rattle.queue_pattern.specs.Pattern.{elements_of};
ghost use Rattle.queue_pattern.specs.Queues.{queues};
ghost use Rattle.problem.specs.declared.problem.Problem.{Problem};
ghost use Rattle.problem.specs.Solution.{IsSolution};
ghost use Rattle.cover.specs.Covered.{IsCovered, IsCoveredList};
ghost use Rattle.percent.specs.Good.{Good};

/// If all solutions of a problem are among the sequences, whatever else is, exactly the good queues are covered. So the
/// number of covered queues is the number that pass a test for good queues.
pub fn all_solutions_cover_the_good_queues()
    ensures each { (problem : Problem) (sequences : List (List Placement)) (number : ℕ) (queue : List Piece) →
        ((sequence : List Placement) → IsSolution problem None sequence → Contains sequences sequence) →
        slice_get (queues (elements_of problem.pattern)) number ≡ Some queue →
        IsCovered problem sequences number ↔ Good problem queue }
    ensures count { (problem : Problem) (sequences : List (List Placement)) (numbers : List ℕ)
        (is_good : List Piece → Bool) →
        ((sequence : List Placement) → IsSolution problem None sequence → Contains sequences sequence) →
        IsCoveredList problem sequences numbers →
        ((queue : List Piece) → IsTrue (is_good queue) ↔ Good problem queue) →
        length numbers ≡ count_by is_good (queues (elements_of problem.pattern)) }
{}
