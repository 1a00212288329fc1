// Laws of the definitions: functions with an empty body whose contract is the law.
ghost use Rattle.std.specs.Prelude.{◌≡◌, ℕ, ◌++◌, ◌≤◌, [], ◌∷◌, length, List, Option, Some, None, IsTrue};
ghost use Rattle.lane_board.specs.Field.{Field};
ghost use Rattle.srs.specs.declared.piece.Piece.{Piece};
ghost use Rattle.srs.specs.declared.placement.Placement.{Placement};
ghost use Rattle.srs.specs.Kick.{Table};
ghost use Rattle.well.specs.LockLaws.{LiesBelow};
ghost use Rattle.moves.specs.declared.key.DropMode.{DropMode};
ghost use Rattle.queue_pattern.specs.declared.pattern.Pattern.{Pattern};
ghost use Rattle.queue_pattern.specs.Pattern.{elements_of};
ghost use Rattle.queue_pattern.specs.Queues.{queues};
ghost use Rattle.prune.specs.Laws.{kinds_placed};
ghost use Rattle.prune.specs.Tiling.{Tiling};
ghost use Rattle.problem.specs.declared.problem.Problem.{Problem};
ghost use Rattle.problem.specs.Plays.{Plays};
ghost use Rattle.problem.specs.Problem.{IsFit};
ghost use Rattle.problem.specs.Solution.{IsSolution};
ghost use Rattle.problem.specs.SolutionList.{IsList};
ghost use Rattle.enumerate.specs.SearchState.{root_of};
ghost use Rattle.enumerate.specs.Work.{is_live_prefix, pairs};

/// For a fit problem, the list that a view asks for exists, whatever its bound.
pub fn lists_exist()
    ensures { (problem : Problem) (queue : Option (List Piece)) (bound : Option (List Placement)) → IsFit problem →
        (sequences : List (List Placement))
        × IsList (record { problem = problem; queue = queue; bound = bound }) sequences }
{}

/// If a sequence can be played in a field without a cell at or above the height, the empty cells below the height have
/// a tiling with as many pieces of each kind as the sequence has.
pub fn what_plays_leaves_a_tiling()
    ensures { (table : Table) (mode : DropMode) (F : Field) (height : ℕ) (sequence : List Placement) → height ≤ 23 →
        LiesBelow F height → Plays table mode F height sequence → Tiling F height (kinds_placed sequence) }
{}

/// Every prefix of a solution of a fit problem is live.
pub fn prefixes_of_solutions_are_live()
    ensures { (problem : Problem) (queue : Option (List Piece)) (prefix rest : List Placement) → IsFit problem →
        IsSolution problem queue (prefix ++ rest) →
        IsTrue (is_live_prefix (length rest) (root_of problem queue) prefix) }
{}

/// The pairs that a search of one queue goes through, of an unfinished live prefix and a kind that may come next, are
/// as many as those of a problem whose only queue it is.
pub fn pairs_of_one_queue_are_those_of_its_problem()
    ensures { (problem : Problem) (queue : List Piece) (pattern : Pattern) →
        queues (elements_of pattern) ≡ queue ∷ [] →
        pairs problem (Some queue) ≡ pairs (record problem { pattern = pattern }) None }
{}
