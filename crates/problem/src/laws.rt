// Laws of the definitions: functions with an empty body whose contract is the law.
ghost use Rattle.std.specs.Prelude.{◌≡◌, ◌++◌, length, List, [], ◌∷◌, Some, Option, Contains};
ghost use Rattle.srs.specs.declared.piece.Piece.{Piece};
ghost use Rattle.srs.specs.declared.placement.Placement.{Placement};
ghost use Rattle.problem.specs.declared.fault.ProblemFault.{ProblemFault};
ghost use Rattle.problem.specs.declared.problem.Problem.{Problem};
ghost use Rattle.problem.specs.Faults.{IsFirstFault};
ghost use Rattle.problem.specs.Problem.{IsFit, needed_of};
ghost use Rattle.problem.specs.Solution.{IsSolution};
ghost use Rattle.problem.specs.SolutionList.{View, IsList, Resumes};

/// Every solution of a fit problem has as many placements as are needed.
pub fn solutions_are_as_long_as_needed()
    ensures { (problem : Problem) (queue : Option (List Piece)) (s : List Placement) → IsFit problem →
        IsSolution problem queue s → length s ≡ needed_of problem }
{}

/// There is at most one list that a view asks for.
pub fn lists_are_determined()
    ensures { (view : View) (xs ys : List (List Placement)) → IsList view xs → IsList view ys → xs ≡ ys }
{}

/// What follows a member of a list is the list after this member. For each member, the list is its members up to this
/// one, followed by the list after it.
pub fn lists_resume()
    ensures after { (problem : Problem) (queue : Option (List Piece)) (bound : Option (List Placement))
        (front rest : List (List Placement)) (s : List Placement) →
        IsList (record { problem = problem; queue = queue; bound = bound }) ((front ++ s ∷ []) ++ rest) →
        IsList (record { problem = problem; queue = queue; bound = Some s }) rest }
    ensures divided { (problem : Problem) (queue : Option (List Piece)) (bound : Option (List Placement))
        (whole rest : List (List Placement)) (s : List Placement) →
        IsList (record { problem = problem; queue = queue; bound = bound }) whole → Contains whole s →
        IsList (record { problem = problem; queue = queue; bound = Some s }) rest → Resumes whole s rest }
{}

/// A fit problem has no first fault, and any other problem has at most one.
pub fn faults_are_exact()
    ensures none { (problem : Problem) (fault : ProblemFault) → IsFit problem → IsFirstFault problem fault → ⊥ }
    ensures one { (problem : Problem) (fault other : ProblemFault) → IsFirstFault problem fault →
        IsFirstFault problem other → fault ≡ other }
{}
