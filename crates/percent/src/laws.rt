// Laws of the definitions: functions with an empty body whose contract is the law.
ghost use Rattle.std.specs.Prelude.{◌≡◌, ◌↔◌, ◌≤◌, ℕ, Bool, true, IsTrue, List};
ghost use Rattle.lane_board.specs.Field.{Field, difference, rows_below};
ghost use Rattle.srs.specs.declared.piece.Piece.{Piece};
ghost use Rattle.well.specs.LockLaws.{LiesBelow};
ghost use Rattle.problem.specs.declared.problem.Problem.{Problem};
ghost use Rattle.problem.specs.Problem.{IsFit};
ghost use Rattle.percent.specs.declared.game.Game.{Game};
ghost use Rattle.percent.specs.BuiltHands.{IsBuiltBy, IsHardSrs};
ghost use Rattle.percent.specs.Good.{Good};
ghost use Rattle.percent.specs.GoodHands.{is_good, is_good_queue};
ghost use Rattle.percent.specs.OpenRows.{HasOpenRows};

/// A test decides whether a queue is good.
pub fn good_is_decided()
    ensures { (problem : Problem) (queue : List Piece) → IsFit problem →
        IsTrue (is_good_queue problem queue) ↔ Good problem queue }
{}

/// Where a hand is good, the pieces of some tiling of the empty cells can be put in place one after the other, in an
/// order that the hand permits.
pub fn good_hands_are_built()
    ensures { (game : Game) (drops : Bool) (field : Field) (height left hand : ℕ) → (drops ≡ true → IsHardSrs game) →
        height ≤ 8 → LiesBelow field height → HasOpenRows field height → IsTrue (is_good game field height left hand) →
        IsBuiltBy (difference (rows_below height) field) drops game.hold left hand }
{}
