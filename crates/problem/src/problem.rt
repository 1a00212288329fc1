// A problem: a field to clear, the queues to clear it with, and the rules.
ghost use Rattle.std.specs.Prelude.{◌≡◌, IfErr, MatchResult, OnOk};
ghost use Rattle.well.specs.Well.{filled};
ghost use Rattle.problem.specs.declared.problem.Problem.{Problem};
ghost use Rattle.problem.specs.Faults.{IsFieldFault, IsFirstFault};
ghost use Rattle.problem.specs.Problem.{IsFit, IsFitField, pieces_at_hand};

use crate::fault::ProblemFault;
use hold_queue::Hold;
use moves::DropMode;
use queue_pattern::Pattern;
use srs::{Piece, Rules};
use well::Well;

/// A field, the height below which its rows are to be removed, the queues of a pattern, and the rules of play.
#[derive(Clone, Copy)]
pub struct Problem {
    pub well: Well,
    /// How many rows are to be removed.
    pub height: u8,
    pub pattern: Pattern,
    pub hold: Hold,
    /// The piece that is held at the start, if any.
    pub held: Option<Piece>,
    pub drop_mode: DropMode,
    pub rules: Rules,
}

/// Checks a field: the height is 1 to 8, the field has no cell at or above it, and no row is full. The fault is the
/// first of these that fails.
pub fn check_field(well: &Well, height: u8) -> Result<(), ProblemFault>
    ensures fit { OnOk result (IsFitField (filled well.now) height) }
    ensures fault { IfErr result (IsFieldFault (filled well.now) height) }
{
    if !(1..=8).contains(&height) {
        return Err(ProblemFault::BadHeight { height });
    }
    if let Some(row) = well.lowest_filled_from(height) {
        return Err(ProblemFault::FieldTooHigh { row });
    }
    match well.lowest_full() {
        Some(row) => Err(ProblemFault::FullRow { row }),
        None => Ok(()),
    }
}

impl Problem {
    /// Makes a problem of these parts if it is fit: the height is 1 to 8, no cell lies at or above it, no row is full,
    /// and, if the number of empty cells below the height is a multiple of four, at least a quarter of that number of
    /// pieces are at hand. The fault is the first of these that fails.
    pub fn new(
        well: Well,
        height: u8,
        pattern: Pattern,
        hold: Hold,
        held: Option<Piece>,
        drop_mode: DropMode,
        rules: Rules,
    ) -> Result<Problem, ProblemFault>
        ensures { let problem : Problem = record {
          well = well;
          height = height;
          pattern = pattern;
          hold = hold;
          held = held;
          drop_mode = drop_mode;
          rules = rules;
        } in
            MatchResult result (λ made. (made ≡ problem) × IsFit problem) (IsFirstFault problem) }
    {
        check_field(&well, height)?;
        let problem = Problem {
            well,
            height,
            pattern,
            hold,
            held,
            drop_mode,
            rules,
        };
        problem.check_pieces()?;
        Ok(problem)
    }

    /// How many pieces are at hand: those of a queue, and the one held at the start if it may be played.
    pub fn pieces_at_hand(&self) -> u8
        ensures { result ≡ pieces_at_hand self.now }
    {
        match self.hold.playable(self.held) {
            Some(_) => self.pattern.len() + 1,
            None => self.pattern.len(),
        }
    }

    /// Checks that a problem with a fit field has enough pieces at hand.
    fn check_pieces(&self) -> Result<(), ProblemFault>
        requires { IsFitField (filled self.now.well) self.now.height }
        ensures fit { OnOk result (IsFit self.now) }
        ensures fault { IfErr result (IsFirstFault self.now) }
    {
        let empties = self.well.empties_below(self.height);
        let have = self.pieces_at_hand();
        let need = empties / 4;
        if empties % 4 == 0 && have < need {
            return Err(ProblemFault::TooFewPieces { have, need });
        }
        Ok(())
    }
}
