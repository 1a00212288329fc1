// A small bot: the first placement of the least solution, and its keys.
ghost use Rattle.std.specs.Prelude.{◌≡◌, Some, IfOk};
ghost use Rattle.srs.specs.Rules.{table_of};
ghost use Rattle.well.specs.Well.{filled};
ghost use Rattle.moves.specs.Place.{IsPlace};
ghost use Rattle.key_path.specs.LeastKeyWord.{IsLeastKeyWord};
ghost use Rattle.problem.specs.declared.problem.Problem.{Problem};
ghost use Rattle.problem.specs.Problem.{IsFit};
ghost use Rattle.calling.specs.FirstMove.{IsBotAnswer, IsBotProblem, IsFirstMove};

use crate::solutions::least_solution;
use hold_queue::Hold;
use key_path::laws::places_have_key_words;
use key_path::{Finder, KeyWord};
use moves::DropMode;
use pc_outside::{NoMemory, Refused};
use problem::{Problem, ProblemFault};
use queue_pattern::{Pattern, Queue};
use srs::{Placement, Rules};
use std::alloc::Global;
use well::Well;

/// A placement, and the keys that lead to it from the spawn.
#[derive(Drop)]
pub struct KeyedPlacement {
    pub placement: Placement,
    pub keys: KeyWord,
}

/// A placement that legal keys reach in the field of a problem, with its least keys.
fn with_keys(finder: &mut Finder, problem: &Problem, placement: Placement) -> KeyedPlacement
    requires { IsPlace (table_of problem.now.rules) (filled problem.now.well) problem.now.drop_mode placement }
    ensures placement { result.placement ≡ placement }
    ensures keys { IsLeastKeyWord (table_of problem.now.rules) (filled problem.now.well) problem.now.drop_mode
        placement (Some result.keys.items) }
{
    places_have_key_words();
    match finder.find(&problem.well, &problem.rules, &placement, problem.drop_mode) {
        Some(keys) => KeyedPlacement { placement, keys },
        None => unreachable!(),
    }
}

/// The first placement of the least solution of a fit problem, with the least keys that lead to it. `None` if there is
/// no solution. The only refusal is that memory runs out.
pub fn first_move(alloc: Global, problem: Problem) -> Result<Option<KeyedPlacement>, NoMemory>
    requires { IsFit problem }
    ensures { IfOk result (IsFirstMove problem) }
{
    let Some(solution) = least_solution(alloc, problem)? else {
        return Ok(None);
    };
    let mut finder = Finder::new(alloc)?;
    let first = solution.as_slice()[0];
    Ok(Some(with_keys(&mut finder, &problem, first)))
}

/// The first move for a field, a height and one queue, with hold and nothing held, soft drop, and the offsets of the
/// Super Rotation System. A problem that is not fit is refused by its first fault, and a fit one only if memory
/// runs out.
pub fn first_move_of(
    alloc: Global,
    well: Well,
    height: u8,
    queue: &Queue,
) -> Result<Option<KeyedPlacement>, Refused<ProblemFault>>
    ensures { (problem : Problem) × IsBotProblem well height queue.now.items problem × IsBotAnswer problem result }
{
    let pattern = Pattern::from_queue(queue);
    let (drop_mode, rules) = (DropMode::Soft, Rules::srs());
    let problem = match Problem::new(well, height, pattern, Hold::Allowed, None, drop_mode, rules) {
        Ok(problem) => problem,
        Err(fault) => return Err(Refused::Fault(fault)),
    };
    Ok(first_move(alloc, problem)?)
}
