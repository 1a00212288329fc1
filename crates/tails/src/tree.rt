// A pattern as a tree of states.
ghost use Rattle.std.specs.Prelude.{◌≡◌, ◌≤◌, length};
ghost use Rattle.queue_pattern.specs.Pattern.{elements_of};
ghost use Rattle.queue_pattern.specs.Queues.{queue_len, queues};
ghost use Rattle.tails.specs.Lists.{AreListed};
ghost use Rattle.tails.specs.States.{state_at, tails_of};
ghost use Rattle.tails.specs.Trees.{AreStates};

use crate::lists::Lists;
use crate::states::{State, first_of, states_of};
use hold_queue::Hold;
use pc_outside::NoMemory;
use queue_pattern::Pattern;
use std::alloc::Global;

/// A pattern as a tree of states.
#[derive(Drop)]
pub struct TailTree {
    pub pattern: Pattern,
    pub hold: Hold,
    pub(crate) states: Vec<State>,
    /// The number of the state at which nothing is drawn.
    pub(crate) first: u16,
    pub(crate) lists: Lists,
    ghost short: { queue_len (elements_of pattern) ≤ 21 },
    ghost are_states: { AreStates (elements_of pattern) states.items },
    ghost first_tails: { tails_of (elements_of pattern) (state_at states.items first) ≡ queues (elements_of pattern) },
    ghost first_count: { (state_at states.items first).count ≡ length (queues (elements_of pattern)) },
    ghost listed: { AreListed (elements_of pattern) states.items lists },
}

impl TailTree {
    ghost use Rattle.std.specs.Prelude.{IfOk};

    /// The tree of a pattern whose queues have at most 21 pieces. The only refusal is that memory runs out.
    pub fn new(alloc: Global, pattern: &Pattern, hold: Hold) -> Result<TailTree, NoMemory>
        requires { queue_len (elements_of pattern.now) ≤ 21 }
        ensures pattern { IfOk result (λ tree. tree.pattern ≡ pattern.now) }
        ensures hold { IfOk result (λ tree. tree.hold ≡ hold) }
    {
        let states = states_of(alloc, pattern)?;
        let lists = Lists::new(alloc, states.as_slice(), pattern.elements())?;
        Ok(TailTree {
            pattern: *pattern,
            hold,
            states,
            first: first_of(pattern, 0),
            lists,
        })
    }
}
