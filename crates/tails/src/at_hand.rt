// The pieces at hand of many tails.
ghost use Rattle.std.specs.Prelude.{◌≡◌, ℕ, IfOk, true};
ghost use Rattle.hands.specs.Numbers.{has_number};
ghost use Rattle.tails.specs.Tails.{AreHandsAt, AreTails};

use crate::tree::TailTree;
use pc_outside::NoMemory;
use std::alloc::Global;

impl TailTree {
    /// The numbers of the pieces at hand of each of some tails.
    pub fn hands(&self, alloc: Global, tails: &[u64]) -> Result<Vec<u64>, NoMemory>
        requires { AreTails self.now (has_number tails.now) }
        ensures { IfOk result (λ hands. AreHandsAt self.now tails.now hands.items) }
    {
        let mut hands = Vec::with_capacity(alloc, tails.len())?;
        for tail in tails {
            hands.push(self.hand(*tail))?;
        }
        Ok(hands)
    }
}
