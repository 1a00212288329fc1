// Decided questions: a set of cells and a supply, with the answer.
ghost use Rattle.std.specs.Prelude.{◌≡◌, ◌↔◌, IsTrue, IfSome, ⊤};
ghost use Rattle.prune.specs.Tiling.{Tiling};
ghost use Rattle.empty_cells.specs.Empties.{all_but, empty_cells};
ghost use Rattle.empty_cells.specs.HasTiling.{has_tiling};
ghost use Rattle.empty_cells.specs.SupplyWords.{supply_of};

use empty_cells::{Empties, SupplyWord};
use fact_table::{Entry, FactTable};
use std::alloc::Global;

/// The answer whether a set of cells has a tiling by a supply. It is always a true one.
#[derive(Clone, Copy)]
pub(crate) struct Decided {
    cells: Empties,
    supply: SupplyWord,
    answer: bool,
    ghost holds: { answer ≡ has_tiling (all_but (empty_cells cells)) 8 (supply_of supply) },
}

impl Decided {
    /// A question with its answer.
    pub(crate) fn new(cells: Empties, supply: SupplyWord, answer: bool) -> Decided
        requires { IsTrue answer ↔ Tiling (all_but (empty_cells cells)) 8 (supply_of supply) }
    {
        Decided {
            cells,
            supply,
            answer,
        }
    }

    /// The answer, if it is the one to this question.
    pub(crate) fn answer_to(&self, cells: &Empties, supply: SupplyWord) -> Option<bool>
        ensures { IfSome result
            (λ answer. IsTrue answer ↔ Tiling (all_but (empty_cells cells.now)) 8 (supply_of supply)) }
    {
        if self.cells.is_equal(cells) && self.supply.is_equal(supply) {
            return Some(self.answer);
        }
        None
    }
}

impl Entry for Decided {
    ghost says_nothing = { λ _. ⊤ };

    // (the empty set, which needs no pieces)
    fn nothing(_alloc: Global) -> Decided {
        Decided::new(Empties::empty(), SupplyWord::new(&[0; 7]), true)
    }
}

/// The answer to a question with this hash, if it is kept.
#[inline(always)]
pub(crate) fn recalled(
    cells: &Empties,
    supply: SupplyWord,
    hash: u64,
    known: &FactTable<Decided>,
) -> Option<bool>
    ensures { IfSome result
        (λ answer. IsTrue answer ↔ Tiling (all_but (empty_cells cells.now)) 8 (supply_of supply)) }
{
    known.entry(hash)?.answer_to(cells, supply)
}
