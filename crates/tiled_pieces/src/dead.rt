// Questions without a tiling.
ghost use Rattle.std.specs.Prelude.{IsTrue, ⊤};
ghost use Rattle.empty_cells.specs.Empties.{empty_cells};
ghost use Rattle.empty_cells.specs.SupplyWords.{supply_of};
ghost use Rattle.tiled_pieces.specs.RowBits.{Fills};

use crate::row_order::RowOrder;
use empty_cells::{Empties, SupplyWord};
use fact_table::{Entry, FactTable};
use std::alloc::Global;

/// A question, which is a set of cells, a supply and an order of rows, of which it may be known that there is no tiling
/// whose pieces keep to the order.
#[derive(Clone, Copy)]
pub(crate) struct Dead {
    cells: Empties,
    supply: SupplyWord,
    order: RowOrder,
    is_known: bool,
    ghost holds: { IsTrue is_known → Fills order (supply_of supply) (empty_cells cells) → ⊥ },
}

impl Dead {
    /// A question without a tiling.
    pub(crate) fn new(cells: Empties, supply: SupplyWord, order: RowOrder) -> Dead
        requires { Fills order (supply_of supply) (empty_cells cells) → ⊥ }
    {
        Dead {
            cells,
            supply,
            order,
            is_known: true,
        }
    }

    /// Whether this is known of the question of these cells, this supply and this order.
    #[inline(always)]
    fn is_of(&self, cells: &Empties, supply: SupplyWord, order: RowOrder) -> bool
        ensures { IsTrue result → Fills order (supply_of supply) (empty_cells cells.now) → ⊥ }
    {
        self.is_known
            && self.cells.is_equal(cells)
            && self.supply.is_equal(supply)
            && self.order.is_equal(order)
    }
}

impl Entry for Dead {
    ghost says_nothing = { λ _. ⊤ };

    fn nothing(_alloc: Global) -> Dead {
        Dead {
            cells: Empties::empty(),
            supply: SupplyWord::new(&[0; 7]),
            order: RowOrder::new(false),
            is_known: false,
        }
    }
}

/// Whether it is kept that the question with this hash has no tiling.
#[inline(always)]
pub(crate) fn is_dead(
    cells: &Empties,
    supply: SupplyWord,
    order: RowOrder,
    hash: u64,
    known: &FactTable<Dead>,
) -> bool
    ensures { IsTrue result → Fills order (supply_of supply) (empty_cells cells.now) → ⊥ }
{
    match known.entry(hash) {
        Some(dead) => dead.is_of(cells, supply, order),
        None => false,
    }
}
