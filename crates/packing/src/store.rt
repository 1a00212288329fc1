// A store of decided questions.
ghost use Rattle.std.specs.Prelude.{◌↔◌, IsTrue};
ghost use Rattle.prune.specs.Tiling.{supply_in, Tiling};
ghost use Rattle.empty_cells.specs.Empties.{all_but, empty_cells};
ghost use Rattle.empty_cells.specs.SupplyWords.{supply_of};

use crate::decided::Decided;
use crate::search::decide;
use empty_cells::{Empties, SupplyWord};
use fact_table::FactTable;
use pc_outside::NoMemory;
use std::alloc::Global;

/// How many questions a store keeps.
const ROOM: usize = 16_384;

/// Keeps the answers to questions that it was asked, each in one slot. A later one evicts an earlier one.
#[derive(Drop)]
pub struct TilingStore {
    decided: FactTable<Decided>,
}

impl TilingStore {
    /// An empty store. `NoMemory` if there is not enough memory.
    pub fn new(alloc: Global) -> Result<TilingStore, NoMemory> {
        let decided = FactTable::new(alloc, ROOM)?;
        Ok(TilingStore { decided })
    }

    /// The same, but a store that keeps nothing if there is not enough memory.
    pub fn within_memory(alloc: Global) -> TilingStore {
        TilingStore {
            decided: FactTable::within_memory(alloc, ROOM),
        }
    }

    /// Whether the cells are the disjoint union of generalized pieces, with at most as many of each kind as the supply
    /// has. The supply's entries stand in the order of piece codes. A question whose answer is kept is not searched
    /// again.
    pub fn has_tiling(&mut self, cells: &Empties, supply: &[u8; 7]) -> bool
        ensures { IsTrue result ↔ Tiling (all_but (empty_cells cells.now)) 8 (supply_in supply.now) }
    {
        self.has_tiling_near(cells, 0, supply)
    }

    /// The same, by a search that begins at the side nearer to a column.
    pub fn has_tiling_near(&mut self, cells: &Empties, column: u8, supply: &[u8; 7]) -> bool
        ensures { IsTrue result ↔ Tiling (all_but (empty_cells cells.now)) 8 (supply_in supply.now) }
    {
        if cells.has_uneven_part() {
            return false;
        }
        self.has_tiling_by(cells, column, SupplyWord::new(supply))
    }

    /// The same for a supply in one word.
    pub fn has_tiling_by(&mut self, cells: &Empties, column: u8, supply: SupplyWord) -> bool
        ensures { IsTrue result ↔ Tiling (all_but (empty_cells cells.now)) 8 (supply_of supply) }
    {
        if !cells.lies_right(column) {
            return decide(cells, supply, &mut self.decided);
        }
        decide(&cells.mirrored(), supply.mirrored(), &mut self.decided)
    }
}
