// Lists of tilings.
ghost use Rattle.std.specs.Prelude.{◌↔◌, IsTrue, IfOk};
ghost use Rattle.std.specs.List.{Contains};
ghost use Rattle.empty_cells.specs.Empties.{empty_cells};
ghost use Rattle.tiled_pieces.specs.declared.listed.ListedTiling.{ListedTiling};

use crate::listed::ListedTiling;
use empty_cells::Empties;
use pc_outside::NoMemory;
use srs::Piece;
use std::alloc::Global;

/// Some tilings.
#[derive(Drop)]
pub struct TilingList {
    pub tilings: Vec<ListedTiling>,
}

impl TilingList {
    ghost use Rattle.tiled_pieces.specs.TilingLists.{HasPiece, SomeHas};

    /// Whether some tiling has a piece of this kind with these cells.
    pub fn has(&self, piece: Piece, cells: &Empties) -> bool
        ensures { IsTrue result
            ↔ SomeHas self.now.tilings.items (record { piece = piece; cells = empty_cells cells.now }) }
    {
        for tiling in &self.tilings {
            if tiling.has(piece, cells) {
                return true;
            }
        }
        false
    }

    /// The tilings that have such a piece.
    pub fn with(&self, alloc: Global, piece: Piece, cells: &Empties) -> Result<TilingList, NoMemory>
        ensures { IfOk result (λ list. (tiling : ListedTiling) → Contains list.tilings.items tiling
            ↔ (Contains self.now.tilings.items tiling
            × HasPiece tiling (record { piece = piece; cells = empty_cells cells.now }))) }
    {
        let mut tilings = Vec::new(alloc);
        for tiling in &self.tilings {
            if tiling.has(piece, cells) {
                tilings.push(*tiling)?;
            }
        }
        Ok(TilingList { tilings })
    }
}
