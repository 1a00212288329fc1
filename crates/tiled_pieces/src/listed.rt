// A tiling in a list.
ghost use Rattle.std.specs.Prelude.{◌≡◌, ◌↔◌, ◌<◌, IsTrue, MatchOption};
ghost use Rattle.empty_cells.specs.Empties.{empty_cells};

use empty_cells::Empties;
use srs::Piece;

/// The most pieces of a listed tiling.
pub const MOST_PIECES: usize = 9;

/// A tiling: the kind and the cells of each of its pieces. The slots past the last piece have no cells.
#[derive(Clone, Copy)]
pub struct ListedTiling {
    pub(crate) kinds: [Piece; MOST_PIECES],
    pub(crate) cells: [Empties; MOST_PIECES],
}

impl ListedTiling {
    ghost use Rattle.tiled_pieces.specs.TilingLists.{HasPiece, laid_at};

    /// Whether a piece of this kind has these cells.
    #[inline(always)]
    pub fn has(&self, piece: Piece, cells: &Empties) -> bool
        ensures { IsTrue result ↔ HasPiece self.now (record { piece = piece; cells = empty_cells cells.now }) }
    {
        for index in 0..MOST_PIECES {
            if self.has_at(index, piece, cells) {
                return true;
            }
        }
        false
    }

    /// The piece at this index: its kind and its cells.
    #[inline(always)]
    pub fn piece_at(&self, index: usize) -> (Piece, Empties)
        requires { index < MOST_PIECES }
        ensures { laid_at self.now index ≡ record { piece = result.0; cells = empty_cells result.1 } }
    {
        (self.kinds[index], self.cells[index])
    }

    /// The cells of the piece at this index. `None` exactly if it is of another kind.
    #[inline(always)]
    pub fn cells_at(&self, index: usize, piece: Piece) -> Option<Empties>
        requires { index < MOST_PIECES }
        ensures { MatchOption result ((laid_at self.now index).piece ≡ piece → ⊥)
            (λ cells. laid_at self.now index ≡ record { piece = piece; cells = empty_cells cells }) }
    {
        if self.kinds[index].code() != piece.code() {
            return None;
        }
        Some(self.cells[index])
    }

    /// Whether the piece at this index is of this kind and has these cells.
    #[inline(always)]
    fn has_at(&self, index: usize, piece: Piece, cells: &Empties) -> bool
        requires { index < MOST_PIECES }
        ensures { IsTrue result
            ↔ (laid_at self.now index ≡ record { piece = piece; cells = empty_cells cells.now }) }
    {
        self.kinds[index].code() == piece.code() && self.cells[index].is_equal(cells)
    }
}
