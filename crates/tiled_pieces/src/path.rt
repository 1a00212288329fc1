// The pieces that a walk has laid.
ghost use Rattle.std.specs.Prelude.{ℕ, ◌≡◌, ◌≤◌, ◌<◌, ◌∷◌, ◌++◌, [], List};
ghost use Rattle.empty_cells.specs.Empties.{empty_cells};
ghost use Rattle.lane_board.specs.Field.{empty_field};
ghost use Rattle.srs.specs.declared.piece.Piece.TheVariants.{I};
ghost use Rattle.tiled_pieces.specs.TilingLists.{laid_at, most_pieces, LaidPiece};

use crate::listed::{ListedTiling, MOST_PIECES};
use empty_cells::Empties;
use srs::Piece;

/// The pieces that a walk has laid, at most `MOST_PIECES`.
#[derive(Clone, Copy)]
pub(crate) struct Path {
    pub(crate) tiling: ListedTiling,
    /// How many there are.
    pub(crate) count: usize,
    ghost few: { count ≤ most_pieces },
    ghost none: { (index : ℕ) → count ≤ index → index < most_pieces
        → laid_at tiling index ≡ record { piece = I; cells = empty_field } },
}

impl Path {
    ghost use Rattle.std.specs.Prelude.{false};
    ghost use Rattle.tiled_pieces.specs.Listings.{path_of};

    /// No piece.
    pub(crate) fn new() -> Path
        ensures { path_of result ≡ [] }
    {
        Path {
            tiling: ListedTiling {
                kinds: [Piece::I; MOST_PIECES],
                cells: [Empties::empty(); MOST_PIECES],
            },
            count: 0,
        }
    }

    /// Whether there is no room for another piece.
    #[inline(always)]
    pub(crate) fn is_full(&self) -> bool
        ensures { result ≡ false → self.now.count < MOST_PIECES }
    {
        MOST_PIECES <= self.count
    }

    /// Adds a piece.
    #[inline(always)]
    pub(crate) fn push(&mut self, piece: Piece, cells: Empties)
        requires { self.old.count < MOST_PIECES }
        ensures { path_of self.new ≡ path_of self.old ++ record { piece = piece; cells = empty_cells cells } ∷ [] }
    {
        self.tiling.kinds[self.count] = piece;
        self.tiling.cells[self.count] = cells;
        self.count += 1;
    }

    /// Takes the last piece away.
    #[inline(always)]
    pub(crate) fn pop(&mut self)
        ensures { (path : List LaidPiece) (last : LaidPiece) → path_of self.old ≡ path ++ last ∷ []
            → path_of self.new ≡ path }
    {
        if self.count == 0 {
            return;
        }
        self.count -= 1;
        self.tiling.kinds[self.count] = Piece::I;
        self.tiling.cells[self.count] = Empties::empty();
    }
}
