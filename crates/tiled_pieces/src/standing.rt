// The pieces of one kind in the tilings of some lists.
ghost use Rattle.std.specs.Prelude.{◌≡◌, ◌<◌};

use crate::list::TilingList;
use crate::listed::{ListedTiling, MOST_PIECES};
use empty_cells::Empties;
use pc_outside::NoMemory;
use srs::Piece;
use std::alloc::Global;

/// A piece that stands in some tiling of a list: its cells, and the number of the list.
#[derive(Clone, Copy)]
pub struct StandingPiece {
    pub(crate) cells: Empties,
    pub(crate) list: u8,
    ghost small: { list < 64 },
}

/// The pieces of one kind that stand in the tilings of some lists. To look one up takes less time than to go through
/// the tilings.
#[derive(Drop)]
pub struct StandingPieces {
    pub piece: Piece,
    pub pieces: Vec<StandingPiece>,
}

/// For how many pieces there is room at first.
const ROOM: usize = 16;

impl StandingPieces {
    ghost use Rattle.std.specs.Prelude.{◌↔◌, ℕ, IfOk, IsTrue, OnOk, [], true};
    ghost use Rattle.empty_cells.specs.Empties.{empty_cells};
    ghost use Rattle.lane_board.specs.Lanes.{has_bit};
    ghost use Rattle.tiled_pieces.specs.Standing.{GrowsBy, Stands};
    ghost use Rattle.tiled_pieces.specs.TilingLists.{HasPiece, SomeHas};

    /// No lists yet, and so no pieces of this kind.
    pub fn new(alloc: Global, piece: Piece) -> Result<StandingPieces, NoMemory>
        ensures kind { IfOk result (λ standing. standing.piece ≡ piece) }
        ensures none { IfOk result (λ standing. standing.pieces.items ≡ []) }
    {
        let pieces = Vec::with_capacity(alloc, ROOM)?;
        Ok(StandingPieces { piece, pieces })
    }

    /// Adds the pieces of the kind in the tilings of a list, under a number.
    pub fn add(&mut self, list: &TilingList, number: u8) -> Result<(), NoMemory>
        requires { number < 64 }
        ensures added { OnOk result (GrowsBy self.old.pieces.items self.new.pieces.items number
            (λ cells. SomeHas list.now.tilings.items (record { piece = self.old.piece; cells = cells }))) }
        ensures kind { self.new.piece ≡ self.old.piece }
    {
        let start = self.pieces.len();
        for tiling in &list.tilings {
            self.add_tiling(start, tiling, number)?;
        }
        Ok(())
    }

    /// The same for one tiling of the list, whose other pieces stand from the index `start` on.
    fn add_tiling(
        &mut self,
        start: usize,
        tiling: &ListedTiling,
        number: u8,
    ) -> Result<(), NoMemory>
        requires { number < 64 }
        ensures added { OnOk result (GrowsBy self.old.pieces.items self.new.pieces.items number
            (λ cells. HasPiece tiling.now (record { piece = self.old.piece; cells = cells }))) }
        ensures kind { self.new.piece ≡ self.old.piece }
    {
        for index in 0..MOST_PIECES {
            if let Some(cells) = tiling.cells_at(index, self.piece) {
                self.add_piece(start, cells, number)?;
            }
        }
        Ok(())
    }

    /// The same for one piece. It is not added twice.
    #[inline(always)]
    fn add_piece(&mut self, start: usize, cells: Empties, number: u8) -> Result<(), NoMemory>
        requires { number < 64 }
        ensures added { OnOk result (GrowsBy self.old.pieces.items self.new.pieces.items number
            (λ field. field ≡ empty_cells cells)) }
        ensures kind { self.new.piece ≡ self.old.piece }
    {
        if self.has_from(start, &cells, number) {
            return Ok(());
        }
        self.pieces.push(StandingPiece {
            cells,
            list: number,
        })?;
        Ok(())
    }

    /// Whether a piece with these cells is there for a list, from an index on.
    #[inline(always)]
    fn has_from(&self, start: usize, cells: &Empties, number: u8) -> bool
        ensures { IsTrue result → Stands self.now.pieces.items (empty_cells cells.now) number }
    {
        for index in start..self.pieces.len() {
            let piece = &self.pieces[index];
            if piece.list == number && piece.cells.is_equal(cells) {
                return true;
            }
        }
        false
    }

    /// The numbers of the lists in whose tilings a piece of the kind has these cells: bit `k` stands for number `k`.
    #[inline(always)]
    pub fn lists_with(&self, cells: &Empties) -> u64
        ensures { (number : ℕ) → number < 64
            → (has_bit result number ≡ true) ↔ Stands self.now.pieces.items (empty_cells cells.now) number }
    {
        let mut lists = 0;
        for piece in &self.pieces {
            if piece.cells.is_equal(cells) {
                lists |= 1 << piece.list;
            }
        }
        lists
    }
}
