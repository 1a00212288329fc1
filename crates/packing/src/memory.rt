// A memory of which placements leave a tiling.
ghost use Rattle.std.specs.Prelude.{◌≡◌, ◌≤◌, ◌||◌, IfSome, IsTrue, true, false, ⊤};
ghost use Rattle.srs.specs.declared.placement.Placement.{Placement};
ghost use Rattle.empty_cells.specs.Empties.{empty_cells};
ghost use Rattle.empty_cells.specs.HasTiling.{leaves_tiling};
ghost use Rattle.empty_cells.specs.PivotWords.{has_placement};
ghost use Rattle.empty_cells.specs.SupplyWords.{supply_of};

use empty_cells::{Empties, PivotWords, SupplyWord, hash_of};
use fact_table::{Entry, FactTable};
use pc_outside::NoMemory;
use srs::{Piece, Placement};
use std::alloc::Global;

/// How many sets of answers are remembered.
const ROOM: usize = 4096;

/// Which placements of a piece leave a tiling of a set of cells by a supply, as far as that was asked.
#[derive(Clone, Copy)]
pub struct PlaceAnswers {
    pub cells: Empties,
    pub supply: SupplyWord,
    pub piece: Piece,
    /// The placements that leave none.
    pub dead: PivotWords,
    /// The placements that leave one.
    pub live: PivotWords,
    ghost live_is_true: { (q : Placement) → q.piece ≡ piece → has_placement live q ≡ true
        → leaves_tiling (empty_cells cells) q (supply_of supply) ≡ true },
    ghost dead_is_true: { (q : Placement) → q.piece ≡ piece → has_placement dead q ≡ true
        → leaves_tiling (empty_cells cells) q (supply_of supply) ≡ false },
}

impl PlaceAnswers {
    /// No answers: nothing was asked yet.
    pub fn none(cells: &Empties, supply: SupplyWord, piece: Piece) -> PlaceAnswers
        ensures cells { result.cells ≡ cells.now }
        ensures supply { result.supply ≡ supply }
        ensures piece { result.piece ≡ piece }
    {
        PlaceAnswers {
            cells: *cells,
            supply,
            piece,
            dead: PivotWords::none(),
            live: PivotWords::none(),
        }
    }

    /// Whether these are about these cells, this supply and this piece.
    #[inline(always)]
    fn are_about(&self, cells: &Empties, supply: SupplyWord, piece: Piece) -> bool
        ensures cells { IsTrue result → empty_cells self.now.cells ≡ empty_cells cells.now }
        ensures supply { IsTrue result → self.now.supply ≡ supply }
        ensures piece { IsTrue result → self.now.piece ≡ piece }
    {
        self.cells.is_equal(cells)
            && self.supply.is_equal(supply)
            && self.piece.code() == piece.code()
    }

    /// Adds the answer for one more placement.
    #[inline(always)]
    pub fn add(&mut self, placement: &Placement, answer: bool)
        requires column { placement.now.x ≤ 9 }
        requires row { placement.now.y ≤ 7 }
        requires piece { placement.now.piece ≡ self.old.piece }
        requires answer { answer ≡ leaves_tiling
            (empty_cells self.old.cells) placement.now (supply_of self.old.supply) }
        ensures cells { self.new.cells ≡ self.old.cells }
        ensures supply { self.new.supply ≡ self.old.supply }
        ensures piece { self.new.piece ≡ self.old.piece }
        ensures added { IsTrue (has_placement self.new.dead placement.now || has_placement self.new.live placement.now) }
        ensures kept { (q : Placement) → IsTrue (has_placement self.old.dead q || has_placement self.old.live q)
            → IsTrue (has_placement self.new.dead q || has_placement self.new.live q) }
    {
        if answer {
            self.live.add(placement);
        } else {
            self.dead.add(placement);
        }
    }
}

impl Entry for PlaceAnswers {
    ghost says_nothing = { λ _. ⊤ };

    fn nothing(_alloc: Global) -> PlaceAnswers {
        PlaceAnswers::none(&Empties::empty(), SupplyWord::new(&[0; 7]), Piece::I)
    }
}

/// The hash of a question about a piece. For the same cells and the same supply the seven kinds have different slots:
/// the first seven multiples of 583 differ, and each is less than 4,096.
#[inline(always)]
pub fn place_hash(cells: &Empties, supply: SupplyWord, piece: Piece) -> u64 {
    hash_of(cells, supply) ^ 583 * u64::from(piece.code())
}

/// Remembers which placements leave a tiling, by the cells, the supply and the piece. Later answers evict earlier ones.
#[derive(Drop)]
pub struct PlaceMemory {
    sets: FactTable<PlaceAnswers>,
}

impl PlaceMemory {
    /// An empty memory. `NoMemory` if there is not enough memory.
    pub fn new(alloc: Global) -> Result<PlaceMemory, NoMemory> {
        let sets = FactTable::new(alloc, ROOM)?;
        Ok(PlaceMemory { sets })
    }

    /// The answers in the slot of a hash, if they are about these cells, this supply and this piece. A caller keeps
    /// answers under the hash of their question (`place_hash`), and looks for them under it.
    #[inline(always)]
    pub fn known(
        &self,
        hash: u64,
        cells: &Empties,
        supply: SupplyWord,
        piece: Piece,
    ) -> Option<&PlaceAnswers>
        ensures cells { IfSome result (λ known. empty_cells known.now.cells ≡ empty_cells cells.now) }
        ensures supply { IfSome result (λ known. known.now.supply ≡ supply) }
        ensures piece { IfSome result (λ known. known.now.piece ≡ piece) }
    {
        let known = self.sets.entry(hash)?;
        if known.are_about(cells, supply, piece) {
            return Some(known);
        }
        None
    }

    /// Keeps answers in the slot of a hash, in the place of those before.
    #[inline(always)]
    pub fn keep(&mut self, hash: u64, answers: &PlaceAnswers) {
        self.sets.put(hash, *answers);
    }
}
