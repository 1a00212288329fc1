// What a search knows of tilings.
ghost use Rattle.std.specs.Prelude.{◌≡◌, ◌≤◌, ◌||◌, Contains, [], true, false, IfOk, IfSome, IsTrue};
ghost use Rattle.lane_board.specs.Words.{cells_of_words};
ghost use Rattle.srs.specs.declared.placement.Placement.{Placement};
ghost use Rattle.srs.specs.Placements.{placements_of};
ghost use Rattle.srs.specs.Rotation.{rotation_index};
ghost use Rattle.well.specs.Well.{filled};
ghost use Rattle.place_sets.specs.LowPlaces.{holds, piece_of};
ghost use Rattle.prune.specs.Tiling.{supply_in, Tiling};
ghost use Rattle.empty_cells.specs.Empties.{empty_cells};
ghost use Rattle.empty_cells.specs.HasTiling.{has_tiling, leaves_tiling};
ghost use Rattle.empty_cells.specs.PivotWords.{has_placement};
ghost use Rattle.empty_cells.specs.SupplyWords.{supply_of};
ghost use Rattle.dead_memo.specs.Memo.{kept};
ghost use Rattle.enumerate.specs.Settled.{IsSettled};

use dead_memo::DeadMemo;
use empty_cells::{Empties, SupplyWord};
use packing::{PlaceAnswers, PlaceMemory, TilingStore, place_hash};
use pc_outside::NoMemory;
use prune::cheap_no;
use reach::LowPlaces;
use srs::{Piece, Placement};
use std::alloc::Global;
use well::Well;

/// How many questions without a tiling a search keeps.
const DEAD: usize = 65_536;

/// Where answers about the placements of a piece are looked for, and whether some are there.
#[derive(Clone, Copy)]
pub struct Found {
    hash: u64,
    is_known: bool,
}

impl Found {
    /// Answers that aren't looked for.
    #[inline(always)]
    pub fn nothing() -> Found {
        Found {
            hash: 0,
            is_known: false,
        }
    }
}

/// What a search knows of tilings.
#[derive(Drop)]
pub struct Tilings {
    /// Answers of recent questions.
    decided: TilingStore,
    /// Which placements leave a tiling, for recent questions.
    left: PlaceMemory,
    /// Questions that have no tiling.
    pub dead: DeadMemo,
    /// Whether memory to keep such a question has run out.
    out_of_memory: bool,
}

impl Tilings {
    /// Nothing is known yet. `NoMemory` if there is not enough memory.
    pub fn new(alloc: Global) -> Result<Tilings, NoMemory>
        ensures { IfOk result (λ tilings. kept tilings.dead ≡ []) }
    {
        let decided = TilingStore::new(alloc)?;
        let left = PlaceMemory::new(alloc)?;
        let dead = DeadMemo::new(alloc, DEAD)?;
        Ok(Tilings {
            decided,
            left,
            dead,
            out_of_memory: false,
        })
    }

    /// Whether the empty cells of the rows that are left have a tiling by the supply. If not, the question is kept, as
    /// far as memory allows.
    pub fn has_tiling(&mut self, well: &Well, rows_left: u8, supply: &[u8; 7]) -> bool
        requires { rows_left ≤ 8 }
        ensures answer { result ≡ has_tiling (filled well.now) rows_left (supply_in supply.now) }
        ensures settled { result ≡ false → IsSettled (filled well.now) rows_left supply.now
            (kept self.new.dead) self.new.out_of_memory }
    {
        if cheap_no(well, rows_left, supply) {
            return false;
        }
        if self.dead.is_dead(well, rows_left, supply) {
            return false;
        }
        if self
            .decided
            .has_tiling(&Empties::below(well, rows_left), supply)
        {
            return true;
        }
        self.note(well, rows_left, supply);
        false
    }

    /// Keeps a question that has no tiling, as far as memory allows.
    fn note(&mut self, well: &Well, rows_left: u8, supply: &[u8; 7])
        requires low { rows_left ≤ 8 }
        requires dead { Tiling (filled well.now) rows_left (supply_in supply.now) → ⊥ }
        ensures { IsSettled (filled well.now) rows_left supply.now (kept self.new.dead) self.new.out_of_memory }
    {
        match self.dead.note_dead(well, rows_left, supply) {
            Ok(()) => {}
            Err(_) => self.out_of_memory = true,
        }
    }

    /// Whether a set of cells without those of a placement has a tiling by the supply. The search begins at the side
    /// nearer to the placement.
    pub fn leaves_tiling(
        &mut self,
        cells: &Empties,
        placement: &Placement,
        supply: SupplyWord,
    ) -> bool
        requires column { placement.now.x ≤ 9 }
        requires row { placement.now.y ≤ 31 }
        ensures { result ≡ leaves_tiling (empty_cells cells.now) placement.now (supply_of supply) }
    {
        self.decided
            .has_tiling_by(&cells.without(placement), placement.x, supply)
    }

    /// Adds the answers for some places of a piece, of which nothing is known yet.
    fn answer(&mut self, answers: &mut PlaceAnswers, places: LowPlaces)
        requires listed { (q : Placement) → IsTrue (holds places q) → Contains (placements_of (piece_of places)) q }
        requires inside { (q : Placement) → IsTrue (holds places q)
            → (q.piece ≡ answers.old.piece) × (q.x ≤ 9) × (q.y ≤ 7) }
        ensures cells { answers.new.cells ≡ answers.old.cells }
        ensures supply { answers.new.supply ≡ answers.old.supply }
        ensures piece { answers.new.piece ≡ answers.old.piece }
        ensures answered { (q : Placement) → IsTrue (holds places q)
            → IsTrue (has_placement answers.new.dead q || has_placement answers.new.live q) }
        ensures kept { (q : Placement) → IsTrue (has_placement answers.old.dead q || has_placement answers.old.live q)
            → IsTrue (has_placement answers.new.dead q || has_placement answers.new.live q) }
    {
        let mut open = places;
        while let Some(placement) = open.take_least() {
            let answer = self.leaves_tiling(&answers.cells, &placement, answers.supply);
            answers.add(&placement, answer);
        }
    }

    /// Adds the answers for some places of a piece, keeps them all, and returns the pivots of placements that leave no
    /// tiling.
    fn completed(
        &mut self,
        found: &Found,
        answers: &mut PlaceAnswers,
        places: LowPlaces,
    ) -> [u64; 8]
        requires listed { (q : Placement) → IsTrue (holds places q) → Contains (placements_of (piece_of places)) q }
        requires inside { (q : Placement) → IsTrue (holds places q)
            → (q.piece ≡ answers.old.piece) × (q.x ≤ 9) × (q.y ≤ 7) }
        ensures dead { (q : Placement) → q.piece ≡ answers.old.piece
            → cells_of_words result (rotation_index q.rotation) q.x q.y ≡ true
            → leaves_tiling (empty_cells answers.old.cells) q (supply_of answers.old.supply) ≡ false }
        ensures live { (q : Placement) → IsTrue (holds places q)
            → cells_of_words result (rotation_index q.rotation) q.x q.y ≡ false
            → leaves_tiling (empty_cells answers.old.cells) q (supply_of answers.old.supply) ≡ true }
        ensures kept { (q : Placement) → q.piece ≡ answers.old.piece
            → IsTrue (has_placement answers.old.dead q || has_placement answers.old.live q)
            → cells_of_words result (rotation_index q.rotation) q.x q.y ≡ false
            → leaves_tiling (empty_cells answers.old.cells) q (supply_of answers.old.supply) ≡ true }
    {
        self.answer(answers, places);
        self.left.keep(found.hash, answers);
        answers.dead.words()
    }

    /// Looks for answers about the placements of a piece. They are read only once their places are known: memory that
    /// isn't at hand by then takes a good part of the time of a flood.
    #[inline(always)]
    pub fn find(&self, cells: &Empties, supply: SupplyWord, piece: Piece) -> Found {
        let hash = place_hash(cells, supply, piece);
        Found {
            hash,
            is_known: self.left.known(hash, cells, supply, piece).is_some(),
        }
    }

    /// The answers that were found about the placements of a piece.
    #[inline(always)]
    fn answers(
        &self,
        found: &Found,
        cells: &Empties,
        supply: SupplyWord,
        piece: Piece,
    ) -> Option<&PlaceAnswers>
        ensures cells { IfSome result (λ known. empty_cells known.now.cells ≡ empty_cells cells.now) }
        ensures supply { IfSome result (λ known. known.now.supply ≡ supply) }
        ensures piece { IfSome result (λ known. known.now.piece ≡ piece) }
    {
        if !found.is_known {
            return None;
        }
        self.left.known(found.hash, cells, supply, piece)
    }

    /// The pivots in rows 0 to 7 of placements of a piece that leave no tiling of a set of cells by the supply: two words
    /// for each rotation, four rows in each word, and sixteen bits for each row. Among them is each of the places that
    /// leaves none.
    #[inline(always)]
    #[tactic(auto, using(srs::proofs::CallerLemmas::and_first))]
    pub fn dead_pivots(
        &mut self,
        cells: &Empties,
        supply: SupplyWord,
        piece: Piece,
        found: &Found,
        places: &LowPlaces,
    ) -> [u64; 8]
        requires listed { (q : Placement) → IsTrue (holds places.now q)
            → Contains (placements_of (piece_of places.now)) q }
        requires inside { (q : Placement) → IsTrue (holds places.now q)
            → (q.piece ≡ piece) × (q.x ≤ 9) × (q.y ≤ 7) }
        ensures dead { (q : Placement) → q.piece ≡ piece
            → cells_of_words result (rotation_index q.rotation) q.x q.y ≡ true
            → leaves_tiling (empty_cells cells.now) q (supply_of supply) ≡ false }
        ensures live { (q : Placement) → IsTrue (holds places.now q)
            → cells_of_words result (rotation_index q.rotation) q.x q.y ≡ false
            → leaves_tiling (empty_cells cells.now) q (supply_of supply) ≡ true }
    {
        let Some(known) = self.answers(found, cells, supply, piece) else {
            let mut none = PlaceAnswers::none(cells, supply, piece);
            return self.completed(found, &mut none, *places);
        };
        let mut open = *places;
        open.leave_out(&known.dead.words());
        open.leave_out(&known.live.words());
        if open.is_empty() {
            return known.dead.words();
        }
        let mut answers = *known;
        self.completed(found, &mut answers, open)
    }
}
