// The positions that a piece leads to.
ghost use Rattle.std.specs.Prelude.{◌≡◌, ◌+◌, ◌-◌, ℕ, IsTrue, IfOk, IfSome, All, true, false};
ghost use Rattle.well.specs.Well.{filled};
ghost use Rattle.well.specs.Lock.{locked, rows_removed};
ghost use Rattle.well.specs.LockLaws.{is_below};
ghost use Rattle.lane_board.specs.Field.{difference};
ghost use Rattle.srs.specs.Rules.{table_of};
ghost use Rattle.moves.specs.Place.{IsPlace};
ghost use Rattle.prune.specs.Tiling.{Supply, Tiling};
ghost use Rattle.empty_cells.specs.Empties.{all_but, empty_cells};
ghost use Rattle.empty_cells.specs.SentCells.{sent_cells};
ghost use Rattle.hands.specs.Numbers.{has_number};
ghost use Rattle.percent.specs.Children.{IsChild, is_good_at};
ghost use Rattle.percent.specs.GoodHands.{is_good, is_good_after};
ghost use Rattle.percent.specs.ListedHands.{AreRestsAt, HasIndexes, IsAskedAt};
ghost use Rattle.percent.specs.Marks.{IsStanding};
ghost use Rattle.percent.specs.Standing.{AreStanding};
ghost use Rattle.percent.specs.Wanted.{IsWanted};

use crate::kept::Kept;
use crate::marks::{Asked, Marks};
use crate::order::rank;
use crate::position::Child;
use empty_cells::Empties;
use lane_board::words::{bits_without, has_bit};
use pc_outside::NoMemory;
use reach::Steps;
use srs::{Piece, Placement};
use std::alloc::Global;
use std::sync::ledger::Ledger;
use tiled_pieces::StandingPieces;

/// The pieces of one kind in the tilings of the wanted marks, under their indexes.
#[derive(Drop)]
struct WantedPieces {
    listed: StandingPieces,
    /// The other marks, in whose tilings each piece may stand. Bit `k` stands for mark `k`.
    others: u64,
}

impl Marks {
    /// The marks of the rests asked about: bit `k` stands for mark `k`. `None` if a rest has no mark.
    fn wanted(&self, asked: &Asked) -> Option<u64>
        requires { HasIndexes self.now asked.now }
        ensures { IfSome result (λ wanted. (rest : ℕ) → has_number asked.now.hands.items rest ≡ true
            → IsWanted self.now.known.items asked.now.piece asked.now.left rest wanted) }
    {
        let mut wanted = 0u64;
        for index in &asked.indexes {
            let Some(known_index) = *index else {
                return None;
            };
            if 63 < known_index {
                return None;
            }
            wanted |= 1 << known_index;
        }
        Some(wanted)
    }

    /// The pieces of a kind in the tilings of the wanted marks.
    fn listed_pieces(
        &self,
        alloc: Global,
        piece: Piece,
        wanted: u64,
    ) -> Result<WantedPieces, NoMemory>
        ensures kind { IfOk result (λ pieces. pieces.listed.piece ≡ piece) }
        ensures each { IfOk result (AreStanding self.now.known.items) }
    {
        let mut listed = StandingPieces::new(alloc, piece)?;
        for index in 0..self.known.len().min(64) {
            if has_bit(wanted, index as u16) {
                listed.add(&self.known[index].tilings, index as u8)?;
            }
        }
        Ok(WantedPieces {
            listed,
            others: bits_without(u64::MAX, wanted),
        })
    }

    /// The same. If there is not enough memory for them, each piece may stand in the tilings of each mark.
    fn wanted_pieces(&self, alloc: Global, piece: Piece, wanted: u64) -> WantedPieces
        ensures kind { result.listed.piece ≡ piece }
        ensures each { AreStanding self.now.known.items result }
    {
        match self.listed_pieces(alloc, piece, wanted) {
            Ok(pieces) => pieces,
            Err(_) => WantedPieces {
                listed: StandingPieces {
                    piece,
                    pieces: Vec::new(alloc),
                },
                others: u64::MAX,
            },
        }
    }

    /// In which of the marks' tilings a placement with these cells may stand. Bit `k` stands for mark `k`.
    #[inline(always)]
    fn standing(&self, placement: &Placement, taken: &Empties, pieces: &WantedPieces) -> u64
        requires taken { empty_cells taken.now ≡ sent_cells self.now.rows placement.now }
        requires kind { pieces.now.listed.piece ≡ placement.now.piece }
        requires each { AreStanding self.now.known.items pieces.now }
        ensures { IsStanding self.now.known.items self.now.rows placement.now result }
    {
        pieces.listed.lists_with(taken) | pieces.others
    }

    /// Whether walls show that no pieces can fill what is left without these cells.
    fn leaves_uneven_part(&self, taken: &Empties) -> bool
        ensures { IsTrue result → (supply : Supply) → Tiling (all_but (difference (empty_cells self.now.cells)
            (empty_cells taken.now))) 8 supply → ⊥ }
    {
        self.cells.without_cells(taken).has_uneven_part()
    }

    /// Whether it may be worth entering a placement with these cells. If it is not, none of the rests is good after it.
    fn is_worth(
        &self,
        placement: &Placement,
        taken: &Empties,
        standing: u64,
        asked: &Asked,
        wanted: Option<u64>,
    ) -> bool
        requires place { IsPlace (table_of self.now.game.rules) (filled self.now.position.well)
            self.now.game.drop_mode placement.now }
        requires below { IsTrue (is_below self.now.position.rows placement.now) }
        requires rests { AreRestsAt self.now placement.now.piece asked.now.left (has_number asked.now.hands.items) }
        requires taken { empty_cells taken.now ≡ sent_cells self.now.rows placement.now }
        requires standing { IsStanding self.now.known.items self.now.rows placement.now standing }
        requires wanted { IfSome wanted (λ wanted. (rest : ℕ) → has_number asked.now.hands.items rest ≡ true
            → IsWanted self.now.known.items placement.now.piece asked.now.left rest wanted) }
        ensures { result ≡ false → (rest : ℕ) → has_number asked.now.hands.items rest ≡ true
            → is_good self.now.game (locked (filled self.now.position.well) placement.now)
            (self.now.position.rows - rows_removed (filled self.now.position.well) placement.now)
            asked.now.left rest ≡ false }
    {
        let Some(wanted) = wanted else {
            return !self.leaves_uneven_part(taken);
        };
        standing & wanted != 0
    }

    /// The positions after the places of a piece that lie below the rows left, but for some at which none of the rests
    /// is good. Counts one flood.
    pub fn children<L: Ledger>(
        &self,
        alloc: Global,
        kept: &Kept,
        asked: &Asked,
        steps: &mut Steps<L>,
    ) -> Result<Vec<Child>, NoMemory>
        requires game { kept.now.game ≡ self.now.game }
        requires asked { IsAskedAt self.now asked.now }
        ensures after { IfOk result (λ v. All (IsChild self.now.game self.now.position asked.now.piece) v.items) }
        ensures standing { IfOk result (λ v. All (λ child. IsStanding self.now.known.items self.now.rows
            child.placement child.standing) v.items) }
        ensures good { IfOk result (λ v. (rest : ℕ) → has_number asked.now.hands.items rest ≡ true
            → is_good_at kept.now.game v.items asked.now.left rest
            ≡ is_good_after kept.now.game (filled self.now.position.well) self.now.position.rows asked.now.piece
            asked.now.left rest) }
        ensures counted { steps.new ≡ steps.old + 1 }
    {
        let position = &self.position;
        let wanted = self.wanted(asked);
        let mut places = kept.places_below(position, asked.piece, steps);
        let pieces = self.wanted_pieces(alloc, asked.piece, wanted.unwrap_or(u64::MAX));
        let mut children = Vec::new(alloc);
        while let Some(placement) = places.take_least() {
            let taken = self.taken(&placement);
            let standing = self.standing(&placement, &taken, &pieces);
            if self.is_worth(&placement, &taken, standing, asked, wanted) {
                children.push(Child {
                    placement,
                    position: position.after(&placement),
                    standing,
                })?;
            }
        }
        children.sort_unstable_by_key(rank);
        Ok(children)
    }
}
