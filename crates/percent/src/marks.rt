// The ordered tilings of a position's empty cells by the available pieces: those whose rows can go one after the other.
// Placements fill the cells in no other tiling. So where a piece stands in none of these, no perfect clear follows.
// Tilings that serve none of the hands asked about may be left out.
ghost use Rattle.std.specs.Prelude.{◌≡◌, ◌≤◌, ◌<◌, ℕ, IsTrue, IfOk, IfSome, IsSomeAnd, All, true, false, length, slice_index};
ghost use Rattle.srs.specs.declared.placement.Placement.{Placement};
ghost use Rattle.well.specs.Well.{filled};
ghost use Rattle.well.specs.Free.{is_free};
ghost use Rattle.well.specs.LockLaws.{is_below};
ghost use Rattle.empty_cells.specs.Empties.{empty_cells};
ghost use Rattle.empty_cells.specs.SentCells.{sent_cells};
ghost use Rattle.lane_board.specs.Lanes.{has_bit};
ghost use Rattle.hands.specs.Numbers.{has_number};
ghost use Rattle.tails.specs.declared.tree.TailTree.{TailTree};
ghost use Rattle.tails.specs.TailSets.{has};
ghost use Rattle.tails.specs.Tails.{AreTails};
ghost use Rattle.percent.specs.BuiltHands.{IsHardSrs};
ghost use Rattle.percent.specs.Children.{IsChild};
ghost use Rattle.percent.specs.Counts.{codes_with};
ghost use Rattle.percent.specs.GoodTails.{is_good_tail};
ghost use Rattle.percent.specs.LeftOut.{LeavesOutBad};
ghost use Rattle.percent.specs.Marks.{HasMarkAt, IsMarkOf, IsStanding, IsTrueMark};
ghost use Rattle.percent.specs.Spread.{IsSpread};

use crate::fitting::{Counts, FitMemory, are_same, counts_of, fitting, supply_from};
use crate::game::Game;
use crate::position::{Child, Position};
use empty_cells::Empties;
use lane_board::words::has_bit;
use pc_outside::NoMemory;
use srs::{Piece, Placement};
use std::alloc::Global;
use tails::{TailSet, TailTree};
use tiled_pieces::{Lister, TilingList};

/// The most tilings that are listed at a position.
const MOST: usize = 131_072;

/// Ordered tilings by pieces with these counts.
#[derive(Drop)]
pub struct Mark {
    pub counts: Counts,
    pub tilings: TilingList,
}

/// A position, and ordered tilings of its empty cells by some pieces. The tilings lie in the field at which they were
/// listed, where rows that are removed since then still stand.
#[derive(Drop)]
pub struct Marks {
    pub game: Game,
    /// Whether nothing may lie above a placement.
    pub drops: bool,
    pub position: Position,
    /// The empty cells in that field.
    pub cells: Empties,
    /// The row of that field in which each row of the position stands.
    pub rows: [u8; 8],
    pub known: Vec<Mark>,
    ghost spread: { IsSpread (filled position.well) position.rows rows (empty_cells cells) },
    ghost hard: { drops ≡ true → IsHardSrs game },
}

/// What is asked about a piece that is placed: rests of tails, their numbers and their hands, and for each the index of
/// the mark of its pieces and this one, if there is one.
#[derive(Drop)]
pub struct Asked {
    pub piece: Piece,
    /// How many placements are to come after it.
    pub left: u8,
    pub rests: TailSet,
    pub tails: Vec<u64>,
    pub hands: Vec<u64>,
    pub indexes: Vec<Option<u8>>,
    ghost few: { left ≤ 20 },
    ghost listed: { (rest : ℕ) → has_number tails.items rest ≡ has rests rest },
    ghost size: { length hands.items ≡ length tails.items },
}

/// The counts of the first `pieces` pieces of a hand and of one more piece.
fn counts_with(hand: u64, pieces: u8, piece: Piece) -> Counts
    requires { pieces ≤ 21 }
    ensures size { length result ≡ 8 }
    ensures each { (code : ℕ) → code < 8 → slice_index result code ≡ codes_with piece pieces hand code }
{
    let mut counts = counts_of(hand, pieces);
    let code = usize::from(piece.code());
    counts[code] = counts[code].saturating_add(1);
    counts
}

/// The mark of pieces with these counts: all their ordered tilings of the cells, if there are at most `most` of them.
fn listed(
    alloc: Global,
    lister: &mut Lister,
    cells: &Empties,
    counts: Counts,
    most: usize,
) -> Option<Mark>
    ensures { IfSome result (IsTrueMark (empty_cells cells.now)) }
{
    let tilings = lister.ordered_tilings(alloc, cells, &supply_from(&counts), most)?;
    Some(Mark { counts, tilings })
}

/// Whether the mark at an index is of pieces with these counts, and among the first 64.
fn is_mark_of(known: &[Mark], index: usize, counts: &Counts) -> bool
    ensures { IsTrue result → HasMarkAt known.now index counts.now }
{
    if known.len().min(64) <= index {
        return false;
    }
    let mark = &known[index];
    are_same(&mark.counts, counts)
}

/// The index of the mark of pieces with these counts, if it is among the first 64. One index is looked at first.
pub fn index_of(known: &[Mark], counts: &Counts, likely: Option<u8>) -> Option<u8>
    ensures { IfSome result (λ index. HasMarkAt known.now index counts.now) }
{
    if let Some(index) = likely {
        if is_mark_of(known, index as usize, counts) {
            return Some(index);
        }
    }
    for index in 0..known.len().min(64) {
        if is_mark_of(known, index, counts) {
            return Some(index as u8);
        }
    }
    None
}

/// Whether a placement may stand in a tiling of the mark at an index, given in which marks it does. If there is no mark,
/// it may.
fn may_stand(index: Option<u8>, standing: u64) -> bool
    ensures { result ≡ false → IsSomeAnd index (λ known_index. (known_index < 64)
        × (has_bit standing known_index ≡ false)) }
{
    let Some(known_index) = index else {
        return true;
    };
    if 63 < known_index {
        return true;
    }
    has_bit(standing, u16::from(known_index))
}

impl Marks {
    ghost use Rattle.std.specs.Prelude.{[]};
    ghost use Rattle.percent.specs.ListedHands.{HasHands, HasIndexes, IsAbout, IsAskedAt};

    /// Nothing is known yet about the empty cells of a position.
    pub fn new(alloc: Global, game: &Game, position: &Position) -> Marks
        ensures game { result.game ≡ game.now }
        ensures position { result.position ≡ position.now }
        ensures none { result.known.items ≡ [] }
    {
        Marks {
            game: *game,
            drops: game.drops(),
            position: *position,
            cells: Empties::below(&position.well, position.rows),
            rows: [0, 1, 2, 3, 4, 5, 6, 7],
            known: Vec::new(alloc),
        }
    }

    /// Whether nothing is known.
    pub fn is_empty(&self) -> bool {
        self.known.is_empty()
    }

    /// The cells of a placement, where its rows stand.
    #[inline(always)]
    pub fn taken(&self, placement: &Placement) -> Empties
        requires free { IsTrue (is_free (filled self.now.position.well) placement.now) }
        requires below { IsTrue (is_below self.now.position.rows placement.now) }
        ensures { empty_cells result ≡ sent_cells self.now.rows placement.now }
    {
        Empties::sent(placement, &self.rows)
    }

    /// How many tilings are listed.
    fn count_tilings(&self) -> usize {
        let mut count = 0usize;
        for mark in &self.known {
            count = count.saturating_add(mark.tilings.tilings.len());
        }
        count
    }

    /// Lists all ordered tilings by pieces with these counts, and says whether they could be listed.
    pub fn list(&mut self, alloc: Global, lister: &mut Lister, counts: Counts) -> bool
        requires { All (IsTrueMark (empty_cells self.old.cells)) self.old.known.items }
        ensures game { self.new.game ≡ self.old.game }
        ensures position { self.new.position ≡ self.old.position }
        ensures are_true { All (IsTrueMark (empty_cells self.new.cells)) self.new.known.items }
    {
        let most = MOST.saturating_sub(self.count_tilings());
        match listed(alloc, lister, &self.cells, counts, most) {
            Some(mark) => self.known.push(mark).is_ok(),
            None => false,
        }
    }

    /// The index of the mark of the pieces of a rest and one more, if there is one. One index is looked at first.
    pub fn index_with(&self, rest: u64, left: u8, piece: Piece, likely: Option<u8>) -> Option<u8>
        requires { left ≤ 20 }
        ensures { IfSome result (λ index. IsMarkOf self.now.known.items piece left rest index) }
    {
        if self.known.is_empty() {
            return None;
        }
        index_of(
            self.known.as_slice(),
            &counts_with(rest, left + 1, piece),
            likely,
        )
    }

    /// These rests, with the indexes of their marks when a piece is placed first. Rests side by side often have the
    /// same pieces.
    pub fn asked(
        &self,
        alloc: Global,
        tree: &TailTree,
        piece: Piece,
        left: u8,
        rests: TailSet,
    ) -> Result<Asked, NoMemory>
        requires few { left ≤ 20 }
        requires tails { AreTails tree.now (has rests) }
        ensures about { IfOk result (IsAbout piece left) }
        ensures rests { IfOk result (λ asked. asked.rests ≡ rests) }
        ensures hands { IfOk result (HasHands tree.now) }
        ensures indexes { IfOk result (HasIndexes self.now) }
    {
        let tails = rests.numbers(alloc)?;
        let hands = tree.hands(alloc, tails.as_slice())?;
        let mut indexes = Vec::with_capacity(alloc, hands.len())?;
        let mut index = None;
        for hand in &hands {
            index = self.index_with(*hand, left, piece, index);
            indexes.push(index)?;
        }
        Ok(Asked {
            piece,
            left,
            rests,
            tails,
            hands,
            indexes,
        })
    }

    /// The index of the mark of a rest: the one that is known, if the rest stands there among those asked about.
    fn index_for(&self, asked: &Asked, at: usize, rest: u64) -> Option<u8>
        requires { HasIndexes self.now asked.now }
        ensures { IfSome result (IsMarkOf self.now.known.items asked.now.piece asked.now.left rest) }
    {
        if at < asked.hands.len() && asked.hands[at] == rest {
            return asked.indexes[at];
        }
        self.index_with(rest, asked.left, asked.piece, None)
    }

    /// Some of the rests asked about, with their indexes.
    pub fn asked_of(
        &self,
        alloc: Global,
        tree: &TailTree,
        asked: &Asked,
        rests: TailSet,
    ) -> Result<Asked, NoMemory>
        requires indexes { HasIndexes self.now asked.now }
        requires tails { AreTails tree.now (has rests) }
        ensures about { IfOk result (IsAbout asked.now.piece asked.now.left) }
        ensures rests { IfOk result (λ asked. asked.rests ≡ rests) }
        ensures hands { IfOk result (HasHands tree.now) }
        ensures indexes { IfOk result (HasIndexes self.now) }
    {
        let tails = rests.numbers(alloc)?;
        let hands = tree.hands(alloc, tails.as_slice())?;
        let mut indexes = Vec::with_capacity(alloc, hands.len())?;
        let mut next = 0;
        for index in 0..hands.len() {
            while next < asked.tails.len() && asked.tails[next] != tails[index] {
                next += 1;
            }
            indexes.push(self.index_for(asked, next, hands[index]))?;
        }
        Ok(Asked {
            piece: asked.piece,
            left: asked.left,
            rests,
            tails,
            hands,
            indexes,
        })
    }

    /// Those of the rests asked about with which a placement may stand in a tiling. The others are not good after it.
    fn likely(&self, alloc: Global, child: &Child, asked: &Asked) -> Result<TailSet, NoMemory>
        requires asked { IsAskedAt self.now asked.now }
        requires child { IsChild self.now.game self.now.position asked.now.piece child.now }
        requires standing { IsStanding self.now.known.items self.now.rows child.now.placement child.now.standing }
        ensures { IfOk result (λ likely. (tree : TailTree) → HasHands tree asked.now
            → LeavesOutBad (is_good_tail tree self.now.game (filled child.now.position.well)
            child.now.position.rows asked.now.left) (has asked.now.rests) (has likely)) }
    {
        let rests = asked.tails.as_slice();
        let indexes = asked.indexes.as_slice();
        let mut likely = TailSet::with_room_of(alloc, &asked.rests)?;
        for index in 0..rests.len() {
            if may_stand(indexes[index], child.standing) {
                likely.insert(rests[index])?;
            }
        }
        Ok(likely)
    }

    /// Those of the rests asked about that may fit after a placement. The others are not good after it.
    pub fn fitting_after(
        &self,
        alloc: Global,
        fits: &mut FitMemory,
        child: &Child,
        asked: &Asked,
    ) -> Result<TailSet, NoMemory>
        requires asked { IsAskedAt self.now asked.now }
        requires child { IsChild self.now.game self.now.position asked.now.piece child.now }
        requires standing { IsStanding self.now.known.items self.now.rows child.now.placement child.now.standing }
        ensures { IfOk result (λ likely. (tree : TailTree) → HasHands tree asked.now
            → LeavesOutBad (is_good_tail tree self.now.game (filled child.now.position.well)
            child.now.position.rows asked.now.left) (has asked.now.rests) (has likely)) }
    {
        if self.is_empty() && asked.left > 0 {
            return fitting(
                alloc,
                fits,
                &child.position,
                asked.left,
                asked.tails.as_slice(),
                asked.hands.as_slice(),
            );
        }
        self.likely(alloc, child, asked)
    }
}
