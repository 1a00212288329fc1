// All tilings of a set of cells, found by a walk that lays one piece after the other.
ghost use Rattle.std.specs.Prelude.{◌≤◌, ◌<◌, ◌↔◌, IfSome, IsTrue, [], ◌∷◌};
ghost use Rattle.srs.specs.declared.placement.Placement.{Placement};
ghost use Rattle.srs.specs.Cells.{is_inside_of};
ghost use Rattle.prune.specs.Tiling.{supply_in};
ghost use Rattle.prune.specs.Laws.{with_one};
ghost use Rattle.empty_cells.specs.Empties.{empty_cells};
ghost use Rattle.empty_cells.specs.ShiftedCells.{shifted_cells};
ghost use Rattle.empty_cells.specs.Spans.{IsFirst};
ghost use Rattle.empty_cells.specs.SupplyWords.{supply_of};
ghost use Rattle.tiled_pieces.specs.RowOrders.{ListsOrdered};
ghost use Rattle.tiled_pieces.specs.RowBits.{ListsThose};
ghost use Rattle.tiled_pieces.specs.TilingLists.{ListsAll, ListsOnly, SomeHas, StandsInTiling, laid_placement};
ghost use Rattle.tiled_pieces.specs.Listings.{Adds, GoesOn, GoesOnWith, HasFirst, IsAny, StacksSome, StacksUp, TakesFirst};

use crate::cover::Cover;
use crate::dead::{Dead, is_dead};
use crate::list::TilingList;
use crate::listing::Listing;
use Span::{AllFour, First, FirstThree, FirstTwo, Second, SecondTwo, Third};
use empty_cells::{
    Empties, Shifted, Span, SupplyWord, allowed, forms_of, hash_of, lowest_row, without_row,
};
use fact_table::FactTable;
use srs::Piece;
use std::alloc::Global;
use std::mem;

/// How many questions a lister keeps.
const ROOM: usize = 32_768;

/// Lists all tilings, and keeps which questions have none.
#[derive(Drop)]
pub struct Lister {
    known: FactTable<Dead>,
    listing: Listing,
}

// The tilings with the lowest span in each of the rows that it may be in.
macro_rules! each_row {
    ($self:expr, $cover:expr, $cells:expr, $floor:expr, $span:expr, $rest:ident, $row:ident => $found:expr) => {{
        let mut rows = $cells.rows_with($span) & allowed($cover.y, $floor, $span);
        while rows > 0 {
            let $row = lowest_row(rows);
            let $rest = $cells.without_span($span, $row);
            $found;
            rows = without_row(rows, $row);
        }
    }};
}

// All these calls, one after the other.
macro_rules! all_of {
    ($($call:expr),+) => {{ $($call;)+ }};
}

// The tilings in which a piece takes a form.
macro_rules! lays {
    ($lister:expr, $cover:expr, $piece:expr, $cells:expr; $a:ident) => {
        $lister.stacks_one($cover, $piece, $cells, 0, $a)
    };
    ($lister:expr, $cover:expr, $piece:expr, $cells:expr; $a:ident, $b:ident) => {
        $lister.stacks_two($cover, $piece, $cells, 0, $a, $b)
    };
    ($lister:expr, $cover:expr, $piece:expr, $cells:expr; $a:ident, $b:ident, $c:ident) => {
        $lister.stacks_three($cover, $piece, $cells, 0, $a, $b, $c)
    };
    ($lister:expr, $cover:expr, $piece:expr, $cells:expr; $a:ident, $b:ident, $c:ident, $d:ident) => {
        $lister.stacks_four($cover, $piece, $cells, 0, $a, $b, $c, $d)
    };
}

impl Lister {
    /// A lister that knows nothing yet. If there is not enough memory for it, it keeps nothing.
    pub fn new(alloc: Global) -> Lister {
        Lister {
            known: FactTable::within_memory(alloc, ROOM),
            listing: Listing::new(alloc, 0, false),
        }
    }

    /// All tilings of the cells with at most as many pieces of each kind as the supply has. The supply's entries stand
    /// in the order of piece codes. `None` if there are more than `most` tilings, if one has more than `MOST_PIECES`
    /// pieces, or if there is not enough memory.
    pub fn tilings(
        &mut self,
        alloc: Global,
        cells: &Empties,
        supply: &[u8; 7],
        most: usize,
    ) -> Option<TilingList>
        ensures all { IfSome result (λ list.
            ListsAll (empty_cells cells.now) (supply_in supply.now) list.tilings.items) }
        ensures only { IfSome result (λ list.
            ListsOnly (empty_cells cells.now) (supply_in supply.now) list.tilings.items) }
        ensures exact { IfSome result (λ list. (m : Placement) → IsTrue (is_inside_of m)
            → SomeHas list.tilings.items (laid_placement m)
            ↔ StandsInTiling (empty_cells cells.now) (supply_in supply.now) m) }
    {
        self.list(alloc, cells, supply, most, false)
    }

    /// The same, but tilings may be left out if their rows cannot go one after the other so that each piece is put once
    /// the rows between its rows are gone, and before its own rows go.
    pub fn ordered_tilings(
        &mut self,
        alloc: Global,
        cells: &Empties,
        supply: &[u8; 7],
        most: usize,
    ) -> Option<TilingList>
        ensures all { IfSome result (λ list.
            ListsOrdered (empty_cells cells.now) (supply_in supply.now) list.tilings.items) }
        ensures only { IfSome result (λ list.
            ListsOnly (empty_cells cells.now) (supply_in supply.now) list.tilings.items) }
    {
        self.list(alloc, cells, supply, most, true)
    }

    /// All tilings, or those whose rows can go so.
    fn list(
        &mut self,
        alloc: Global,
        cells: &Empties,
        supply: &[u8; 7],
        most: usize,
        is_ordered: bool,
    ) -> Option<TilingList>
        ensures all { IfSome result (λ list.
            ListsThose is_ordered (empty_cells cells.now) (supply_in supply.now) list.tilings.items) }
        ensures only { IfSome result (λ list.
            ListsOnly (empty_cells cells.now) (supply_in supply.now) list.tilings.items) }
    {
        self.listing = Listing::new(alloc, most, is_ordered);
        self.search(&Shifted::new(cells), SupplyWord::new(supply));
        if self.listing.is_full {
            return None;
        }
        let tilings = mem::replace(&mut self.listing.tilings, Vec::new(alloc));
        Some(TilingList { tilings })
    }

    /// Adds all tilings that begin with the laid pieces and go on with these cells.
    #[cycle(walk)]
    fn search(&mut self, cells: &Shifted, supply: SupplyWord)
        ensures { Adds self.old.listing self.new.listing
            (GoesOn HasFirst (supply_of supply) (shifted_cells cells.now))
            (GoesOn IsAny (supply_of supply) (shifted_cells cells.now)) }
    {
        if self.listing.is_full {
            return;
        }
        let Some((counted, y)) = cells.from_first() else {
            self.listing.add();
            return;
        };
        if counted.is_refused(supply) {
            return;
        }
        if self.known.is_without_room() || counted.is_few() {
            self.covers(&counted, y, supply);
            return;
        }
        self.asks(&counted, y, supply);
    }

    /// The same for cells whose first one (the lowest of the leftmost column) is in this row of the column from which
    /// they are counted: if it isn't known that there is no tiling.
    #[cycle(walk)]
    #[inline(always)]
    fn asks(&mut self, cells: &Shifted, y: u8, supply: SupplyWord)
        requires { IsFirst (shifted_cells cells.now) cells.now.x y }
        ensures { Adds self.old.listing self.new.listing
            (GoesOn HasFirst (supply_of supply) (shifted_cells cells.now))
            (GoesOn IsAny (supply_of supply) (shifted_cells cells.now)) }
    {
        let counted = cells.counted();
        let order = self.listing.order;
        let hash = hash_of(&counted, supply) ^ order.mixed();
        if is_dead(&counted, supply, order, hash, &self.known) {
            return;
        }
        let before = self.listing.tilings.len();
        self.covers(cells, y, supply);
        if self.listing.is_none_since(before) {
            self.known.put(hash, Dead::new(counted, supply, order));
        }
    }

    /// The same for cells of which nothing is known.
    #[cycle(walk)]
    fn covers(&mut self, cells: &Shifted, y: u8, supply: SupplyWord)
        requires { IsFirst (shifted_cells cells.now) cells.now.x y }
        ensures { Adds self.old.listing self.new.listing
            (GoesOn HasFirst (supply_of supply) (shifted_cells cells.now))
            (GoesOn IsAny (supply_of supply) (shifted_cells cells.now)) }
    {
        self.takes(cells, y, Piece::I, supply);
        self.takes(cells, y, Piece::L, supply);
        self.takes(cells, y, Piece::O, supply);
        self.takes(cells, y, Piece::Z, supply);
        self.takes(cells, y, Piece::T, supply);
        self.takes(cells, y, Piece::J, supply);
        self.takes(cells, y, Piece::S, supply);
    }

    /// The same for the tilings in which a piece of this kind covers the first cell.
    #[cycle(walk)]
    #[inline(always)]
    fn takes(&mut self, cells: &Shifted, y: u8, piece: Piece, supply: SupplyWord)
        requires { IsFirst (shifted_cells cells.now) cells.now.x y }
        ensures { Adds self.old.listing self.new.listing
            (TakesFirst HasFirst (supply_of supply) (shifted_cells cells.now) cells.now.x y piece)
            (GoesOn IsAny (supply_of supply) (shifted_cells cells.now)) }
    {
        if supply.count_of(piece) == 0 {
            return;
        }
        let cover = Cover {
            cells: *cells,
            y,
            supply: supply.without_one(piece),
        };
        self.forms(&cover, piece);
    }

    /// The same for those in which this piece covers the first cell.
    #[cycle(walk)]
    fn forms(&mut self, cover: &Cover, piece: Piece)
        ensures { Adds self.old.listing self.new.listing (StacksSome HasFirst (supply_of cover.now.supply)
            (shifted_cells cover.now.cells) cover.now.cells.x cover.now.y piece)
            (GoesOn IsAny (with_one (supply_of cover.now.supply) piece) (shifted_cells cover.now.cells)) }
    {
        let cells = &cover.cells;
        match piece {
            Piece::I => forms_of!(I, all_of, lays, self, cover, Piece::I, cells),
            Piece::L => forms_of!(L, all_of, lays, self, cover, Piece::L, cells),
            Piece::O => forms_of!(O, all_of, lays, self, cover, Piece::O, cells),
            Piece::Z => forms_of!(Z, all_of, lays, self, cover, Piece::Z, cells),
            Piece::T => forms_of!(T, all_of, lays, self, cover, Piece::T, cells),
            Piece::J => forms_of!(J, all_of, lays, self, cover, Piece::J, cells),
            Piece::S => forms_of!(S, all_of, lays, self, cover, Piece::S, cells),
        }
    }

    /// The same for those in which one span is taken from these cells, in a row from `floor` on.
    #[cycle(walk)]
    #[inline(always)]
    fn stacks_one(&mut self, cover: &Cover, piece: Piece, cells: &Shifted, floor: u8, a: Span)
        requires { floor ≤ 8 }
        ensures { Adds self.old.listing self.new.listing
            (StacksUp HasFirst cover.now piece cells.now floor (a ∷ []))
            (StacksUp IsAny cover.now piece cells.now floor (a ∷ [])) }
    {
        each_row!(self, cover, cells, floor, a, rest, row => self.leaves(cover, piece, &rest))
    }

    /// The same for two spans, one above the other.
    #[cycle(walk)]
    #[inline(always)]
    fn stacks_two(
        &mut self,
        cover: &Cover,
        piece: Piece,
        cells: &Shifted,
        floor: u8,
        a: Span,
        b: Span,
    )
        requires { floor ≤ 8 }
        ensures { Adds self.old.listing self.new.listing
            (StacksUp HasFirst cover.now piece cells.now floor (a ∷ b ∷ []))
            (StacksUp IsAny cover.now piece cells.now floor (a ∷ b ∷ [])) }
    {
        each_row!(self, cover, cells, floor, a, rest, row => self.stacks_one(cover, piece, &rest, row + 1, b))
    }

    /// The same for three spans.
    #[cycle(walk)]
    #[inline(always)]
    fn stacks_three(
        &mut self,
        cover: &Cover,
        piece: Piece,
        cells: &Shifted,
        floor: u8,
        a: Span,
        b: Span,
        c: Span,
    )
        requires { floor ≤ 8 }
        ensures { Adds self.old.listing self.new.listing
            (StacksUp HasFirst cover.now piece cells.now floor (a ∷ b ∷ c ∷ []))
            (StacksUp IsAny cover.now piece cells.now floor (a ∷ b ∷ c ∷ [])) }
    {
        each_row!(self, cover, cells, floor, a, rest, row => self.stacks_two(cover, piece, &rest, row + 1, b, c))
    }

    /// The same for four spans.
    #[cycle(walk)]
    #[inline(always)]
    fn stacks_four(
        &mut self,
        cover: &Cover,
        piece: Piece,
        cells: &Shifted,
        floor: u8,
        a: Span,
        b: Span,
        c: Span,
        d: Span,
    )
        requires { floor ≤ 8 }
        ensures { Adds self.old.listing self.new.listing
            (StacksUp HasFirst cover.now piece cells.now floor (a ∷ b ∷ c ∷ d ∷ []))
            (StacksUp IsAny cover.now piece cells.now floor (a ∷ b ∷ c ∷ d ∷ [])) }
    {
        each_row!(self, cover, cells, floor, a, rest, row => self.stacks_three(cover, piece, &rest, row + 1, b, c, d))
    }

    /// The same for those in which the piece leaves these cells.
    #[cycle(walk)]
    #[inline(always)]
    fn leaves(&mut self, cover: &Cover, piece: Piece, rest: &Shifted)
        ensures { Adds self.old.listing self.new.listing
            (λ path found. GoesOnWith HasFirst (supply_of cover.now.supply) (shifted_cells cover.now.cells) piece
            path found (shifted_cells rest.now))
            (λ path found. GoesOnWith IsAny (supply_of cover.now.supply) (shifted_cells cover.now.cells) piece
            path found (shifted_cells rest.now)) }
    {
        if self.listing.path.is_full() {
            self.listing.is_full = true;
            return;
        }
        let taken = cover.cells.cells().without_cells(&rest.cells());
        let order = self.listing.order;
        let Some(after) = order.with_piece(&taken) else {
            return;
        };
        self.listing.order = after;
        self.listing.path.push(piece, taken);
        self.search(rest, cover.supply);
        self.listing.path.pop();
        self.listing.order = order;
    }
}
