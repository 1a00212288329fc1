// The search for a tiling: some piece must cover the lowest cell of the leftmost column.
ghost use Rattle.std.specs.Prelude.{◌≡◌, ◌↔◌, ◌≤◌, [], ◌∷◌, IsTrue, true};
ghost use Rattle.srs.specs.declared.piece.Piece.TheVariants.{I, L, O, Z, T, J, S};
ghost use Rattle.prune.specs.Tiling.{supply_in, Tiling};
ghost use Rattle.empty_cells.specs.Empties.{empty_cells, all_but};
ghost use Rattle.empty_cells.specs.Spans.{has_first, IsFirst};
ghost use Rattle.empty_cells.specs.Stacks.{StacksOver, StacksPiece, TakesPiece};
ghost use Rattle.empty_cells.specs.SupplyWords.{supply_of};

use crate::decided::{Decided, recalled};
use crate::forms::{any_of, tries};
use Span::{AllFour, First, FirstThree, FirstTwo, Second, SecondTwo, Third};
use empty_cells::{
    Empties, Span, SupplyWord, allowed, forms_of, has_row, hash_of, lowest_row, without_row,
};
use fact_table::FactTable;
use srs::Piece;

// Whether the lowest span can take an allowed row so that the rest holds of the cells that are left.
macro_rules! some_row {
    ($cells:expr, $y:expr, $floor:expr, $span:expr, $rest:ident, $row:ident => $others:expr) => {{
        let mut rows = $cells.rows_with(0, $span) & allowed($y, $floor, $span);
        while rows > 0 {
            let $row = lowest_row(rows);
            let $rest = $cells.without_span(0, $span, $row);
            if $others {
                return true;
            }
            rows = without_row(rows, $row);
        }
        false
    }};
}

/// Whether the cells are the disjoint union of generalized pieces, with at most as many of each kind as the supply
/// has. The supply's entries stand in the order of piece codes.
pub fn has_tiling(cells: &Empties, supply: &[u8; 7]) -> bool
    ensures { IsTrue result ↔ Tiling (all_but (empty_cells cells.now)) 8 (supply_in supply.now) }
{
    if cells.has_uneven_part() {
        return false;
    }
    let mut known = FactTable::without_room();
    decide(cells, SupplyWord::new(supply), &mut known)
}

/// The same. It uses the answers in `known`, and adds its own.
#[cycle(search)]
pub(crate) fn decide(cells: &Empties, supply: SupplyWord, known: &mut FactTable<Decided>) -> bool
    ensures { IsTrue result ↔ Tiling (all_but (empty_cells cells.now)) 8 (supply_of supply) }
{
    let Some((x, y)) = cells.first() else {
        return true;
    };
    recall(&cells.from_column(x), y, supply, known)
}

/// The same for a set that has cells in column 0; `y` is the row of the lowest of them.
#[cycle(search)]
#[inline(always)]
fn recall(cells: &Empties, y: u8, supply: SupplyWord, known: &mut FactTable<Decided>) -> bool
    requires { IsFirst (empty_cells cells.now) 0 y }
    ensures { IsTrue result ↔ Tiling (all_but (empty_cells cells.now)) 8 (supply_of supply) }
{
    if cells.has_uneven_start() {
        return false;
    }
    if known.is_without_room() || cells.is_few() {
        return covers(cells, y, supply, known);
    }
    if cells.has_wrong_parity(supply) {
        return false;
    }
    let hash = hash_of(cells, supply);
    if let Some(answer) = recalled(cells, supply, hash, known) {
        return answer;
    }
    let answer = covers(cells, y, supply, known);
    known.put(hash, Decided::new(*cells, supply, answer));
    answer
}

/// Whether some piece of the supply can cover the first cell so that the others fill what is left.
#[cycle(search)]
fn covers(cells: &Empties, y: u8, supply: SupplyWord, known: &mut FactTable<Decided>) -> bool
    requires { IsFirst (empty_cells cells.now) 0 y }
    ensures { IsTrue result ↔ Tiling (all_but (empty_cells cells.now)) 8 (supply_of supply) }
{
    any_of!(
        takes(cells, y, Piece::O, supply, known),
        takes(cells, y, Piece::S, supply, known),
        takes(cells, y, Piece::Z, supply, known),
        takes(cells, y, Piece::I, supply, known),
        takes(cells, y, Piece::T, supply, known),
        takes(cells, y, Piece::L, supply, known),
        takes(cells, y, Piece::J, supply, known)
    )
}

/// Whether the supply has a piece of this kind that can cover the first cell so that the others fill what is left.
#[cycle(search)]
#[inline(always)]
fn takes(
    cells: &Empties,
    y: u8,
    piece: Piece,
    supply: SupplyWord,
    known: &mut FactTable<Decided>,
) -> bool
    requires { y ≤ 7 }
    ensures { IsTrue result
        ↔ TakesPiece (supply_of supply) (empty_cells cells.now) 0 y piece }
{
    if supply.count_of(piece) == 0 {
        return false;
    }
    let left = supply.without_one(piece);
    stacks_piece(cells, y, piece, left, known)
}

/// Whether a piece of this kind can cover the first cell so that the supply fills what is left.
#[cycle(search)]
#[inline(always)]
fn stacks_piece(
    cells: &Empties,
    y: u8,
    piece: Piece,
    supply: SupplyWord,
    known: &mut FactTable<Decided>,
) -> bool
    requires { y ≤ 7 }
    ensures { IsTrue result
        ↔ StacksPiece (supply_of supply) (empty_cells cells.now) 0 y piece }
{
    match piece {
        Piece::I => stacks_i(cells, y, supply, known),
        Piece::L => stacks_l(cells, y, supply, known),
        Piece::O => stacks_o(cells, y, supply, known),
        Piece::Z => stacks_z(cells, y, supply, known),
        Piece::T => stacks_t(cells, y, supply, known),
        Piece::J => stacks_j(cells, y, supply, known),
        Piece::S => stacks_s(cells, y, supply, known),
    }
}

/// Whether an I can cover the first cell so that the supply fills what is left.
#[cycle(search)]
fn stacks_i(cells: &Empties, y: u8, supply: SupplyWord, known: &mut FactTable<Decided>) -> bool
    requires { y ≤ 7 }
    ensures { IsTrue result
        ↔ StacksPiece (supply_of supply) (empty_cells cells.now) 0 y I }
{
    forms_of!(I, any_of, tries, cells, y, supply, known)
}

/// Whether an L can cover the first cell so that the supply fills what is left.
#[cycle(search)]
fn stacks_l(cells: &Empties, y: u8, supply: SupplyWord, known: &mut FactTable<Decided>) -> bool
    requires { y ≤ 7 }
    ensures { IsTrue result
        ↔ StacksPiece (supply_of supply) (empty_cells cells.now) 0 y L }
{
    forms_of!(L, any_of, tries, cells, y, supply, known)
}

/// Whether an O can cover the first cell so that the supply fills what is left.
#[cycle(search)]
fn stacks_o(cells: &Empties, y: u8, supply: SupplyWord, known: &mut FactTable<Decided>) -> bool
    requires { y ≤ 7 }
    ensures { IsTrue result
        ↔ StacksPiece (supply_of supply) (empty_cells cells.now) 0 y O }
{
    forms_of!(O, any_of, tries, cells, y, supply, known)
}

/// Whether a Z can cover the first cell so that the supply fills what is left.
#[cycle(search)]
fn stacks_z(cells: &Empties, y: u8, supply: SupplyWord, known: &mut FactTable<Decided>) -> bool
    requires { y ≤ 7 }
    ensures { IsTrue result
        ↔ StacksPiece (supply_of supply) (empty_cells cells.now) 0 y Z }
{
    forms_of!(Z, any_of, tries, cells, y, supply, known)
}

/// Whether a T can cover the first cell so that the supply fills what is left.
#[cycle(search)]
fn stacks_t(cells: &Empties, y: u8, supply: SupplyWord, known: &mut FactTable<Decided>) -> bool
    requires { y ≤ 7 }
    ensures { IsTrue result
        ↔ StacksPiece (supply_of supply) (empty_cells cells.now) 0 y T }
{
    forms_of!(T, any_of, tries, cells, y, supply, known)
}

/// Whether a J can cover the first cell so that the supply fills what is left.
#[cycle(search)]
fn stacks_j(cells: &Empties, y: u8, supply: SupplyWord, known: &mut FactTable<Decided>) -> bool
    requires { y ≤ 7 }
    ensures { IsTrue result
        ↔ StacksPiece (supply_of supply) (empty_cells cells.now) 0 y J }
{
    forms_of!(J, any_of, tries, cells, y, supply, known)
}

/// Whether an S can cover the first cell so that the supply fills what is left.
#[cycle(search)]
fn stacks_s(cells: &Empties, y: u8, supply: SupplyWord, known: &mut FactTable<Decided>) -> bool
    requires { y ≤ 7 }
    ensures { IsTrue result
        ↔ StacksPiece (supply_of supply) (empty_cells cells.now) 0 y S }
{
    forms_of!(S, any_of, tries, cells, y, supply, known)
}

/// Whether a span in a row from `floor` on can cover the first cell so that the supply fills what is left.
#[cycle(search)]
#[inline(always)]
fn stacks_one(
    cells: &Empties,
    y: u8,
    floor: u8,
    a: Span,
    supply: SupplyWord,
    known: &mut FactTable<Decided>,
) -> bool
    requires row { y ≤ 7 }
    requires start { floor ≤ 8 }
    ensures { IsTrue result
        ↔ StacksOver (supply_of supply) (empty_cells cells.now) 0 y floor (a ∷ []) }
{
    some_row!(cells, y, floor, a, rest, row => decide(&rest, supply, known))
}

/// The same for two spans, one above the other.
#[cycle(search)]
#[inline(always)]
fn stacks_two(
    cells: &Empties,
    y: u8,
    floor: u8,
    a: Span,
    b: Span,
    supply: SupplyWord,
    known: &mut FactTable<Decided>,
) -> bool
    requires row { y ≤ 7 }
    requires start { floor ≤ 8 }
    ensures { IsTrue result
        ↔ StacksOver (supply_of supply) (empty_cells cells.now) 0 y floor (a ∷ b ∷ []) }
{
    some_row!(cells, y, floor, a, rest, row => stacks_one(&rest, y, row + 1, b, supply, known))
}

/// The same for three spans, one above the other.
#[cycle(search)]
#[inline(always)]
fn stacks_three(
    cells: &Empties,
    y: u8,
    floor: u8,
    a: Span,
    b: Span,
    c: Span,
    supply: SupplyWord,
    known: &mut FactTable<Decided>,
) -> bool
    requires row { y ≤ 7 }
    requires start { floor ≤ 8 }
    ensures { IsTrue result
        ↔ StacksOver (supply_of supply) (empty_cells cells.now) 0 y floor (a ∷ b ∷ c ∷ []) }
{
    some_row!(cells, y, floor, a, rest, row => stacks_two(&rest, y, row + 1, b, c, supply, known))
}

/// Whether a span with the first column can cover the first cell, in its row, so that the supply fills what is
/// left.
#[cycle(search)]
#[inline(always)]
fn first_one(
    cells: &Empties,
    y: u8,
    a: Span,
    supply: SupplyWord,
    known: &mut FactTable<Decided>,
) -> bool
    requires row { y ≤ 7 }
    requires first { has_first a ≡ true }
    ensures { IsTrue result
        ↔ StacksOver (supply_of supply) (empty_cells cells.now) 0 y 0 (a ∷ []) }
{
    if !has_row(cells.rows_with(0, a), y) {
        return false;
    }
    let rest = cells.without_span(0, a, y);
    decide(&rest, supply, known)
}

/// The same for such a span and one above it.
#[cycle(search)]
#[inline(always)]
fn first_two(
    cells: &Empties,
    y: u8,
    a: Span,
    b: Span,
    supply: SupplyWord,
    known: &mut FactTable<Decided>,
) -> bool
    requires row { y ≤ 7 }
    requires first { has_first a ≡ true }
    ensures { IsTrue result
        ↔ StacksOver (supply_of supply) (empty_cells cells.now) 0 y 0 (a ∷ b ∷ []) }
{
    if !has_row(cells.rows_with(0, a), y) {
        return false;
    }
    let rest = cells.without_span(0, a, y);
    stacks_one(&rest, y, y + 1, b, supply, known)
}

/// The same for such a span and two above it.
#[cycle(search)]
#[inline(always)]
fn first_three(
    cells: &Empties,
    y: u8,
    a: Span,
    b: Span,
    c: Span,
    supply: SupplyWord,
    known: &mut FactTable<Decided>,
) -> bool
    requires row { y ≤ 7 }
    requires first { has_first a ≡ true }
    ensures { IsTrue result
        ↔ StacksOver (supply_of supply) (empty_cells cells.now) 0 y 0 (a ∷ b ∷ c ∷ []) }
{
    if !has_row(cells.rows_with(0, a), y) {
        return false;
    }
    let rest = cells.without_span(0, a, y);
    stacks_two(&rest, y, y + 1, b, c, supply, known)
}

/// The same for such a span and three above it.
#[cycle(search)]
#[inline(always)]
fn first_four(
    cells: &Empties,
    y: u8,
    a: Span,
    b: Span,
    c: Span,
    d: Span,
    supply: SupplyWord,
    known: &mut FactTable<Decided>,
) -> bool
    requires row { y ≤ 7 }
    requires first { has_first a ≡ true }
    ensures { IsTrue result
        ↔ StacksOver (supply_of supply) (empty_cells cells.now) 0 y 0 (a ∷ b ∷ c ∷ d ∷ []) }
{
    if !has_row(cells.rows_with(0, a), y) {
        return false;
    }
    let rest = cells.without_span(0, a, y);
    stacks_three(&rest, y, y + 1, b, c, d, supply, known)
}
