// The hands that a tiling serves.
ghost use Rattle.std.specs.Prelude.{ℕ, ◌≡◌, ◌≤◌, ◌<◌, ◌^◌, ◌↔◌, IsTrue, take, true};
ghost use Rattle.lane_board.specs.Lanes.{has_bit};
ghost use Rattle.empty_cells.specs.Empties.{cells_by_column, empty_cells};
ghost use Rattle.tiled_pieces.specs.Orders.{HasThose, LiesIn};
ghost use Rattle.tiled_pieces.specs.Served.{IsServed};

use crate::laid::Laid;
use crate::listed::{ListedTiling, MOST_PIECES};
use crate::walk::served;
use crate::words::without;
use empty_cells::Empties;

/// Whether a piece has cells, all of them in a set.
#[inline(always)]
fn lies_in(piece: u128, cells: u128) -> bool
    requires { piece < 2 ^ 80 }
    ensures { IsTrue result ↔ LiesIn (cells_by_column piece) (cells_by_column cells) }
{
    if piece == 0 {
        return false;
    }
    without(piece, cells) == 0
}

/// The pieces of a tiling that lie in a set, and how many there are.
#[inline(always)]
fn those_in(tiling: &ListedTiling, cells: u128, weights: &[u16; 8]) -> ([Laid; MOST_PIECES], usize)
    ensures few { result.1 ≤ MOST_PIECES }
    ensures those { HasThose tiling.now (cells_by_column cells) weights.now (take result.1 result.0) MOST_PIECES }
{
    let mut pieces = [Laid::new(0, 0); MOST_PIECES];
    let mut count = 0;
    for index in 0..MOST_PIECES {
        let (kind, empties) = tiling.piece_at(index);
        let piece = empties.bits();
        if lies_in(piece, cells) {
            pieces[count] = Laid::new(piece, weights[usize::from(kind.code())]);
            count += 1;
        }
    }
    (pieces, count)
}

/// Of the pending hands, one bit each, those that a tiling serves: some of its pieces can be put into a set of empty
/// cells one after the other, each of them fits when its turn comes, and at last no cell is left; and after each piece
/// the hand's bit is set in `allowed` at the sum of the weights of the kinds so far. A weight stands at the piece's
/// code. If pieces must drop, none can be put below a filled cell.
pub fn served_hands(
    tiling: &ListedTiling,
    cells: &Empties,
    drops: bool,
    weights: &[u16; 8],
    allowed: &[u64],
    pending: u64,
) -> u64
    ensures { (bit : ℕ) → has_bit result bit ≡ true ↔ ((has_bit pending bit ≡ true)
        × IsServed tiling.now (empty_cells cells.now) drops weights.now allowed.now bit) }
{
    let cells = cells.bits();
    let (pieces, count) = those_in(tiling, cells, weights);
    served(&pieces[..count], cells, drops, allowed, pending)
}
