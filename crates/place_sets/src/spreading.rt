// How a set of pivots spreads within one rotation.
ghost use Rattle.std.specs.Prelude.{◌≡◌};
ghost use Rattle.lane_board.specs.Board.{field_of};
ghost use Rattle.place_sets.specs.Shifts.{sideways, lower, neighbours, widened, IsSpread};

use lane_board::LaneBoard;

/// The moves by which pivots spread: by one column, by one row down, or both.
#[derive(Clone, Copy)]
pub enum Shifts {
    /// By one column, to the left or to the right.
    Sideways,
    /// By one row down.
    Down,
    /// By one column or by one row down.
    All,
}

/// The pivots, plus all free pivots that chains of these moves through free pivots lead to.
pub fn spread<const N: usize>(
    free: &LaneBoard<N>,
    shifts: Shifts,
    from: &LaneBoard<N>,
) -> LaneBoard<N>
    ensures { IsSpread shifts N (field_of free.now) (field_of from.now) (field_of result) }
{
    let mut reached = *from;
    'rounds: loop {
        let wider = widened(free, shifts, &reached);
        if wider.equal(&reached) {
            return reached;
        }
        reached = wider;
    }
}

/// The pivots, plus the free pivots one move away.
#[tactic(auto, unfolding(crate::specs::Shifts::widened))]
#[inline(always)]
fn widened<const N: usize>(free: &LaneBoard<N>, shifts: Shifts, from: &LaneBoard<N>) -> LaneBoard<N>
    ensures { field_of result ≡ widened shifts N (field_of free.now) (field_of from.now) }
{
    let near = neighbours(shifts, from);
    from.or(&free.and(&near))
}

/// Where one of these moves takes the pivots.
#[inline(always)]
fn neighbours<const N: usize>(shifts: Shifts, from: &LaneBoard<N>) -> LaneBoard<N>
    ensures { field_of result ≡ neighbours shifts N (field_of from.now) }
{
    match shifts {
        Shifts::Sideways => sideways(from),
        Shifts::Down => lower(from),
        Shifts::All => sideways(from).or(&lower(from)),
    }
}

/// Where a move by one column takes the pivots.
#[tactic(auto, unfolding(crate::specs::Shifts::sideways))]
#[inline(always)]
fn sideways<const N: usize>(from: &LaneBoard<N>) -> LaneBoard<N>
    ensures { field_of result ≡ sideways N (field_of from.now) }
{
    from.moved(-1, 0).or(&from.moved(1, 0))
}

/// Where a move by one row down takes the pivots.
#[tactic(auto, unfolding(crate::specs::Shifts::lower))]
#[inline(always)]
fn lower<const N: usize>(from: &LaneBoard<N>) -> LaneBoard<N>
    ensures { field_of result ≡ lower N (field_of from.now) }
{
    from.moved(0, -1)
}
