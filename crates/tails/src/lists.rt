// The pieces of tails as numbers: three bits for each piece, the first in the lowest.
ghost use Rattle.std.specs.Prelude.{◌≡◌, ◌+◌, ◌*◌, ◌<◌, IfOk, List, OnOk, length};
ghost use Rattle.queue_pattern.specs.declared.element.Element.{Element};
ghost use Rattle.tails.specs.Listings.{AreShort, IsListing};
ghost use Rattle.tails.specs.Lists.{AreListed, number_at};
ghost use Rattle.tails.specs.States.{state_at};

use crate::states::State;
use pc_outside::NoMemory;
use queue_pattern::sets::nth;
use std::alloc::Global;

/// The most tails that a state has whose tails are listed.
const LISTED: u32 = 65_536;

/// The numbers of the pieces of tails, listed for states with few tails.
#[derive(Drop)]
pub(crate) struct Lists {
    /// Where the tails of a state begin, if they are listed.
    starts: Vec<Option<usize>>,
    numbers: Vec<u64>,
}

impl Lists {
    /// The number of the pieces of a tail: piece by piece as far as a state whose tails are listed.
    pub(crate) fn number(&self, states: &[State], state_number: u16, place: u32) -> u64
        requires listing { (elements : List Element) × IsListing elements states.now self.now }
        requires within { state_number < length states.now }
        requires there { place < (state_at states.now state_number).count }
        ensures { (elements : List Element) → IsListing elements states.now self.now
            → result ≡ number_at elements (state_at states.now state_number) place }
    {
        let mut sum = 0;
        let mut unit = 1;
        let mut state_number = usize::from(state_number);
        let mut place = place;
        // (a tail has at most 21 pieces, and the state behind them ends the walk)
        for _ in 0..22u8 {
            if let Some(start) = self.starts[state_number] {
                return sum + unit * self.numbers[start + place as usize];
            }
            let state = states[state_number];
            if state.draws == 0 {
                return sum;
            }
            let piece = nth(state.set, place / state.each);
            sum += unit * u64::from(piece.code());
            unit *= 8;
            place %= state.each;
            state_number = usize::from(state.next[usize::from(piece.code())]);
        }
        sum
    }

    /// Lists the tails of one state.
    fn list(&mut self, states: &[State], state_number: u16) -> Result<(), NoMemory>
        requires listing { (elements : List Element) × IsListing elements states.now self.old }
        requires within { state_number < length states.now }
        ensures { OnOk result ((elements : List Element) → IsListing elements states.now self.old
            → IsListing elements states.now self.new) }
    {
        let start = self.numbers.len();
        for place in 0..states[usize::from(state_number)].count {
            let next = self.number(states, state_number, place);
            self.numbers.push(next)?;
        }
        self.starts[usize::from(state_number)] = Some(start);
        Ok(())
    }

    /// Lists the tails of all states that have few: those of a state behind those of the states after it.
    pub(crate) fn new(alloc: Global, states: &[State], count: u8) -> Result<Lists, NoMemory>
        requires states { (elements : List Element) × AreShort elements states.now }
        requires size { length states.now ≡ count * 128 + 1 }
        ensures { IfOk result (λ lists. (elements : List Element) → AreShort elements states.now
            → AreListed elements states.now lists) }
    {
        let mut lists = Lists {
            starts: vec![in alloc; None; states.len()]?,
            numbers: Vec::new(alloc),
        };
        for index in (0..count).rev() {
            for set in 0..128 {
                let state_number = u16::from(index) * 128 + set;
                if states[usize::from(state_number)].count <= LISTED {
                    lists.list(states, state_number)?;
                }
            }
        }
        Ok(lists)
    }
}
