// Sets of small numbers, as bits.
ghost use Rattle.std.specs.Prelude.{◌≡◌, ℕ, ◌*◌, ◌%◌, ◌<◌, ◌≤◌, nat_lt, ◌&&◌, true, false, length, slice_index};
ghost use Rattle.lane_board.specs.Lanes.{has_bit};

use crate::pivots::Pivots;
use crate::scan::number_of;
use crate::words::{bits_from, four_rows, in_low_rows};
use lane_board::words::{has_bit, lowest_bit, without_lowest};
use srs::Placement;

/// How many words of 64 bits a set has.
const WORDS: usize = 24;

/// How many of these words each rotation has.
const EACH: usize = 6;

/// A set of numbers below 1,536: bit `k` of word `w` stands for the number `64 w + k`.
#[derive(Clone, Copy)]
pub(crate) struct Numbers {
    words: [u64; WORDS],
    /// Bit `w` is set if word `w` has a bit.
    in_use: u64,
    ghost size: { length words ≡ 24 },
    ghost few: { (w : ℕ) → w < 64 → has_bit in_use w ≡ true → w < 24 },
    ghost none_else: { (w : ℕ) → w < 24 → has_bit in_use w ≡ false → slice_index words w ≡ 0 },
}

/// The first `count` words of each rotation, as bits.
#[inline(always)]
fn first_words(count: usize) -> u64
    requires { count ≤ 6 }
    ensures { (w : ℕ) → w < 64 → has_bit result w ≡ (nat_lt w 24 && nat_lt (w % 6) count) }
{
    let first = (1 << count) - 1;
    first | first << 6 | first << 12 | first << 18
}

/// How many words of each rotation have rows below the given ones.
#[inline(always)]
#[tactic(auto, using(crate::proofs::NumberLemmas::under_all))]
fn words_below(rows: [u8; 4]) -> usize
    requires { length rows ≡ 4 }
    ensures few { result ≤ 6 }
    ensures all { (index w : ℕ) → index < 4 → result ≤ w → w < 6 → slice_index rows index ≤ 4 * w }
{
    let highest = rows[0].max(rows[1]).max(rows[2]).max(rows[3]);
    ((usize::from(highest) + 3) / 4).min(EACH)
}

impl Numbers {
    ghost use Rattle.std.specs.Prelude.{not};
    ghost use Rattle.place_sets.specs.Numbers.{has_number, number_of_state, is_named, states_in};
    ghost use Rattle.place_sets.specs.Numbers.{IsNumberFrom, IsWordAmong};
    ghost use Rattle.place_sets.specs.States.{has_state, states_of};

    /// The numbers of the states.
    pub(crate) fn of_states(states: &Pivots<24>) -> Numbers
        ensures { states_in result ≡ states_of states.now }
    {
        let mut words = [0; WORDS];
        for at in 0..EACH {
            let row = 4 * at as u8;
            words[at] = four_rows(&states.spawn, row);
            words[at + 6] = four_rows(&states.right, row);
            words[at + 12] = four_rows(&states.reverse, row);
            words[at + 18] = four_rows(&states.left, row);
        }
        Numbers {
            words,
            in_use: first_words(EACH),
        }
    }

    /// Whether the set has the number of a state.
    pub(crate) fn has(&self, state: &Placement) -> bool
        ensures { result ≡ has_state (states_in self.now) state.now }
    {
        if state.x >= 16 || state.y >= 24 {
            return false;
        }
        let number = number_of(state);
        has_bit(self.words[usize::from(number / 64)], number % 64)
    }

    /// The least number of the set from `from` on. `None` exactly if there is none.
    pub(crate) fn first_from(&self, from: u16) -> Option<u16>
        requires { from ≤ 1536 }
        ensures { IsNumberFrom self.now from result }
    {
        let at = usize::from(from / 64);
        if at >= WORDS {
            return None;
        }
        let word = bits_from(self.words[at], from % 64);
        if word != 0 {
            return Some(64 * at as u16 + lowest_bit(word));
        }
        self.first_in_words(at as u16 + 1)
    }

    /// The least number in the words from `start` on. `None` exactly if they have none.
    #[inline(always)]
    #[tactic(auto, using(crate::proofs::WordsInUse::none_from_word))]
    fn first_in_words(&self, start: u16) -> Option<u16>
        requires { start ≤ 24 }
        ensures { IsNumberFrom self.now (64 * start) result }
    {
        match self.first_word(bits_from(self.in_use, start)) {
            None => None,
            Some(at) => Some(64 * at + lowest_bit(self.words[usize::from(at)])),
        }
    }

    /// The first of these words that has a bit. `None` exactly if none of them has one.
    #[inline(always)]
    fn first_word(&self, among: u64) -> Option<u16>
        requires { (w : ℕ) → w < 64 → has_bit among w ≡ true → w < 24 }
        ensures { IsWordAmong self.now among result }
    {
        let mut left = among;
        'words: while left != 0 {
            let at = lowest_bit(left);
            if self.words[usize::from(at)] != 0 {
                return Some(at);
            }
            left = without_lowest(left);
        }
        None
    }

    /// Removes the least number and returns it. `None` exactly if the set is empty.
    #[inline(always)]
    pub(crate) fn take_first(&mut self) -> Option<u16>
        ensures first { IsNumberFrom self.old 0 result }
        ensures rest { (n : ℕ) → n < 1536 → has_number self.new n
            ≡ (has_number self.old n && not (is_named result n)) }
    {
        match self.first_word(self.in_use) {
            None => {
                self.in_use = 0;
                None
            }
            Some(at) => {
                let word = self.words[usize::from(at)];
                self.words[usize::from(at)] = without_lowest(word);
                self.in_use = bits_from(self.in_use, at);
                Some(64 * at + lowest_bit(word))
            }
        }
    }

    /// The numbers of the states that lie below the given row of their rotation.
    pub(crate) fn in_rows_below(&self, rows: [u8; 4]) -> Numbers
        requires { length rows ≡ 4 }
        ensures { (index y x : ℕ) → index < 4 → y < 24 → x < 16 → has_number result (number_of_state index y x)
            ≡ (has_number self.now (number_of_state index y x) && nat_lt y (slice_index rows index)) }
    {
        let each = words_below(rows);
        let mut words = [0; WORDS];
        for at in 0..each {
            let row = 4 * at as u8;
            words[at] = in_low_rows(self.words[at], rows[0].saturating_sub(row));
            words[at + 6] = in_low_rows(self.words[at + 6], rows[1].saturating_sub(row));
            words[at + 12] = in_low_rows(self.words[at + 12], rows[2].saturating_sub(row));
            words[at + 18] = in_low_rows(self.words[at + 18], rows[3].saturating_sub(row));
        }
        Numbers {
            words,
            in_use: first_words(each),
        }
    }
}
