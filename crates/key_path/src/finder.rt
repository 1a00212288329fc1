// The search for the least key word.
ghost use Rattle.std.specs.Prelude.{◌≡◌, ◌+◌, IsTrue, false, MatchOption, length, option_map};
ghost use Rattle.std.specs.List.{count_by};
ghost use Rattle.srs.specs.Cells.{is_inside_of, HasPivotInWell};
ghost use Rattle.srs.specs.Canonical.{IsCanonical};
ghost use Rattle.srs.specs.Kick.{srs_table};
ghost use Rattle.srs.specs.Rules.{table_of};
ghost use Rattle.well.specs.Free.{is_free};
ghost use Rattle.well.specs.Well.{filled};
ghost use Rattle.moves.specs.Leads.{spawn_of};
ghost use Rattle.moves.specs.PlaceTest.{comes_to_rest};
ghost use Rattle.key_path.specs.LeastKeyWord.{IsLeastKeyWord, least_key_word};
ghost use Rattle.key_path.specs.Marks.{is_unseen, new_state};
ghost use Rattle.key_path.specs.Search.{IsFinding, IsTrying, LeadsBack};

use crate::aim::rests_on;
use crate::free::FreeStates;
use crate::known::Known;
use crate::marks::{Mark, Marks, STATES};
use arrayvec::ArrayVec;
use circular_buffer::HeapCircularBuffer;
use moves::{DropMode, Key, spawn};
use pc_outside::NoMemory;
use srs::{Placement, Rules, canonical};
use std::alloc::Global;
use well::Well;

/// Keys, first key first. A least key word has fewer than 920 of them, one for each state that it leaves.
pub type KeyWord = ArrayVec<Key, 920>;

/// A finder of least key words, with the memory for its search.
#[derive(Drop)]
pub struct Finder {
    /// States that were reached and from which no key has been pressed yet. States with lesser key words come first.
    waiting: HeapCircularBuffer<Placement, Global>,
    /// The words that were found last.
    known: Known,
    ghost room: { waiting.capacity ≡ 920 },
}

impl Finder {
    ghost use Rattle.std.specs.Prelude.{IfOk};
    ghost use Rattle.key_path.specs.Known.{HasFoundNone};

    /// Makes a finder that has found nothing yet. `NoMemory` if there is not enough memory.
    pub fn new(alloc: Global) -> Result<Finder, NoMemory>
        ensures { IfOk result HasFoundNone }
    {
        let known = Known::new(alloc)?;
        match HeapCircularBuffer::with_capacity(alloc, STATES) {
            Ok(waiting) => Ok(Finder { waiting, known }),
            Err(_) => Err(NoMemory),
        }
    }

    /// The least key word: the shortest word of allowed keys that leads from the spawn to a state whose rest has the
    /// target's cells. Among words of equal length, the first difference decides, by the key order L, R, D, C, A.
    /// `None` exactly if no key word leads there.
    #[tactic(auto, using(crate::proofs::KeyWordLemmas::named_is_least))]
    pub fn find(
        &mut self,
        well: &Well,
        rules: &Rules,
        target: &Placement,
        drop_mode: DropMode,
    ) -> Option<KeyWord>
        requires { IsTrue (is_inside_of target.now) }
        ensures least { IsLeastKeyWord (table_of rules.now) (filled well.now) drop_mode target.now
            (option_map (λ word. word.items) result) }
        ensures named { option_map (λ word. word.items) result
            ≡ least_key_word (table_of rules.now) (filled well.now) drop_mode target.now }
    {
        self.named_word(well, rules, target, drop_mode)
    }

    /// What `find` finds under the offsets of the Super Rotation System, for a caller that knows that its rules are
    /// these.
    #[tactic(auto, using(crate::proofs::KeyWordLemmas::is_key_word))]
    pub fn find_by_srs(
        &mut self,
        well: &Well,
        target: &Placement,
        drop_mode: DropMode,
    ) -> Option<KeyWord>
        requires { IsTrue (is_inside_of target.now) }
        ensures { option_map (λ word. word.items) result
            ≡ least_key_word srs_table (filled well.now) drop_mode target.now }
    {
        if let Some(word) = self.known.get(well, target, drop_mode) {
            return Some(word);
        }
        let word = self.least_word(well, &Rules::srs(), target, drop_mode);
        if let Some(word) = &word {
            self.known.keep(well, target, drop_mode, word);
        }
        word
    }

    /// The least key word, looked up if it was found before.
    #[tactic(auto, using(crate::proofs::KeyWordLemmas::is_key_word))]
    fn named_word(
        &mut self,
        well: &Well,
        rules: &Rules,
        target: &Placement,
        drop_mode: DropMode,
    ) -> Option<KeyWord>
        requires { IsTrue (is_inside_of target.now) }
        ensures { option_map (λ word. word.items) result
            ≡ least_key_word (table_of rules.now) (filled well.now) drop_mode target.now }
    {
        if !rules.is_srs() {
            return self.least_word(well, rules, target, drop_mode);
        }
        self.find_by_srs(well, target, drop_mode)
    }

    /// The least key word that leads to the target's cells.
    fn least_word(
        &mut self,
        well: &Well,
        rules: &Rules,
        target: &Placement,
        drop_mode: DropMode,
    ) -> Option<KeyWord>
        requires { IsTrue (is_inside_of target.now) }
        ensures { IsLeastKeyWord (table_of rules.now) (filled well.now) drop_mode target.now
            (option_map (λ word. word.items) result) }
    {
        let start = spawn(target.piece);
        if !well.is_free(&start) {
            return None;
        }
        let aim = canonical(target);
        if rests_on(well, &aim, &start) {
            return Some(KeyWord::new());
        }
        let states = FreeStates::of(well, aim.piece);
        self.word_from(&states, rules, &aim, drop_mode)
    }

    /// The least key word that leads from the spawn to a canonical placement, if that needs at least one key. States
    /// are visited in the order of their least key words.
    fn word_from(
        &mut self,
        states: &FreeStates,
        rules: &Rules,
        aim: &Placement,
        drop_mode: DropMode,
    ) -> Option<KeyWord>
        requires kind { states.now.piece ≡ aim.now.piece }
        requires free { IsTrue (is_free (filled states.now.well) (spawn_of aim.now.piece)) }
        requires canonical { IsCanonical aim.now }
        requires elsewhere { comes_to_rest (filled states.now.well) aim.now (spawn_of aim.now.piece) ≡ false }
        ensures { IsLeastKeyWord (table_of rules.now) (filled states.now.well) drop_mode aim.now
            (option_map (λ word. word.items) result) }
    {
        let start = spawn(aim.piece);
        let mut marks = Marks::new();
        marks.set(&start, Mark::Start);
        self.waiting.clear();
        self.waiting.push_back(start);
        while let Some(state) = self.waiting.pop_front() {
            let reached = self.press_keys(&mut marks, &state, states, rules, aim, drop_mode);
            if let Some(reached) = reached {
                return Some(marks.word_to(&reached));
            }
        }
        None
    }

    /// Presses each allowed key in a state. New states are marked and wait. The first one that comes to rest on the
    /// target is returned at once.
    fn press_keys(
        &mut self,
        marks: &mut Marks,
        state: &Placement,
        states: &FreeStates,
        rules: &Rules,
        aim: &Placement,
        drop_mode: DropMode,
    ) -> Option<Placement>
        requires kind { states.now.piece ≡ aim.now.piece }
        requires free { IsTrue (is_free (filled states.now.well) (spawn_of aim.now.piece)) }
        requires canonical { IsCanonical aim.now }
        requires trying { IsTrying (table_of rules.now)
            (filled states.now.well) drop_mode aim.now marks.old.marks self.old.waiting.items state.now 0 }
        ensures { MatchOption result
            (IsFinding (table_of rules.now) (filled states.now.well) drop_mode aim.now marks.new.marks
            self.new.waiting.items
            × (count_by is_unseen marks.new.marks + length self.new.waiting.items
            ≡ count_by is_unseen marks.old.marks + length self.old.waiting.items))
            (λ reached. HasPivotInWell reached × LeadsBack (table_of rules.now)
            (filled states.now.well) drop_mode aim.now marks.new.marks reached) }
    {
        for key in Key::ALL {
            let Some(next) = new_state(states, rules, drop_mode, marks, state, key) else {
                continue;
            };
            marks.set(&next, Mark::From(*state, key));
            if rests_on(&states.well, aim, &next) {
                return Some(next);
            }
            self.waiting.push_back(next);
        }
        None
    }
}

/// The state that an allowed key leads to, if no key word led to it before.
fn new_state(
    states: &FreeStates,
    rules: &Rules,
    drop_mode: DropMode,
    marks: &Marks,
    state: &Placement,
    key: Key,
) -> Option<Placement>
    requires kind { state.now.piece ≡ states.now.piece }
    requires free { IsTrue (is_free (filled states.now.well) state.now) }
    ensures { result ≡ new_state (table_of rules.now) (filled states.now.well) drop_mode marks.now.marks state.now key }
{
    if !drop_mode.allows(key) {
        return None;
    }
    let next = states.step(rules, state, key)?;
    marks.is_unseen(&next).then_some(next)
}
