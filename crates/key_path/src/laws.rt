// Laws of key words: functions with an empty body whose contract is the law.
ghost use Rattle.std.specs.Prelude.{◌≡◌, ◌<◌, IsTrue, Option, Some, List, length, is_some};
ghost use Rattle.std.specs.Cmp.{IsTotalOrder};
ghost use Rattle.lane_board.specs.Field.{Field};
ghost use Rattle.srs.specs.declared.placement.Placement.{Placement};
ghost use Rattle.srs.specs.Kick.{Table};
ghost use Rattle.moves.specs.declared.key.DropMode.{DropMode};
ghost use Rattle.moves.specs.declared.key.Key.{Key};
ghost use Rattle.moves.specs.Place.{IsPlace};
ghost use Rattle.key_path.specs.LeastKeyWord.{IsLeastKeyWord, least_key_word};
ghost use Rattle.key_path.specs.KeyWords.{key_word_cmp};

use std::cmp::Ordering;

/// The order of key words is total. Only equal key words compare as Equal.
pub fn words_are_ordered()
    ensures total { IsTotalOrder key_word_cmp }
    ensures equal { (word other : List Key) → key_word_cmp word other ≡ Ordering.Equal → word ≡ other }
{}

/// A placement has one least key word or none: the one that `least_key_word` names.
pub fn key_words_are_found()
    ensures one { (table : Table) (F : Field) (mode : DropMode) (target : Placement) →
        IsLeastKeyWord table F mode target (least_key_word table F mode target) }
    ensures no_other { (table : Table) (F : Field) (mode : DropMode) (target : Placement) (word : Option (List Key)) →
        IsLeastKeyWord table F mode target word → word ≡ least_key_word table F mode target }
{}

/// A least key word has fewer keys than a piece has states.
pub fn key_words_are_short()
    ensures { (table : Table) (F : Field) (mode : DropMode) (target : Placement) (word : List Key) →
        IsLeastKeyWord table F mode target (Some word) → length word < 920 }
{}

/// Every placement that legal keys lead to has a key word.
pub fn places_have_key_words()
    ensures { (table : Table) (F : Field) (mode : DropMode) (placement : Placement) → IsPlace table F mode placement →
        IsTrue (is_some (least_key_word table F mode placement)) }
{}
