// Laws of the definitions: functions with an empty body whose contract is the law.
ghost use Rattle.std.specs.Prelude.{◌≡◌, ◌==◌, ◌<◌, ℕ, Bool, true};
ghost use Rattle.hands.specs.Hands.{takes};
ghost use Rattle.tails.specs.declared.tree.TailTree.{TailTree};
ghost use Rattle.tails.specs.Tails.{IsTail, hand_at, leads};

/// A piece can be taken from the hand of a tail exactly if it can be taken from the tail.
pub fn hands_are_taken_from_by_tails()
    ensures taken { (tree : TailTree) (tail code : ℕ) (goes_on : ℕ → Bool) → IsTail tree tail → 0 < code →
        takes tree.hold code goes_on (hand_at tree tail) ≡ leads tree code (λ rest. goes_on (hand_at tree rest)) tail }
    ensures rests { (tree : TailTree) (tail rest code : ℕ) → IsTail tree tail → 0 < code →
        leads tree code (λ other. other == rest) tail ≡ true → IsTail tree rest }
{}
