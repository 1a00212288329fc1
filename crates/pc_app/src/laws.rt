// A law of the definitions: a function with an empty body whose contract is the law.
ghost use Rattle.std.specs.Prelude.{◌≡◌, ℕ, List, true};
ghost use Rattle.pc_words.specs.Words.{asked_in, request_in};
ghost use Rattle.pc_app.specs.Tasks.{task_of, tells_floods_in};

/// A command's output depends only on its words and, if it reads the source, on the bytes of the source. The number of
/// floods matters only if it is written.
pub fn output_is_determined()
    ensures { (words : List (List ℕ)) (bytes one other : List ℕ) (floods others : ℕ)
        → (tells_floods_in (asked_in (request_in words)) ≡ true → floods ≡ others)
        → (task_of words).IsOutput bytes floods one
        → (task_of words).IsOutput bytes others other → one ≡ other }
{}
