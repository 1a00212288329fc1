// What a call that answers one command has for the words.
ghost use Rattle.std.specs.Prelude.{◌≡◌};
ghost use Rattle.pc_c.specs.Answered.{answer_of};

/// What the words have for an answer.
#[derive(Clone, Copy)]
pub(crate) enum Answer<T, E> {
    /// This is written.
    Written(T),
    /// The words ask for another command.
    OtherCommand,
    /// Nothing is written, and this is why.
    Unwritten(E),
}

/// An answer, and how many floods were made for it, or the greatest value of a u64 if there were more.
#[derive(Clone, Copy)]
pub(crate) struct Answered<T, E> {
    pub(crate) answer: Answer<T, E>,
    pub(crate) floods: u64,
}

/// An answer for which no flood was made.
pub(crate) fn idle<T, E>(answer: Answer<T, E>) -> Answered<T, E>
    ensures { result ≡ record {
      answer = answer;
      floods = 0;
    } }
{
    Answered { answer, floods: 0 }
}

/// What was written, or why nothing was.
pub(crate) fn answer_of<T, E>(written: Result<T, E>) -> Answer<T, E>
    ensures { result ≡ answer_of written }
{
    match written {
        Ok(told) => Answer::Written(told),
        Err(why) => Answer::Unwritten(why),
    }
}
