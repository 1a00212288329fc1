// The fields of a page's line, read one by one.
ghost use Rattle.std.specs.Prelude.{◌≡◌, Err, IsOk};
ghost use Rattle.std.specs.List.{list_all};
ghost use Rattle.std.specs.Option.{ok_or};
ghost use Rattle.fumen_pages.specs.declared.list_fault.ListKind.TheVariants.{BadComment};
ghost use Rattle.page_list.specs.FieldsReading.{comment_in, flag_in, flags_in, is_dash, is_mark, operation_in};
ghost use Rattle.fumen_digits.specs.ReadResults.{Gives};
ghost use Rattle.pc_outside.specs.declared.answers.Refused.{Refused};

use fumen_comment::{Comment, unescape};
use fumen_pages::ListKind;
use pc_outside::Refused;
use placement_form::read_placement;
use srs::Placement;
use std::alloc::Global;

/// The flags of a page's line.
#[derive(Clone, Copy, Debug, PartialEq, Eq)]
pub struct Flags {
    /// `r`: the garbage row comes in from below.
    pub rise: bool,
    /// `m`: the rows are mirrored.
    pub mirror: bool,
    /// `c`: the colours are those of the guideline.
    pub colour: bool,
    /// `l`: the page locks.
    pub lock: bool,
}

/// Whether a flag is set: its letter says that it is, and `-` that it isn't. `None` for any other byte.
fn flag_in(letter: u8, text: u8) -> Option<bool>
    ensures { result ≡ flag_in letter text }
{
    if text == letter {
        return Some(true);
    }
    if text == b'-' {
        return Some(false);
    }
    None
}

/// The four flags `r`, `m`, `c` and `l`. A `-` stands for a flag that is not set. `None` exactly if the text doesn't
/// have this form.
#[tactic(auto, unfolding(crate::specs::FieldsReading::flags_in))]
pub fn flags_in(text: &[u8]) -> Option<Flags>
    ensures { result ≡ flags_in text.now }
{
    match text {
        [r, m, c, l] => Some(Flags {
            rise: flag_in(b'r', *r)?,
            mirror: flag_in(b'm', *m)?,
            colour: flag_in(b'c', *c)?,
            lock: flag_in(b'l', *l)?,
        }),
        _ => None,
    }
}

/// Whether the text is `-`.
#[tactic(auto, unfolding(crate::specs::FieldsReading::is_dash))]
pub fn is_dash(text: &[u8]) -> bool
    ensures { result ≡ is_dash text.now }
{
    matches!(text, [b'-'])
}

/// The operation: `-` if there is none, or else the letters of piece and rotation, `:`, the column, `,` and the row, as
/// in `T0:4,0`. The row is 0 to 22. The placement may have cells outside. `None` exactly if the text doesn't have this
/// form.
#[tactic(auto, unfolding(crate::specs::FieldsReading::operation_in))]
pub fn operation_in(text: &[u8]) -> Option<Option<Placement>>
    ensures { result ≡ operation_in text.now }
{
    if is_dash(text) {
        return Some(None);
    }
    Some(Some(read_placement(text)?))
}

/// Whether a comment may have the byte: from `!` to `~`.
fn is_mark(letter: u8) -> bool
    ensures { result ≡ is_mark letter }
{
    33 <= letter && letter <= 126
}

fn all_marks(text: &[u8]) -> bool
    ensures { result ≡ list_all is_mark text.now }
{
    text.iter().all(|letter| is_mark(*letter))
}

/// The comment: none if the text is `-`, or else what follows the `#`, unescaped. `BadComment` exactly if the text is
/// neither `-` nor `#` followed by bytes from `!` to `~`.
#[tactic(auto, unfolding(crate::specs::FieldsReading::comment_in, crate::specs::FieldsReading::units_in))]
pub fn comment_in(alloc: Global, text: &[u8]) -> Result<Option<Comment>, Refused<ListKind>>
    ensures exact { Gives (λ comment. comment) (λ fault. fault) result (ok_or (comment_in text.now) BadComment) }
    ensures memory { result ≡ Err Refused.NoMemory → IsOk (ok_or (comment_in text.now) BadComment) }
{
    if is_dash(text) {
        return Ok(None);
    }
    match text {
        [b'#', escaped @ ..] if all_marks(escaped) => Ok(Some(unescape(alloc, escaped)?)),
        _ => Err(Refused::Fault(ListKind::BadComment)),
    }
}
