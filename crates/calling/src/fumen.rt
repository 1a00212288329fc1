// Rewriting fumen texts.
ghost use Rattle.std.specs.Prelude.{◌≡◌, ℕ, IfOk, IfErr};
ghost use Rattle.fumen_pages.specs.declared.encode_fault.EncodeFault.{EncodeFault};
ghost use Rattle.calling.specs.Rewritten.{IsRewriteFault, IsRewritten};

use fumen_digits::{Dialect, FumenFault};
use fumen_text::{EncodeFault, decode, encode};
use pc_outside::Refused;
use std::alloc::Global;

/// Why a fumen text is not rewritten.
#[derive(Clone, Copy, Debug, PartialEq, Eq)]
pub enum RewriteFault {
    /// The text can't be read, and this is its first fault.
    Unreadable(FumenFault),
    /// The comment of this page, counted from 1, is the first that is short enough in the text and has more than 4,095
    /// characters once it is escaped.
    CommentTooLong { page: u32 },
}

/// The page of a comment that is too long.
fn page_of(fault: EncodeFault) -> u32
    requires { (page : ℕ) × (fault ≡ EncodeFault.CommentTooLong page) }
    ensures { fault ≡ EncodeFault.CommentTooLong result }
{
    match fault {
        EncodeFault::CommentTooLong { page } => page,
        _ => unreachable!(),
    }
}

/// The pages of a fumen text, of version 110 or 115, as a text of version 115. A text that can't be read is refused by
/// its first fault, and one that can be by a comment that grows too long. The only other refusal is that memory runs
/// out.
pub fn as_v115(alloc: Global, text: &[u8]) -> Result<Vec<u8>, Refused<RewriteFault>>
    ensures text { IfOk result (λ again. IsRewritten text.now again.items) }
    ensures fault { IfErr result (IsRewriteFault text.now) }
{
    let pages = match decode(alloc, text) {
        Ok((_, pages)) => pages,
        Err(Refused::Fault(fault)) => return Err(Refused::Fault(RewriteFault::Unreadable(fault))),
        Err(Refused::NoMemory) => return Err(Refused::NoMemory),
    };
    match encode(alloc, Dialect::V115, &pages) {
        Ok(text) => Ok(text),
        Err(Refused::Fault(fault)) => {
            let page = page_of(fault);
            Err(Refused::Fault(RewriteFault::CommentTooLong { page }))
        }
        Err(Refused::NoMemory) => Err(Refused::NoMemory),
    }
}
