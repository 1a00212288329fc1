// The fumen text of pages, read back.
ghost use Rattle.std.specs.Prelude.{◌≡◌, ◌↔◌, length, true, None, IfOk, IsTrue};
ghost use Rattle.fumen_digits.specs.declared.dialect.Dialect.TheVariants.{V115};
ghost use Rattle.fumen_text.specs.Written.{list_encode_fault, written};

use fumen_digits::Dialect;
use fumen_pages::Page;
use fumen_text::{decode, encode};
use pc_outside::{NoMemory, Refused};
use std::alloc::Global;

/// What was found about the fumen text of some pages.
#[derive(Clone, Copy, Debug)]
pub struct TextCheck {
    /// How many bytes the text has.
    pub bytes: usize,
    /// Whether the text reads as the pages.
    pub same: bool,
}

/// Whether the pages that were read, in their dialect, are these pages of 23 rows.
fn is_same(dialect: Dialect, again: &[Page], pages: &[Page]) -> bool
    ensures { IsTrue result ↔ ((dialect ≡ V115) × (again.now ≡ pages.now)) }
{
    dialect == Dialect::V115 && again == pages
}

/// Writes pages without a fault as a fumen text, reads that, and compares. The only refusal is that memory runs out.
pub fn checked_text(alloc: Global, pages: &[Page]) -> Result<TextCheck, NoMemory>
    requires { list_encode_fault V115 pages.now ≡ None }
    ensures bytes { IfOk result (λ check. check.bytes ≡ length (written V115 pages.now)) }
    ensures same { IfOk result (λ check. check.same ≡ true) }
{
    let text = match encode(alloc, Dialect::V115, pages) {
        Ok(text) => text,
        Err(Refused::NoMemory) => return Err(NoMemory),
        Err(Refused::Fault(_)) => unreachable!(),
    };
    match decode(alloc, &text) {
        Ok((dialect, again)) => Ok(TextCheck {
            bytes: text.len(),
            same: is_same(dialect, &again, pages),
        }),
        Err(Refused::NoMemory) => Err(NoMemory),
        Err(Refused::Fault(_)) => unreachable!(),
    }
}
