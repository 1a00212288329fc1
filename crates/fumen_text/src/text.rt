// Whole texts: the dialect and the pages of a fumen.
ghost use Rattle.std.specs.Prelude.{◌≡◌, ◌≢◌, List, None, IfOk, Ok, Err};
ghost use Rattle.fumen_digits.specs.declared.dialect.Dialect.{Dialect};
ghost use Rattle.fumen_digits.specs.declared.fault.FumenFault.{FumenFault};
ghost use Rattle.fumen_digits.specs.ReadResults.{Gives};
ghost use Rattle.fumen_digits.specs.Framing.{digits_in};
ghost use Rattle.pc_outside.specs.declared.answers.Refused.{Refused};
ghost use Rattle.fumen_pages.specs.declared.page.Page.{Page};
ghost use Rattle.fumen_text.specs.Texts.{ReadsAs};
ghost use Rattle.fumen_text.specs.Faults.{IsTextFault};
ghost use Rattle.fumen_text.specs.Reading.{text_pages};

use crate::pages::read_pages;
use fumen_digits::{Dialect, FumenFault, digits_of};
use fumen_pages::Page;
use pc_outside::Refused;
use std::alloc::Global;

/// The dialect and the pages of a fumen text.
///
/// The digits are those of `digits_of`. While digits are left, or pages are promised to be unchanged, one more page is
/// read: its record unless it is promised, the digit behind the run `vh` or `7e` that says how many of the next pages
/// are promised, its action, and its comment. A refusal is the first fault from the left. A text without digits has no
/// pages. No text has more than 10,000.
pub fn decode(alloc: Global, text: &[u8]) -> Result<(Dialect, Vec<Page>), Refused<FumenFault>>
    // The result of reading from the left.
    ensures exact { Gives (λ x. (x.0, x.1.items)) (λ f. f) result (text_pages text.now) }

    // The text reads as these pages, and the pages that it reads as are returned, unless memory runs out.
    ensures found { IfOk result (λ x. ReadsAs text.now x.0 x.1.items) }
    ensures only { (dialect : Dialect) (pages : List Page) → ReadsAs text.now dialect pages →
        Gives {Y = Dialect × List Page} (λ x. (x.0, x.1.items)) (λ f. f) result (Ok (dialect, pages)) }

    // A fault is the text's fault, and the text's fault is returned, unless memory runs out.
    ensures fault { (f : FumenFault) → result ≡ Err (Refused.Fault f) → IsTextFault text.now f }
    ensures fault_only { (f : FumenFault) → IsTextFault text.now f →
        Gives {Y = Dialect × List Page} (λ x. (x.0, x.1.items)) (λ f. f) result (Err f) }

    // Memory cannot run out for a text without a prefix.
    ensures memory { result ≡ Err Refused.NoMemory → digits_in text.now ≢ None }
{
    read_text(alloc, text)
}

fn read_text(alloc: Global, text: &[u8]) -> Result<(Dialect, Vec<Page>), Refused<FumenFault>>
    ensures exact { Gives (λ x. (x.0, x.1.items)) (λ f. f) result (text_pages text.now) }
    ensures memory { result ≡ Err Refused.NoMemory → digits_in text.now ≢ None }
{
    let framed = digits_of(alloc, text)?;
    let Some((dialect, digits)) = framed else {
        return Err(Refused::Fault(FumenFault::NoFumen));
    };
    let pages = read_pages(alloc, dialect, &digits)?;
    Ok((dialect, pages))
}
