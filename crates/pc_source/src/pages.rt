// The pages of a fumen text.
ghost use Rattle.std.specs.Prelude.{All, ◌≡◌, ◌≢◌, ◌≤◌, vec_len, None, Err, IfOk, IfErr};
ghost use Rattle.fumen_pages.specs.Lists.{most_pages};
ghost use Rattle.pc_outside.specs.declared.answers.Refused.{Refused};
ghost use Rattle.fumen_digits.specs.Framing.{digits_in};
ghost use Rattle.fumen_text.specs.Reading.{text_pages};
ghost use Rattle.pc_source.specs.Faults.{pages_fault};
ghost use Rattle.pc_source.specs.Had.{HasText, IsRefusedInput, IsShowable};

use fumen_pages::Page;
use fumen_text::decode;
use pc_faults::Fault;
use pc_outside::Refused;
use std::alloc::Global;

/// The pages of a fumen text. A refusal is its first fault, or that memory ran out.
pub fn text_pages(alloc: Global, text: &[u8]) -> Result<Vec<Page>, Refused<Fault>>
    ensures pages { IfOk result (λ pages. HasText text.now pages.items) }
    ensures showable { IfOk result (λ pages. All IsShowable pages.items) }
    ensures few { IfOk result (λ pages. vec_len pages ≤ most_pages) }
    ensures refused { IfErr result (λ refused. IsRefusedInput (pages_fault (text_pages text.now)) refused) }
    ensures memory { result ≡ Err Refused.NoMemory → digits_in text.now ≢ None }
{
    match decode(alloc, text) {
        Ok((_, pages)) => Ok(pages),
        Err(Refused::Fault(fault)) => Err(Refused::Fault(Fault::Fumen(fault))),
        Err(Refused::NoMemory) => Err(Refused::NoMemory),
    }
}
