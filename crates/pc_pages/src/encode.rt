// The command `encode`: the fumen text of the pages whose lines are in the source.
ghost use Rattle.std.specs.Prelude.{◌≡◌, ◌<◌, ◌++◌, [], ◌∷◌, None, Err, IfOk, IfErr, OnOk};
ghost use Rattle.pc_outside.specs.declared.answers.Refused.{Refused};
ghost use Rattle.fumen_pages.specs.declared.list_fault.ListFault.{ListFault};
ghost use Rattle.pc_faults.specs.declared.status.Status.{Status};
ghost use Rattle.page_list.specs.LineSpelling.{IsListFault, SpellsPages};
ghost use Rattle.page_list.specs.ListReading.{pages_in};
ghost use Rattle.pc_source.specs.Statuses.{IsAnswered};
ghost use Rattle.pc_source.specs.Had.{IsRefusedInput};
ghost use Rattle.pc_source.specs.Sink.{sink_change};
ghost use Rattle.pc_pages.specs.Faults.{encode_fault, lines_fault};
ghost use Rattle.pc_pages.specs.Output.{IsEncodeOutput};
ghost use Rattle.pc_pages.specs.Tasks.{encode_task};

use fumen_digits::Dialect;
use fumen_pages::Page;
use fumen_text::encode;
use page_list::parse;
use pc_faults::{Fault, Status};
use pc_outside::{Refused, Sink, write_pieces};
use std::alloc::Global;

/// Reads the bytes as a list of pages, and writes their fumen text in a dialect, and a newline.
pub fn run_encode<O: Sink>(alloc: Global, dialect: Dialect, bytes: &[u8], out: &mut O) -> Status
    ensures answers { let sink = sink_change O.counts_failures_alone (O.written out.old) (O.written out.new)
        (O.faults out.old) (O.faults out.new) in
        IsAnswered (encode_task dialect) bytes.now sink (out.new ≡ out.old) 0 result }
    ensures memory { result ≡ Status.NoMemory → (f : ListFault) → IsListFault bytes.now f → 1 < f.line }
{
    match encoded(alloc, dialect, bytes) {
        Ok(text) => Status::after_writes(write_pieces(out, &[&text, b"\n"])),
        Err(refused) => Status::from(refused),
    }
}

/// The pages whose lines the bytes are. A refusal is their first fault, or that memory ran out.
fn list_pages(alloc: Global, bytes: &[u8]) -> Result<Vec<Page>, Refused<Fault>>
    ensures pages { IfOk result (λ pages. SpellsPages bytes.now pages.items) }
    ensures refused { IfErr result (λ refused. IsRefusedInput (lines_fault (pages_in bytes.now)) refused) }
    ensures memory { result ≡ Err Refused.NoMemory → (f : ListFault) → IsListFault bytes.now f → 1 < f.line }
{
    match parse(alloc, bytes) {
        Ok(pages) => Ok(pages),
        Err(Refused::Fault(fault)) => Err(Refused::Fault(Fault::List(fault))),
        Err(Refused::NoMemory) => Err(Refused::NoMemory),
    }
}

/// The fumen text of the pages whose lines the bytes are. A refusal is the first fault, or that memory ran out.
fn encoded(alloc: Global, dialect: Dialect, bytes: &[u8]) -> Result<Vec<u8>, Refused<Fault>>
    ensures text { IfOk result (λ text. IsEncodeOutput dialect bytes.now (text.items ++ 10 ∷ [])) }
    ensures none { OnOk result (encode_fault dialect bytes.now ≡ None) }
    ensures refused { IfErr result (λ refused. IsRefusedInput (encode_fault dialect bytes.now) refused) }
    ensures memory { result ≡ Err Refused.NoMemory → (f : ListFault) → IsListFault bytes.now f → 1 < f.line }
{
    let pages = list_pages(alloc, bytes)?;
    match encode(alloc, dialect, &pages) {
        Ok(text) => Ok(text),
        Err(Refused::Fault(fault)) => Err(Refused::Fault(Fault::Encode(fault))),
        Err(Refused::NoMemory) => Err(Refused::NoMemory),
    }
}
