// The command `show`: pages of the fumen text in the source, as rows of letters.
ghost use Rattle.std.specs.Prelude.{◌≡◌, ◌≢◌, ◌≤◌, All, None, length};
ghost use Rattle.fumen_digits.specs.Framing.{digits_in};
ghost use Rattle.pc_faults.specs.declared.status.Status.{Status};
ghost use Rattle.std.specs.Option.{ForSome};
ghost use Rattle.fumen_pages.specs.Lists.{most_pages};
ghost use Rattle.pc_outside.specs.Counts.{HasCause};
ghost use Rattle.pc_outside.specs.Writes.{WritesAll};
ghost use Rattle.pc_source.specs.Statuses.{IsAnswered};
ghost use Rattle.pc_source.specs.Had.{IsShowable};
ghost use Rattle.pc_source.specs.Sink.{sink_change};
ghost use Rattle.pc_pages.specs.Output.{shown_from};
ghost use Rattle.pc_pages.specs.Tasks.{show_task};

use fumen_pages::Page;
use page_show::show_page;
use pc_faults::Status;
use pc_outside::{Failed, Sink};
use pc_source::{page_at, text_pages};
use std::alloc::Global;

/// Reads the bytes as a fumen text, and writes its pages as rows of letters: all pages, or only the one with the number
/// `asked`, counted from 1.
pub fn run_show<O: Sink>(alloc: Global, asked: Option<u32>, bytes: &[u8], out: &mut O) -> Status
    requires { ForSome asked (λ number. 1 ≤ number) }
    ensures answers { let sink = sink_change O.counts_failures_alone (O.written out.old) (O.written out.new)
        (O.faults out.old) (O.faults out.new) in
        IsAnswered (show_task asked) bytes.now sink (out.new ≡ out.old) 0 result }
    ensures memory { result ≡ Status.NoMemory → digits_in bytes.now ≢ None }
{
    let pages = match text_pages(alloc, bytes) {
        Ok(pages) => pages,
        Err(refused) => return Status::from(refused),
    };
    let Some(number) = asked else {
        return Status::after_writes(show_all(out, &pages));
    };
    match page_at(&pages, number) {
        Ok(page) => Status::after_writes(show_page(out, number, page)),
        Err(fault) => Status::Input(fault),
    }
}

/// Writes all pages as rows of letters, one after the other, with their numbers from 1.
fn show_all<O: Sink>(out: &mut O, pages: &[Page]) -> Result<(), Failed>
    requires showable { All IsShowable pages.now }
    requires few { length pages.now ≤ most_pages }
    ensures written { WritesAll (O.written out.old) (O.written out.new) result (shown_from 1 pages.now) }
    ensures cause { HasCause O.counts_failures_alone (O.faults out.old) (O.faults out.new) result }
{
    for index in 0..pages.len() {
        show_page(out, index as u32 + 1, &pages[index])?;
    }
    Ok(())
}
