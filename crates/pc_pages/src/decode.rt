// The command `decode`: a line for each page of the fumen text in the source.
ghost use Rattle.std.specs.Prelude.{◌≡◌, ◌≢◌, All, None};
ghost use Rattle.fumen_digits.specs.Framing.{digits_in};
ghost use Rattle.pc_faults.specs.declared.status.Status.{Status};
ghost use Rattle.std.specs.List.{flat_map};
ghost use Rattle.line_writing.specs.WriteCause.{HasWriteCause};
ghost use Rattle.pc_outside.specs.Writes.{WritesAll};
ghost use Rattle.page_list.specs.PrintedLine.{page_form};
ghost use Rattle.pc_source.specs.Statuses.{IsAnswered};
ghost use Rattle.pc_source.specs.Had.{IsShowable};
ghost use Rattle.pc_source.specs.Sink.{sink_change};
ghost use Rattle.pc_pages.specs.Tasks.{decode_task};

use fumen_pages::Page;
use line_writing::WriteFault;
use page_list::print_page;
use pc_faults::Status;
use pc_outside::Sink;
use pc_source::text_pages;
use std::alloc::Global;

/// Reads the bytes as a fumen text, and writes a line for each of its pages.
pub fn run_decode<O: Sink>(alloc: Global, bytes: &[u8], out: &mut O) -> Status
    ensures answers { let sink = sink_change O.counts_failures_alone (O.written out.old) (O.written out.new)
        (O.faults out.old) (O.faults out.new) in
        IsAnswered decode_task bytes.now sink (out.new ≡ out.old) 0 result }
    ensures memory { result ≡ Status.NoMemory → digits_in bytes.now ≢ None }
{
    let pages = match text_pages(alloc, bytes) {
        Ok(pages) => pages,
        Err(refused) => return Status::from(refused),
    };
    Status::after_line(write_lines(alloc, out, &pages))
}

/// Writes the lines of pages, one after the other.
fn write_lines<O: Sink>(alloc: Global, out: &mut O, pages: &[Page]) -> Result<(), WriteFault>
    requires { All IsShowable pages.now }
    ensures written { WritesAll (O.written out.old) (O.written out.new) result (flat_map page_form pages.now) }
    ensures cause { HasWriteCause O.counts_failures_alone (O.faults out.old) (O.faults out.new) result }
{
    for page in pages {
        write_line(alloc, out, page)?;
    }
    Ok(())
}

fn write_line<O: Sink>(alloc: Global, out: &mut O, page: &Page) -> Result<(), WriteFault>
    requires { IsShowable page.now }
    ensures written { WritesAll (O.written out.old) (O.written out.new) result (page_form page.now) }
    ensures cause { HasWriteCause O.counts_failures_alone (O.faults out.old) (O.faults out.new) result }
{
    let line = print_page(alloc, page)?;
    out.write(&line)?;
    Ok(())
}
