// The lines that `selfrun` writes.
ghost use Rattle.std.specs.Prelude.{◌≡◌};
ghost use Rattle.pc_outside.specs.Counts.{HasCause};
ghost use Rattle.pc_outside.specs.Writes.{WritesAll};
ghost use Rattle.pc_selfrun.specs.Lines.{selfrun_form, yes_or_no};

use itoa::Buffer;
use pc_outside::{Failed, Sink, write_pieces};

/// The findings of `selfrun`.
#[derive(Clone, Copy, Debug)]
pub struct Findings {
    /// How many pages were made.
    pub pages: u32,
    /// How many bytes their fumen text has.
    pub bytes: usize,
    /// Whether that text reads as the pages.
    pub same: bool,
    /// The column that was drawn after the pages.
    pub column: u8,
    /// How many solutions its problem has.
    pub solutions: u64,
}

fn yes_or_no(yes: bool) -> &'static [u8]
    ensures { result.now ≡ yes_or_no yes }
{
    if yes { b"yes" } else { b"no" }
}

/// Writes the findings as five lines.
pub fn write_findings<O: Sink>(out: &mut O, found: &Findings) -> Result<(), Failed>
    ensures written { WritesAll (O.written out.old) (O.written out.new) result
        (selfrun_form found.now.pages found.now.bytes found.now.same found.now.column found.now.solutions) }
    ensures cause { HasCause O.counts_failures_alone (O.faults out.old) (O.faults out.new) result }
{
    let mut pages = Buffer::new();
    let mut bytes = Buffer::new();
    let mut column = Buffer::new();
    let mut solutions = Buffer::new();
    write_pieces(
        out,
        &[
            b"pages ",
            pages.format(found.pages).as_bytes(),
            b"\nbytes ",
            bytes.format(found.bytes).as_bytes(),
            b"\nsame ",
            yes_or_no(found.same),
            b"\ncolumn ",
            column.format(found.column).as_bytes(),
            b"\nsolutions ",
            solutions.format(found.solutions).as_bytes(),
            b"\n",
        ],
    )
}
