// Writing a solution in the format that is asked for.
ghost use Rattle.std.specs.Prelude.{◌≡◌, ◌≢◌, Err, IfOk, IsOk};
ghost use Rattle.pc_outside.specs.Writes.{WritesAll};
ghost use Rattle.problem.specs.Solution.{PlaysIn};
ghost use Rattle.line_writing.specs.WriteCause.{HasWriteCause};
ghost use Rattle.pc_path.specs.Writer.{IsNewForm, format_of};

use line_writing::WriteFault;
use pc_outside::{NoMemory, Sink};
use pc_settings::Format;
use problem::{Problem, Sequence};
use report::{FumenWriter, WrittenKeys, write_grid, write_line};
use std::alloc::Global;

/// A format, with the memory that it needs.
#[derive(Drop)]
pub enum FormWriter {
    Text,
    Fumen(FumenWriter),
    Grid,
}

/// The writer of a format, which has written nothing yet. `NoMemory` if there is not enough memory for the pages of a
/// fumen text; the other formats need none.
fn form_for(alloc: Global, format: Format) -> Result<FormWriter, NoMemory>
    ensures form { IfOk result (λ writer. format_of writer ≡ format) }
    ensures new { IfOk result IsNewForm }
    ensures none { format ≢ Format.Fumen → IsOk result }
{
    match format {
        Format::Text => Ok(FormWriter::Text),
        Format::Grid => Ok(FormWriter::Grid),
        Format::Fumen => match FumenWriter::new(alloc) {
            Ok(writer) => Ok(FormWriter::Fumen(writer)),
            Err(none) => Err(none),
        },
    }
}

/// A writer of solutions in one format, with the keys that are written with placements.
#[derive(Drop)]
pub struct SolutionWriter {
    form: FormWriter,
    keys: WrittenKeys,
}

impl SolutionWriter {
    ghost use Rattle.std.specs.Prelude.{false};
    ghost use Rattle.pc_path.specs.Writer.{IsNew, asked_of, form_of};

    /// A writer that has written nothing yet. `NoMemory` if there is not enough memory for its keys or its format;
    /// without keys, a text and a grid need none.
    pub fn new(alloc: Global, format: Format, keys: bool) -> Result<SolutionWriter, NoMemory>
        ensures asked { IfOk result (λ writer. asked_of writer ≡ (format, keys)) }
        ensures new { IfOk result IsNew }
        ensures none { keys ≡ false → format ≢ Format.Fumen → IsOk result }
    {
        let keys = WrittenKeys::new(alloc, keys)?;
        let form = form_for(alloc, format)?;
        Ok(SolutionWriter { form, keys })
    }

    /// Writes a solution.
    pub fn write<O: Sink>(
        &mut self,
        alloc: Global,
        out: &mut O,
        problem: &Problem,
        sequence: &Sequence,
    ) -> Result<(), WriteFault>
        requires { PlaysIn problem.now sequence.now.items }
        ensures written { WritesAll (O.written out.old) (O.written out.new) result
            (form_of self.old problem.now sequence.now.items) }
        ensures cause { HasWriteCause O.counts_failures_alone (O.faults out.old) (O.faults out.new) result }
        ensures memory { result ≡ Err WriteFault.NoMemory → (asked_of self.old).0 ≡ Format.Fumen }
        ensures same { asked_of self.new ≡ asked_of self.old }
    {
        match &mut self.form {
            FormWriter::Text => Ok(write_line(out, problem, sequence, &mut self.keys)?),
            FormWriter::Grid => Ok(write_grid(out, problem, sequence, &mut self.keys)?),
            FormWriter::Fumen(writer) => {
                writer.write_line(alloc, out, problem, sequence, &mut self.keys)
            }
        }
    }
}
