// Laws of the definitions: functions with an empty body whose contract is the law.
ghost use Rattle.std.specs.Prelude.{◌≡◌, ◌↔◌, ℕ, List, Result, Ok};
ghost use Rattle.srs.specs.Kick.{IsSmallTable, Table};
ghost use Rattle.kick_file.specs.declared.fault.KickFault.{KickFault};
ghost use Rattle.kick_file.specs.Faults.{IsReadAs};
ghost use Rattle.kick_file.specs.Printed.{table_form};
ghost use Rattle.kick_file.specs.Reading.{kick_text};

/// A text is read as a table exactly if it spells this table, and refused with a fault exactly if it has this fault. So
/// each text either spells one table or has one fault.
#[tactic(auto, using(crate::proofs::OneReading::read_as_spelled))]
pub fn texts_are_read_as_they_spell()
    ensures { (text : List ℕ) (read : Result Table KickFault) → (kick_text text ≡ read) ↔ IsReadAs text read }
{}

/// A printed table reads back as this table: every table of five offsets for each piece and rotation, each from -3 to
/// 3.
pub fn print_undone()
    ensures { (table : Table) → IsSmallTable table → kick_text (table_form table) ≡ Ok table }
{}
