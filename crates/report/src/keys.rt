// The keys that are written with placements.
ghost use Rattle.std.specs.Prelude.{◌≡◌, false, IsTrue, option_map};
ghost use Rattle.srs.specs.Cells.{is_inside_of};
ghost use Rattle.srs.specs.Kick.{srs_table};
ghost use Rattle.srs.specs.Rules.{table_of};
ghost use Rattle.well.specs.Well.{filled};
ghost use Rattle.report.specs.Forms.{key_part};

use key_path::{Finder, KeyWord};
use moves::DropMode;
use pc_outside::NoMemory;
use srs::{Placement, Rules};
use std::alloc::Global;
use well::Well;

/// The keys that are written with placements: the key word of each one if keys are asked for, otherwise none.
#[derive(Drop)]
pub struct WrittenKeys {
    finder: Option<Finder>,
}

impl WrittenKeys {
    ghost use Rattle.std.specs.Prelude.{IfOk, IsOk};
    ghost use Rattle.report.specs.Keys.{HasFoundNone, has_keys};

    /// Keys of which none was found yet. `NoMemory` if there is not enough memory to find them; if none are asked for,
    /// no memory is needed.
    pub fn new(alloc: Global, asked: bool) -> Result<WrittenKeys, NoMemory>
        ensures keys { IfOk result (λ keys. has_keys keys ≡ asked) }
        ensures new { IfOk result HasFoundNone }
        ensures none { asked ≡ false → IsOk result }
    {
        if !asked {
            return Ok(WrittenKeys { finder: None });
        }
        match Finder::new(alloc) {
            Ok(finder) => Ok(WrittenKeys {
                finder: Some(finder),
            }),
            Err(none) => Err(none),
        }
    }

    /// Whether keys are written.
    pub(crate) fn are_asked(&self) -> bool
        ensures { result ≡ has_keys self.now }
    {
        self.finder.is_some()
    }

    /// Whether keys are found by the offsets of the Super Rotation System.
    pub(crate) fn are_srs(&self, rules: &Rules) -> bool
        ensures { IsTrue result → table_of rules.now ≡ srs_table }
    {
        self.finder.is_some() && rules.is_srs()
    }

    /// The keys of a placement in the field before it.
    pub(crate) fn word_of(
        &mut self,
        well: &Well,
        rules: &Rules,
        is_srs: bool,
        placement: &Placement,
        drop_mode: DropMode,
    ) -> Option<KeyWord>
        requires inside { IsTrue (is_inside_of placement.now) }
        requires known { IsTrue is_srs → table_of rules.now ≡ srs_table }
        ensures word { option_map (λ word. word.items) result
            ≡ key_part (has_keys self.old) (table_of rules.now) drop_mode (filled well.now) placement.now }
        ensures keys { has_keys self.new ≡ has_keys self.old }
    {
        let Some(finder) = &mut self.finder else {
            return None;
        };
        if is_srs {
            return finder.find_by_srs(well, placement, drop_mode);
        }
        finder.find(well, rules, placement, drop_mode)
    }
}
