// What stays the same in a search.
ghost use Rattle.std.specs.Prelude.{◌↔◌, IsTrue};

use hold_queue::Hold;
use moves::DropMode;
use srs::Rules;

/// The kick rules, the drop mode and the hold rule.
#[derive(Clone, Copy)]
pub struct Game {
    pub rules: Rules,
    pub drop_mode: DropMode,
    pub hold: Hold,
}

impl Game {
    ghost use Rattle.percent.specs.BuiltHands.{IsHardSrs};

    /// Whether nothing may lie above a placement: with hard drops by the Super Rotation System.
    pub fn drops(&self) -> bool
        ensures { IsTrue result ↔ IsHardSrs self.now }
    {
        match self.drop_mode {
            DropMode::Hard => self.rules.is_srs(),
            DropMode::Soft => false,
        }
    }
}
