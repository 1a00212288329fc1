// Positions that were searched: a field and the pieces at hand.
ghost use Rattle.std.specs.Prelude.{◌≡◌, ◌≤◌, IsTrue};
ghost use Rattle.well.specs.Well.{filled};

use hold_queue::Hand;
use well::Well;

/// A field and pieces at hand that permit no run of `count` placements or more.
#[derive(Clone, Copy)]
pub struct SearchedPosition {
    pub(crate) well: Well,
    pub(crate) hand: Hand,
    pub(crate) count: u8,
}

impl SearchedPosition {
    /// This field and these pieces at hand, which permit no run of `count` placements.
    pub fn new(well: &Well, hand: Hand, count: u8) -> SearchedPosition
        ensures { result ≡ record {
          well = well.now;
          hand = hand;
          count = count;
        } }
    {
        SearchedPosition {
            well: *well,
            hand,
            count,
        }
    }

    /// Whether this says that this field and these pieces at hand permit no run of `count` placements.
    pub fn says(&self, well: &Well, hand: Hand, count: u8) -> bool
        ensures well { IsTrue result → filled self.now.well ≡ filled well.now }
        ensures hand { IsTrue result → self.now.hand ≡ hand }
        ensures count { IsTrue result → self.now.count ≤ count }
    {
        if self.hand != hand || count < self.count {
            return false;
        }
        self.well.board().equal(&well.board())
    }
}
