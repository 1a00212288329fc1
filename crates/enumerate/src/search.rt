// The search for solutions.
ghost use Rattle.std.specs.Prelude.{◌≡◌, ◌-◌, ◌≤◌, IsTrue, filter, take, None};
ghost use Rattle.srs.specs.Order.{sequence_cmp};
ghost use Rattle.srs.specs.Rules.{table_of};
ghost use Rattle.srs.specs.Rising.{is_above};
ghost use Rattle.reach.specs.FloodRules.{flood_table};
ghost use Rattle.problem.specs.Problem.{IsFit};
ghost use Rattle.enumerate.specs.Counted.{as_count};
ghost use Rattle.enumerate.specs.Events.{found, floods};
ghost use Rattle.enumerate.specs.Frames.{has_room};
ghost use Rattle.enumerate.specs.Items.{items_of};
ghost use Rattle.enumerate.specs.Rest.{events_from, whole_from};

use crate::frame::Frame;
use crate::notes::Notes;
use problem::{Problem, Sequence};
use queue_pattern::Queue;
use reach::FloodRules;

/// A search for the solutions of a problem, in rising order.
#[derive(Drop)]
pub struct Search {
    pub(crate) problem: Problem,
    /// The rules of the problem, prepared for many floods.
    pub(crate) rules: FloodRules,
    pub(crate) queue: Option<Queue>,
    pub(crate) after: Option<Sequence>,
    pub(crate) bound: Option<Sequence>,
    /// Whether the search still has to go to its start.
    pub(crate) pending: bool,
    pub(crate) frames: [Frame; 20],
    /// How many frames are in use.
    pub(crate) depth: usize,
    pub(crate) notes: Notes,
    ghost fit: { IsFit problem },
    ghost same_rules: { flood_table rules ≡ table_of problem.rules },
    ghost within: { depth ≤ 20 },
    ghost room: { IsTrue (has_room 0 (take depth frames)) },
    ghost listed: { found (events_from problem (items_of queue) (items_of after) pending (take depth frames))
        ≡ filter (is_above sequence_cmp (items_of bound)) (found (whole_from problem (items_of queue) None)) },
    ghost counted: { floods (events_from problem (items_of queue) (items_of after) pending (take depth frames))
        ≤ floods (whole_from problem (items_of queue) (items_of after)) },
    ghost noted: { notes.floods ≡ as_count (floods (whole_from problem (items_of queue) (items_of after))
        - floods (events_from problem (items_of queue) (items_of after) pending (take depth frames))) },
}
