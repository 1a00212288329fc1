// Writing the solutions that a search still has to find, one after the other.
ghost use Rattle.std.specs.Prelude.{◌≡◌, ◌*◌, ◌-◌, ◌<◌, ◌≤◌, nat_lt, min, length, take, drop, None};
ghost use Rattle.std.specs.List.{flat_map};
ghost use Rattle.placement_numbers.specs.Numbers.{sequence_numbers};
ghost use Rattle.problem.specs.Problem.{IsFit, needed_of};
ghost use Rattle.enumerate.specs.ViewOf.{after_given, solutions};
ghost use Rattle.enumerate.specs.Work.{pairs};
ghost use Rattle.pc_path.specs.Work.{IsSearchOf};
ghost use Rattle.pc_solutions.specs.Written.{most_written};

use enumerate::Search;
use placement_numbers::write_sequence;
use problem::Problem;
use reach::Steps;
use std::sync::ledger::Ledger;

/// What was written of a list of solutions.
#[derive(Clone, Copy, Debug, PartialEq, Eq)]
pub struct Written {
    /// How many solutions.
    pub count: u32,
    /// How many bytes: four for each placement.
    pub size: usize,
    /// Whether the search came to the end of the list.
    pub ended: bool,
}

/// How many solutions of so many placements may be written: as many as the limit allows and the room, in bytes, holds
/// whole.
pub(crate) fn most_written(limit: u32, room: usize, needed: u8) -> u32
    ensures { result ≡ most_written limit room needed }
{
    if needed == 0 {
        return limit;
    }
    let whole = room / (4 * usize::from(needed));
    u64::from(limit).min(whole as u64) as u32
}

/// Writes the numbers of the solutions that the search still has to find, at most so many, for which there must be
/// room.
pub(crate) fn write_list<L: Ledger>(
    problem: &Problem,
    search: &mut Search,
    most: u32,
    placements: &mut [u8],
    steps: &mut Steps<L>,
) -> Written
    requires fit { IsFit problem.now }
    requires search { IsSearchOf problem.now (after_given search.old) search.old 0 }
    requires room { most * (4 * needed_of problem.now) ≤ length placements.old }
    ensures count { result.count ≡ min most (length (solutions search.old)) }
    ensures written { take result.size placements.new
        ≡ flat_map sequence_numbers (take result.count (solutions search.old)) }
    ensures size { result.size ≡ result.count * (4 * needed_of problem.now) }
    ensures rest { drop result.size placements.new ≡ drop result.size placements.old }
    ensures ended { result.ended ≡ nat_lt (length (solutions search.old)) most }
    ensures counted { steps.old ≤ steps.new }
    ensures searched { IsSearchOf problem.now (after_given search.old) search.new (steps.new - steps.old) }
    ensures left { solutions search.new ≡ drop result.count (solutions search.old) }
    ensures whole { after_given search.old ≡ None → length (solutions search.old) < most
        → steps.new - steps.old ≡ pairs problem.now None }
{
    let mut size = 0;
    for count in 0..most {
        let Some(sequence) = search.next(steps) else {
            return Written {
                count,
                size,
                ended: true,
            };
        };
        size = write_sequence(sequence.as_slice(), placements, size);
    }
    Written {
        count: most,
        size,
        ended: false,
    }
}
