// The queues that follow a queue and begin with the same pieces.
ghost use Rattle.std.specs.Prelude.{◌≡◌, ◌<◌, ◌≤◌, IsTrue, length, take, Some, slice_get};
ghost use Rattle.queue_pattern.specs.Pattern.{elements_of};
ghost use Rattle.queue_pattern.specs.Queues.{queues};
ghost use Rattle.hold_queue.specs.Hand.{HasSameFront};
ghost use Rattle.cover.specs.Fronts.{ShareFront};

use queue_pattern::laws::queues_rise;
use queue_pattern::{Pattern, Queue};
use srs::Piece;

/// The first `count` pieces, or all if there are fewer.
fn front(pieces: &[Piece], count: usize) -> &[Piece]
    ensures { result.now ≡ take count pieces.now }
{
    &pieces[..count.min(pieces.len())]
}

/// Whether the first `count` pieces of two queues are the same.
fn has_same_front(queue: &[Piece], other: &[Piece], count: usize) -> bool
    ensures { IsTrue result → HasSameFront count queue.now other.now }
{
    front(other, count) == front(queue, count)
}

/// A number above `number`: every queue from `number` up to it, not included, has the queue's first `count` pieces. It
/// is the number of queues if all further queues have them. The steps grow while they find such queues, and shrink
/// after that.
pub fn end_of_front(pattern: &Pattern, number: u32, queue: &Queue, count: usize) -> u32
    requires { slice_get (queues (elements_of pattern.now)) number ≡ Some queue.now.items }
    ensures after { number < result }
    ensures within { result ≤ length (queues (elements_of pattern.now)) }
    ensures same { ShareFront (queues (elements_of pattern.now)) count queue.now.items number result }
{
    queues_rise();
    let mut last = number;
    let mut end = pattern.count();
    let mut step = 1;
    while end - last > 1 {
        let next = last + ((end - last) / 2).min(step);
        let other = pattern.queue(next);
        if has_same_front(queue.as_slice(), other.as_slice(), count) {
            step = 2 * (next - last);
            last = next;
        } else {
            end = next;
        }
    }
    end
}
