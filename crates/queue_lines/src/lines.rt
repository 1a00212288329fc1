// The lines that commands on queues write.
ghost use Rattle.std.specs.Prelude.{◌≡◌, ◌<◌, ◌≤◌, map};
ghost use Rattle.srs.specs.Piece.{piece_letter};
ghost use Rattle.pc_outside.specs.Counts.{HasCause};
ghost use Rattle.pc_outside.specs.Writes.{WritesAll};
ghost use Rattle.queue_lines.specs.Lines.{numbers_form, queue_form, rate_of};

use arrayvec::ArrayVec;
use line_writing::write_count;
use pc_outside::{Failed, Sink, write_pieces};
use queue_pattern::Queue;

/// The letters of a queue.
pub fn letters(queue: &Queue) -> ArrayVec<u8, 22>
    ensures { result.items ≡ map piece_letter queue.now.items }
{
    let mut letters = ArrayVec::new();
    'pieces: for piece in queue.as_slice() {
        letters.push(piece.letter());
    }
    letters
}

/// The share of good queues in ten-thousandths: 10,000 times the number of good ones divided by the number of all,
/// rounded down.
pub fn rate(good: u32, all: u32) -> u32
    requires some { 0 < all }
    requires within { good ≤ all }
    ensures { result ≡ rate_of good all }
{
    (10_000 * u64::from(good) / u64::from(all)) as u32
}

/// Writes the letters of a queue and a newline.
#[tactic(auto, unfolding(crate::specs::Lines::queue_form))]
pub fn write_queue<O: Sink>(out: &mut O, queue: &Queue) -> Result<(), Failed>
    ensures written { WritesAll (O.written out.old) (O.written out.new) result (queue_form queue.now.items) }
    ensures cause { HasCause O.counts_failures_alone (O.faults out.old) (O.faults out.new) result }
{
    write_pieces(out, &[letters(queue).as_slice(), b"\n"])
}

/// Writes how many queues there are, how many of them are good, and the rate.
pub fn write_numbers<O: Sink>(out: &mut O, all: u32, good: u32) -> Result<(), Failed>
    requires some { 0 < all }
    requires within { good ≤ all }
    ensures written { WritesAll (O.written out.old) (O.written out.new) result (numbers_form all good) }
    ensures cause { HasCause O.counts_failures_alone (O.faults out.old) (O.faults out.new) result }
{
    write_count(out, b"queues ", u64::from(all))?;
    write_count(out, b"good ", u64::from(good))?;
    write_count(out, b"rate ", u64::from(rate(good, all)))
}
