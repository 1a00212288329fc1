// A bit for each queue.
ghost use Rattle.std.specs.Prelude.{◌≡◌, ℕ, ◌+◌, ◌<◌, ◌≤◌, ◌==◌, false, length, take, drop, slice_index_or};
ghost use Rattle.std.specs.Int.{bit_at};
ghost use Rattle.queue_pattern.specs.Pattern.{elements_of};
ghost use Rattle.queue_pattern.specs.Queues.{queues};
ghost use Rattle.problem.specs.Problem.{IsFit};
ghost use Rattle.percent.specs.Answers.{problem_of};
ghost use Rattle.pc_good_queues.specs.Bits.{AreBitsOf};
ghost use Rattle.pc_good_queues.specs.Bits;
ghost use Rattle.pc_good_queues.specs.Flags.{flags_of};

use percent::Answers;

/// How many bytes the bits of so many queues take.
pub fn bytes_for(count: u32) -> usize
    ensures { result ≡ Bits.bytes_for count }
{
    (count as usize + 7) / 8
}

/// Whether there is a queue with this number, counted from 0, and it is good. `count` is how many queues there are.
fn is_good_one(answers: &Answers, count: u32, number: u32) -> bool
    requires fit { IsFit (problem_of answers.now) }
    requires all { count ≡ length (queues (elements_of (problem_of answers.now).pattern)) }
    ensures { result ≡ slice_index_or (flags_of (problem_of answers.now)) number false }
{
    number < count && answers.is_good(number)
}

/// The byte whose lowest bit is that of the queue with this number. `count` is how many queues there are.
fn byte_from(answers: &Answers, count: u32, first: u32) -> u8
    requires fit { IsFit (problem_of answers.now) }
    requires all { count ≡ length (queues (elements_of (problem_of answers.now).pattern)) }
    requires low { first ≤ 10000000 }
    ensures { (bit : ℕ) → bit < 8
        → (bit_at result bit == 1) ≡ slice_index_or (flags_of (problem_of answers.now)) (first + bit) false }
{
    let mut byte = 0u8;
    for bit in 0..8 {
        if is_good_one(answers, count, first + bit) {
            byte |= 1 << bit;
        }
    }
    byte
}

/// Writes the bits of all queues to the first bytes of `bits`. `count` is how many queues there are.
pub(crate) fn write_bits(answers: &Answers, count: u32, bits: &mut [u8])
    requires fit { IsFit (problem_of answers.now) }
    requires all { count ≡ length (queues (elements_of (problem_of answers.now).pattern)) }
    requires few { count ≤ 10000000 }
    requires room { Bits.bytes_for count ≤ length bits.old }
    ensures bits { AreBitsOf (flags_of (problem_of answers.now)) (take (Bits.bytes_for count) bits.new) }
    ensures rest { drop (Bits.bytes_for count) bits.new ≡ drop (Bits.bytes_for count) bits.old }
{
    for index in 0..bytes_for(count) {
        bits[index] = byte_from(answers, count, 8 * index as u32);
    }
}
