// Reading a sequence of a given length from its text.
ghost use Rattle.std.specs.Prelude.{◌≡◌, ◌≤◌, ◌==◌, ◌&&◌, nat_lt, IfOk};
ghost use Rattle.arrayvec.specs.ArrayVec.{array_vec_len};
ghost use Rattle.sequence_text.specs.Reading.{may_end, sequence_in, sequence_reading};

use crate::reading::Reading;
use problem::Sequence;

/// Whether a blank and another placement may follow.
fn goes_on(now: Reading, left: u8) -> bool
    ensures { result ≡ (may_end now.due && nat_lt 0 left) }
{
    now.may_end() && left > 0
}

/// Whether all placements have been read.
fn is_whole(now: Reading, left: u8) -> bool
    ensures { result ≡ (may_end now.due && left == 0) }
{
    now.may_end() && left == 0
}

/// The sequence of `needed` placements that a text spells. A refusal is the length in bytes of its longest front that
/// begins the text of such a sequence.
pub fn sequence_in(needed: u8, text: &[u8]) -> Result<Sequence, usize>
    requires { needed ≤ 22 }
    ensures value { sequence_reading result ≡ sequence_in needed text.now }
    ensures len { IfOk result (λ sequence. array_vec_len sequence ≡ needed) }
{
    let mut read = Sequence::new();
    if needed == 0 {
        return if text.is_empty() { Ok(read) } else { Err(0) };
    }
    let mut left = needed - 1;
    let mut now = Reading::unread();
    for (place, byte) in text.iter().enumerate() {
        if *byte == b' ' {
            if !goes_on(now, left) {
                return Err(place);
            }
            read.push(now.placement);
            left -= 1;
            now = Reading::unread();
        } else {
            match now.step(*byte) {
                Some(next) => now = next,
                None => return Err(place),
            }
        }
    }
    if !is_whole(now, left) {
        return Err(text.len());
    }
    read.push(now.placement);
    Ok(read)
}
