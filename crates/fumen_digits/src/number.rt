// Numbers of a fixed count of digits, least digit first.
ghost use Rattle.std.specs.Prelude.{◌≡◌, ◌≢◌, ℕ, ◌+◌, ◌^◌, ◌<◌, ◌≤◌, ◌↔◌, ◌++◌, length, take, IfOk, OnOk, OnErr, Ok, Err};
ghost use Rattle.fumen_digits.specs.declared.number.DigitFault.{DigitFault};
ghost use Rattle.fumen_digits.specs.Number.{digits, NumberStands};
ghost use Rattle.fumen_digits.specs.Reading.{value_at, number_at};
ghost use Rattle.fumen_digits.specs.Fault.{digit_fault, IsNumberFault};
ghost use Rattle.fumen_digits.specs.ReadResults.{Gives, Reads};
ghost use Rattle.pc_outside.specs.declared.answers.Refused.{Refused};

use crate::digit::{digit_of, digit_value};
use crate::fault::FumenFault;
use pc_outside::{NoMemory, Refused};

/// Why a number can't be read. A place is an index among the digits.
#[derive(Clone, Copy, Debug, PartialEq, Eq)]
pub enum DigitFault {
    /// The byte at this place is not a digit.
    Bad { place: usize },
    /// The digits end within the number that begins at this place.
    Truncated { place: usize },
}

/// Appends a number as this many digits, least first, as fumen writes its numbers. After NoMemory `out` is unchanged.
pub fn push_number(out: &mut Vec<u8>, number: u32, count: u8) -> Result<(), NoMemory>
    requires most { count ≤ 5 }
    requires fits { number < 64 ^ count }
    ensures ok { OnOk result (out.new.items ≡ out.old.items ++ digits count number) }
    ensures err { OnErr result (out.new.items ≡ out.old.items) }
{
    let spelled = spell(number, count);
    out.extend_from_slice(&spelled[..count as usize])?;
    Ok(())
}

/// The digits of a number, at the front.
fn spell(number: u32, count: u8) -> [u8; 5]
    requires { count ≤ 5 }
    ensures { take count result ≡ digits count number }
{
    let mut spelled = [0; 5];
    let mut rest = number;
    for i in 0..count {
        spelled[i as usize] = digit_of((rest % 64) as u8);
        rest /= 64;
    }
    spelled
}

/// Reads the number of this many digits at a place.
///
/// It looks at the bytes from the left. A byte that is not a digit is Bad at its own place. If a byte is missing, the
/// number is Truncated at the place where it begins.
pub fn read_number(digits: &[u8], place: usize, count: u8) -> Result<u32, DigitFault>
    requires place { place ≤ length digits.now }
    requires most { count ≤ 5 }

    // The result of reading from the left.
    ensures exact { Reads (λ n. n) digit_fault result (number_at digits.now place count) }

    // All its digits are there, and it fits them.
    ensures within { IfOk result (λ _. place + count ≤ length digits.now) }
    ensures below { IfOk result (λ n. n < 64 ^ count) }

    // It is the number that stands there, or the first fault there.
    ensures found { (n : ℕ) → (result ≡ Ok n) ↔ NumberStands digits.now place count n }
    ensures fault { (f : DigitFault) → (result ≡ Err f) ↔ IsNumberFault digits.now place count (digit_fault f) }
{
    read_digits(digits, place, count)
}

/// The same, with the fault as one of a fumen text. This never runs out of memory.
pub fn number_at(digits: &[u8], place: usize, count: u8) -> Result<u32, Refused<FumenFault>>
    requires place { place ≤ length digits.now }
    requires most { count ≤ 5 }
    ensures exact { Gives (λ n. n) (λ f. f) result (number_at digits.now place count) }
    ensures within { IfOk result (λ _. place + count ≤ length digits.now) }
    ensures memory { result ≢ Err Refused.NoMemory }
{
    match read_number(digits, place, count) {
        Ok(number) => Ok(number),
        Err(fault) => Err(Refused::Fault(FumenFault::from(fault))),
    }
}

/// The number, digit by digit.
fn read_digits(digits: &[u8], place: usize, count: u8) -> Result<u32, DigitFault>
    requires place { place ≤ length digits.now }
    requires most { count ≤ 5 }
    ensures { Reads (λ n. n) digit_fault result (number_at digits.now place count) }
{
    let mut number = 0;
    let mut weight = 1;
    for i in 0..count {
        let value = value_at(digits, place, place + i as usize)?;
        number += weight * value;
        weight *= 64;
    }
    Ok(number)
}

/// The value of the digit at `place`, in a number that begins at `start`.
#[tactic(auto, unfolding(crate::specs::Reading::value_at))]
fn value_at(digits: &[u8], start: usize, place: usize) -> Result<u32, DigitFault>
    ensures value { Reads (λ v. v) digit_fault result (value_at digits.now start place) }
    ensures small { IfOk result (λ v. v < 64) }
{
    if place >= digits.len() {
        return Err(DigitFault::Truncated { place: start });
    }
    match digit_value(digits[place]) {
        Some(value) => Ok(u32::from(value)),
        None => Err(DigitFault::Bad { place }),
    }
}
