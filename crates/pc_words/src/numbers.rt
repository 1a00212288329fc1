// Numbers in the words: one to ten decimal digits, within a range.
ghost use Rattle.std.specs.Prelude.{◌≡◌, ◌≤◌, length, IfSome, IsTrue};
ghost use Rattle.pc_words.specs.Numbers.{is_digits, is_number, digits_value, number_in};

/// The number that digits spell.
#[tactic(auto, unfolding(crate::specs::Numbers::digits_value))]
fn value_of(digits: &[u8]) -> u64
    requires digits { IsTrue (is_digits digits.now) }
    requires few { length digits.now ≤ 10 }
    ensures { result ≡ digits_value digits.now }
{
    let mut value = 0;
    for digit in digits {
        value = 10 * value + u64::from(*digit - b'0');
    }
    value
}

fn are_digits(text: &[u8]) -> bool
    ensures { result ≡ is_digits text.now }
{
    text.iter().all(|byte| byte.is_ascii_digit())
}

fn is_number(text: &[u8]) -> bool
    ensures { result ≡ is_number text.now }
{
    !text.is_empty() && text.len() <= 10 && are_digits(text)
}

/// The number that a text of one to ten digits spells, if it is at least `least` and at most `most`.
pub fn number_in(least: u32, most: u32, text: &[u8]) -> Option<u32>
    ensures value { result ≡ number_in least most text.now }
    ensures within { IfSome result (λ number. (least ≤ number) × (number ≤ most)) }
{
    if !is_number(text) {
        return None;
    }
    let value = value_of(text);
    if value < u64::from(least) || value > u64::from(most) {
        return None;
    }
    Some(value as u32)
}
