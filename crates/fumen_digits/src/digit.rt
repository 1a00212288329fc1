// One digit and its value.
ghost use Rattle.std.specs.Prelude.{◌≡◌, ◌<◌, IfSome};
ghost use Rattle.fumen_digits.specs.Digit.{digit, digit_value};

/// The digit for a value below 64. Fumen's digits are `A-Z`, `a-z`, `0-9`, `+` and `/`, in this order.
#[tactic(auto, using(crate::proofs::DigitTable::digit_by_range))]
pub fn digit_of(value: u8) -> u8
    requires { value < 64 }
    ensures { result ≡ digit value }
{
    match value {
        0..=25 => b'A' + value,
        26..=51 => b'a' + (value - 26),
        52..=61 => b'0' + (value - 52),
        62 => b'+',
        _ => b'/',
    }
}

/// The value of a digit. `None` if the byte is not a digit.
#[tactic(auto, using(crate::proofs::DigitTable::value_by_range))]
pub fn digit_value(byte: u8) -> Option<u8>
    ensures value { result ≡ digit_value byte }
    ensures small { IfSome result (λ value. value < 64) }
{
    match byte {
        b'A'..=b'Z' => Some(byte - b'A'),
        b'a'..=b'z' => Some(byte - b'a' + 26),
        b'0'..=b'9' => Some(byte - b'0' + 52),
        b'+' => Some(62),
        b'/' => Some(63),
        _ => None,
    }
}
