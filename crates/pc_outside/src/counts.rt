// Counts of 64 bits that stay at their greatest value, and lists of the calls that fail.
ghost use Rattle.std.specs.Prelude.{◌≡◌, ◌↔◌, IsTrue, Contains};
ghost use Rattle.pc_outside.specs.Counts.{next_count};

pub(crate) fn next_count(count: u64) -> u64
    ensures { result ≡ next_count count }
{
    count.saturating_add(1)
}

/// Whether the call with this number is one of those that fail.
pub(crate) fn is_listed(failing: &[u32], number: u64) -> bool
    ensures { IsTrue result ↔ Contains failing.now number }
{
    failing.iter().any(|listed| u64::from(*listed) == number)
}
