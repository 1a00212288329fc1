// Random numbers from a state of 64 bits: a linear congruential generator with Knuth's multiplier for MMIX.
ghost use Rattle.std.specs.Prelude.{◌≡◌, ◌<◌};
ghost use Rattle.sample_pages.specs.Draws.{draw, next_state, state_after_draws};

/// The state after one draw.
fn next_state(state: u64) -> u64
    ensures { result ≡ next_state state }
{
    state
        .wrapping_mul(6_364_136_223_846_793_005)
        .wrapping_add(1_442_695_040_888_963_407)
}

/// The state after this many draws.
pub fn state_after_draws(count: u8, state: u64) -> u64
    ensures { result ≡ state_after_draws count state }
{
    let mut after = state;
    for _ in 0..count {
        after = next_state(after);
    }
    after
}

/// The draw with this number, counted from 1, below a bound.
pub fn draw(state: u64, number: u8, below: u32) -> u32
    requires { 0 < below }
    ensures value { result ≡ draw state number below }
    ensures within { result < below }
{
    ((state_after_draws(number, state) >> 33) % u64::from(below)) as u32
}
