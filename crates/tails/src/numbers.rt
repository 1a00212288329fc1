// Tails as numbers: the state, the held piece, and the place among the state's tails.
ghost use Rattle.std.specs.Prelude.{◌≡◌, ◌^◌, ◌<◌};
ghost use Rattle.tails.specs.Numbers;

/// The number of a tail: its state, the code of the held piece and its place among the state's tails.
#[inline(always)]
pub(crate) fn tail_number(state: u16, held: u8, place: u32) -> u64
    requires { held < 8 }
    ensures { result ≡ Numbers.tail_number state held place }
{
    (u64::from(state) * 8 + u64::from(held)) << 32 | u64::from(place)
}

/// The state of a tail, the code of the held piece and the place among the state's tails.
#[inline(always)]
pub(crate) fn parts_of(tail: u64) -> (u16, u8, u32)
    requires { tail < 2 ^ 51 }
    ensures state { result.0 ≡ Numbers.state_of tail }
    ensures held { result.1 ≡ Numbers.held_of tail }
    ensures place { result.2 ≡ Numbers.place_of tail }
{
    let front = tail >> 32;
    (
        (front / 8) as u16,
        (front % 8) as u8,
        (tail % (1 << 32)) as u32,
    )
}
