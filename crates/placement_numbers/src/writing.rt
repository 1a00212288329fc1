// Writing the numbers of placements.
ghost use Rattle.std.specs.Prelude.{◌≡◌, ◌+◌, ◌*◌, ◌≤◌, ◌++◌, length, take, drop};
ghost use Rattle.placement_numbers.specs.Numbers.{numbers_of, sequence_numbers};

use srs::Placement;

/// The numbers of a placement: the code of its piece (1 to 7), the index of its rotation in the order 0, R, 2, L (0 to
/// 3), and the column and the row of its pivot.
pub fn numbers_of(placement: &Placement) -> [u8; 4]
    ensures { result ≡ numbers_of placement.now }
{
    [
        placement.piece.code(),
        placement.rotation.index(),
        placement.x,
        placement.y,
    ]
}

/// Writes the numbers of these placements behind the first `at` bytes, and returns how many bytes are written then.
/// There must be room for them. The bytes behind them stay as they are.
pub fn write_sequence(placements: &[Placement], bytes: &mut [u8], at: usize) -> usize
    requires { at + 4 * length placements.now ≤ length bytes.old }
    ensures written { take result bytes.new ≡ take at bytes.old ++ sequence_numbers placements.now }
    ensures rest { drop result bytes.new ≡ drop result bytes.old }
    ensures size { result ≡ at + 4 * length placements.now }
{
    let mut at = at;
    for placement in placements {
        bytes[at..at + 4].copy_from_slice(&numbers_of(placement));
        at += 4;
    }
    at
}
