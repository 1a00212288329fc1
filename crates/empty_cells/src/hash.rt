// By which number a store keeps a question.

use crate::empties::Empties;
use crate::supply::SupplyWord;

/// A number that differs for most questions.
pub fn hash_of(cells: &Empties, supply: SupplyWord) -> u64 {
    let counts = supply.counts;
    let mixed = (cells.mixed() ^ counts.rotate_left(29)).wrapping_mul(0x9e37_79b9_7f4a_7c15);
    let hash = (mixed ^ mixed >> 32 ^ counts).wrapping_mul(0xd6e8_feb8_6659_fd93);
    hash >> 32
}
