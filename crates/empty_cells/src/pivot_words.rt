// Sets of placements of one piece, by their pivots.
ghost use Rattle.std.specs.Prelude.{◌≡◌, ◌≤◌, ◌<◌, ◌+◌, ◌*◌, ◌/◌, ◌%◌, true, false, IsTrue};
ghost use Rattle.srs.specs.declared.placement.Placement.{Placement};
ghost use Rattle.srs.specs.Rotation.{rotation_index};

use srs::Placement;

/// Placements of one piece with the pivot in columns 0 to 15 and rows 0 to 7.
#[derive(Clone, Copy)]
pub struct PivotWords {
    /// Two words for each rotation, in the order 0, R, 2, L; four rows in each word, sixteen bits for each row.
    rotations: [u64; 8],
}

/// The word in which a placement has its bit, and the bit's index there.
#[inline(always)]
fn bit_of(placement: &Placement) -> (usize, u8)
    requires column { placement.now.x ≤ 15 }
    requires row { placement.now.y ≤ 7 }
    ensures word { result.0 ≡ 2 * rotation_index placement.now.rotation + placement.now.y / 4 }
    ensures within { result.0 < 8 }
    ensures bit { result.1 ≡ 16 * (placement.now.y % 4) + placement.now.x }
{
    let word = 2 * placement.rotation.index() + placement.y / 4;
    (usize::from(word), 16 * (placement.y % 4) + placement.x)
}

impl PivotWords {
    ghost use Rattle.lane_board.specs.Words.{cells_of_words};
    ghost use Rattle.empty_cells.specs.PivotWords.{has_placement};

    /// The empty set of placements.
    pub fn none() -> PivotWords
        ensures { (q : Placement) → has_placement result q ≡ false }
    {
        PivotWords { rotations: [0; 8] }
    }

    /// Their pivots: two words for each rotation, four rows in each word, sixteen bits for each row.
    #[inline(always)]
    pub fn words(&self) -> [u64; 8]
        ensures { (q : Placement) → has_placement self.now q
            ≡ cells_of_words result (rotation_index q.rotation) q.x q.y }
    {
        self.rotations
    }

    /// Adds a placement.
    #[inline(always)]
    pub fn add(&mut self, placement: &Placement)
        requires column { placement.now.x ≤ 9 }
        requires row { placement.now.y ≤ 7 }
        ensures added { has_placement self.new placement.now ≡ true }
        ensures kept { (q : Placement) → IsTrue (has_placement self.old q) → IsTrue (has_placement self.new q) }
        ensures only { (q : Placement) → q.piece ≡ placement.now.piece → IsTrue (has_placement self.new q)
            → has_placement self.old q ≡ false → q ≡ placement.now }
    {
        let (word, bit) = bit_of(placement);
        self.rotations[word] |= 1 << bit;
    }
}
