// The kinds of a sequence.
ghost use Rattle.std.specs.Prelude.{◌≡◌};
ghost use Rattle.problem.specs.Solution.{pieces_of};

use arrayvec::ArrayVec;
use problem::Sequence;
use srs::Piece;

/// The kinds of the placements of a sequence, in order.
pub type Kinds = ArrayVec<Piece, 22>;

/// The kinds of a sequence.
pub fn kinds_of(sequence: &Sequence) -> Kinds
    ensures { result.items ≡ pieces_of sequence.now.items }
{
    let mut kinds = Kinds::new();
    'placements: for placement in sequence.as_slice() {
        kinds.push(placement.piece);
    }
    kinds
}
