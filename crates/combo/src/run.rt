// Runs of placements.
ghost use Rattle.std.specs.Prelude.{◌≡◌, ◌+◌, ◌≤◌, ◌∷◌};
ghost use Rattle.arrayvec.specs.ArrayVec.{array_vec_len};

use arrayvec::ArrayVec;
use srs::Placement;

/// A run of placements: at most the 22 pieces of a queue and a held one.
pub type Run = ArrayVec<Placement, 23>;

/// A run that begins with this placement.
pub fn with_first(placement: Placement, rest: &Run) -> Run
    requires { array_vec_len rest.now + 1 ≤ 23 }
    ensures { result.items ≡ placement ∷ rest.now.items }
{
    let mut run = Run::new();
    run.push(placement);
    run.try_extend_from_slice(rest.as_slice()).unwrap();
    run
}
