// Writing the text of a placement.
ghost use Rattle.std.specs.Prelude.{◌≡◌, ◌+◌, ◌≤◌, ◌++◌, ◌∷◌, [], decimal};
ghost use Rattle.arrayvec.specs.ArrayVec.{array_vec_len};
ghost use Rattle.srs.specs.Piece.{piece_letter};
ghost use Rattle.srs.specs.Rotation.{rotation_letter};
ghost use Rattle.placement_form.specs.Form.{placement_form};

use arrayvec::ArrayVec;
use itoa::Buffer;
use srs::Placement;

/// The bytes of a placement's text.
pub type PlacementText = ArrayVec<u8, 10>;

/// Appends the digits of a number. Nearly all columns and rows have one digit, which is written without a buffer.
fn push_decimal(text: &mut PlacementText, number: u8)
    requires { array_vec_len text.old ≤ 7 }
    ensures items { text.new.items ≡ text.old.items ++ decimal number }
    ensures len { array_vec_len text.new ≤ array_vec_len text.old + 3 }
{
    if number < 10 {
        text.push(b'0' + number);
        return;
    }
    let mut digits = Buffer::new();
    text.try_extend_from_slice(digits.format(number).as_bytes())
        .unwrap()
}

/// The letters of the piece and the rotation, and a colon.
fn letters(placement: &Placement) -> PlacementText
    ensures items { result.items ≡ piece_letter placement.now.piece ∷ rotation_letter placement.now.rotation ∷ 58 ∷ [] }
    ensures len { array_vec_len result ≡ 3 }
{
    let mut text = PlacementText::new();
    text.push(placement.piece.letter());
    text.push(placement.rotation.letter());
    text.push(b':');
    text
}

/// The text of a placement: the letters of its piece and its rotation, a colon, and the column, a comma and the row of
/// its pivot, as in `T0:4,0`.
#[tactic(auto, unfolding(crate::specs::Form::placement_form))]
pub fn placement_text(placement: &Placement) -> PlacementText
    ensures items { result.items ≡ placement_form placement.now }
    ensures len { array_vec_len result ≤ 10 }
{
    let mut text = letters(placement);
    push_decimal(&mut text, placement.x);
    text.push(b',');
    push_decimal(&mut text, placement.y);
    text
}
