// Writing placements, with or without keys.
ghost use Rattle.std.specs.Prelude.{◌≡◌, ◌+◌, ◌≤◌, ◌++◌, [], length, map, Some, option_copied};
ghost use Rattle.std.specs.Option.{ForSome};
ghost use Rattle.arrayvec.specs.ArrayVec.{array_vec_len};
ghost use Rattle.moves.specs.Keys.{key_letter};
ghost use Rattle.placement_form.specs.Form.{placement_form};
ghost use Rattle.sequence_text.specs.Plain.{plain_form};
ghost use Rattle.sequence_text.specs.Written.{keyed_form, keys_form, sequence_form, without_keys};

use arrayvec::ArrayVec;
use moves::Key;
use placement_form::placement_text;
use srs::Placement;

/// The bytes of a text of at most 38 placements, or of one placement with its keys.
pub type SequenceText = ArrayVec<u8, 1024>;

/// Appends bytes. There must be room for them.
pub fn push(text: &mut SequenceText, bytes: &[u8])
    requires { array_vec_len text.old + length bytes.now ≤ 1024 }
    ensures items { text.new.items ≡ text.old.items ++ bytes.now }
    ensures len { array_vec_len text.new ≡ array_vec_len text.old + length bytes.now }
{
    text.try_extend_from_slice(bytes).unwrap()
}

fn push_placement(text: &mut SequenceText, placement: &Placement)
    requires { array_vec_len text.old + 10 ≤ 1024 }
    ensures items { text.new.items ≡ text.old.items ++ placement_form placement.now }
    ensures len { array_vec_len text.new ≤ array_vec_len text.old + 10 }
{
    push(text, placement_text(placement).as_slice())
}

fn push_sequence(text: &mut SequenceText, placements: &[Placement])
    requires empty { text.old.items ≡ [] }
    requires few { length placements.now ≤ 38 }
    ensures items { text.new.items ≡ plain_form placements.now }
    ensures len { array_vec_len text.new ≤ 417 }
{
    let [first, rest @ ..] = placements else {
        return
    };
    push_placement(text, first);
    for placement in rest {
        text.push(b' ');
        push_placement(text, placement);
    }
}

/// The text of at most 38 placements without keys, as in `I0:7,0 O0:8,0`: at most 417 bytes.
pub fn sequence_text(placements: &[Placement]) -> SequenceText
    requires { length placements.now ≤ 38 }
    ensures items { result.items ≡ sequence_form (without_keys placements.now) }
    ensures len { array_vec_len result ≤ 417 }
{
    let mut text = SequenceText::new();
    push_sequence(&mut text, placements);
    text
}

fn push_letters(text: &mut SequenceText, keys: &[Key])
    requires few { length keys.now ≤ 920 }
    requires room { array_vec_len text.old ≤ 100 }
    ensures items { text.new.items ≡ text.old.items ++ map key_letter keys.now }
    ensures len { array_vec_len text.new ≤ array_vec_len text.old + 920 }
{
    for key in keys {
        text.push(key.letter());
    }
}

fn push_keys(text: &mut SequenceText, keys: &[Key])
    requires few { length keys.now ≤ 920 }
    requires room { array_vec_len text.old ≤ 20 }
    ensures { text.new.items ≡ text.old.items ++ keys_form (Some keys.now) }
{
    push(text, b":");
    push_letters(text, keys);
    push(text, b"H");
}

/// A placement after a separator of at most one byte, with at most 920 keys if there are any, as in `I0:7,0:RRRH`.
pub fn placement_with_keys(
    divider: &[u8],
    placement: &Placement,
    keys: Option<&[Key]>,
) -> SequenceText
    requires divider { length divider.now ≤ 1 }
    requires few { ForSome (option_copied keys) (λ keys. length keys ≤ 920) }
    ensures { result.items ≡ divider.now ++ keyed_form (placement.now, option_copied keys.entry) }
{
    let mut text = SequenceText::new();
    push(&mut text, divider);
    push_placement(&mut text, placement);
    if let Some(keys) = keys {
        push_keys(&mut text, keys);
    }
    text
}
