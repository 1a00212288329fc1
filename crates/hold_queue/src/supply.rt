// How many pieces of one kind there are: in a pattern, held, and played.
ghost use Rattle.std.specs.Prelude.{◌≡◌, ◌≤◌, ◌-◌, ◌==◌, length, count_by};
ghost use Rattle.queue_pattern.specs.Queues.{is_in};
ghost use Rattle.srs.specs.Piece.{piece_code};
ghost use Rattle.queue_pattern.specs.Pattern.{elements_of};
ghost use Rattle.hold_queue.specs.Supply;

use crate::hold::Hold;
use queue_pattern::Pattern;
use srs::Piece;

/// How many elements have this piece in their set.
pub fn elements_with(pattern: &Pattern, piece: Piece) -> u8
    ensures value { result ≡ count_by (λ element. is_in piece element.set) (elements_of pattern.now) }
    ensures few { result ≤ 22 }
{
    let mut count = 0;
    for index in 0..pattern.elements() {
        count += u8::from(pattern.element(index).has(piece));
    }
    count
}

/// 1 if hold is allowed and this piece is held at the start, else 0.
pub fn from_hold(hold: Hold, held: Option<Piece>, piece: Piece) -> u8
    ensures value { result ≡ Supply.from_hold hold held piece }
    ensures small { result ≤ 1 }
{
    match hold.playable(held) {
        Some(held) => u8::from(held.code() == piece.code()),
        None => 0,
    }
}

/// How many of the played pieces are of this kind.
pub fn count_played(played: &[Piece], piece: Piece) -> u8
    requires { length played.now ≤ 23 }
    ensures { result ≡ count_by (λ other. piece_code other == piece_code piece) played.now }
{
    let code = piece.code();
    played.iter().filter(|other| other.code() == code).count() as u8
}
