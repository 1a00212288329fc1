// Key words in an empty well.
ghost use Rattle.std.specs.Prelude.{◌≡◌};

use crate::questions::is_so;
use key_path::Finder;
use moves::DropMode;
use srs::{Piece, Placement, Rotation, Rules, is_inside};
use well::Well;

/// A T in rotation 0 with its pivot in column 4.
fn t_piece(y: u8) -> Placement
    ensures x { result.x ≡ 4 }
    ensures y { result.y ≡ y }
{
    Placement {
        piece: Piece::T,
        rotation: Rotation::Spawn,
        x: 4,
        y,
    }
}

const MODES: &[DropMode] = &[DropMode::Soft, DropMode::Hard];

#[test]
fn a_floating_target_has_no_word(rt: HostRuntime) {
    let mut finder = Finder::new(rt.alloc()).expect(&rt, "memory");
    let (floating, landed) = (t_piece(5), t_piece(0));
    assert!(rt; is_inside(&floating) && is_inside(&landed));
    for drop_mode in MODES {
        let none = finder.find(&Well::empty(), &Rules::srs(), &floating, *drop_mode);
        let word = finder.find(&Well::empty(), &Rules::srs(), &landed, *drop_mode);
        let is_empty = matches!(&word, Some(keys) if keys.is_empty());
        is_so(&rt, none.is_none() && is_empty, "words of a T");
    }
}
