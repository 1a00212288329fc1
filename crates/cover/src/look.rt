// Looking in a tree for a list that can be taken from the pieces at hand.
ghost use Rattle.std.specs.Prelude.{◌≤◌, ◌<◌, length};
ghost use Rattle.cover.specs.Look.{Looks, LooksBelow};
ghost use Rattle.cover.specs.Tree.{nodes_of};

use crate::tree::Tree;
use hold_queue::{Hand, Hold};
use queue_pattern::Queue;
use srs::Piece;

/// The result of looking.
#[derive(Clone, Copy)]
pub enum Look {
    /// A list was found.
    Found,
    /// No list can be taken, for any queue with the same first pieces, this many of them.
    Missed(usize),
}

/// Looks below a node for a list that can be taken from the pieces at hand.
#[cycle(looks)]
pub fn look_at(tree: &Tree, hold: Hold, at: usize, queue: &Queue, hand: Hand) -> Look
    requires node { at < length (nodes_of tree.now) }
    requires drawn { hand.drawn ≤ length queue.now.items }
    ensures { Looks (nodes_of tree.now) hold at queue.now.items hand result }
{
    if tree.ends(at) {
        return Look::Found;
    }
    let Some(first) = hand.first(queue) else {
        return Look::Missed(queue.len() + 1);
    };
    let Look::Missed(seen) = look_below(tree, hold, at, first.piece, queue, first.rest) else {
        return Look::Found;
    };
    if let Hold::Avoided = hold {
        return Look::Missed(seen);
    }
    let Some(second) = hand.second(queue) else {
        return Look::Missed(queue.len() + 1);
    };
    let Look::Missed(other) = look_below(tree, hold, at, second.piece, queue, second.rest) else {
        return Look::Found;
    };
    Look::Missed(seen.max(other))
}

/// Looks below the node that a piece leads to.
#[cycle(looks)]
fn look_below(tree: &Tree, hold: Hold, at: usize, piece: Piece, queue: &Queue, rest: Hand) -> Look
    requires node { at < length (nodes_of tree.now) }
    requires drawn { rest.drawn ≤ length queue.now.items }
    ensures { LooksBelow (nodes_of tree.now) hold at piece queue.now.items rest result }
{
    let below = tree.below(at, piece);
    if below == 0 {
        return Look::Missed(rest.drawn as usize);
    }
    look_at(tree, hold, below, queue, rest)
}
