// A node of a tree of lists of kinds.
ghost use Rattle.std.specs.Prelude.{◌≡◌, length};

use srs::Piece;

/// The node below for each kind, in the order of codes, or 0 if there is none; and whether a list ends here.
#[derive(Clone, Copy)]
pub struct Node {
    below: [usize; 7],
    pub ends: bool,
    ghost room: { length below ≡ 7 },
}

impl Node {
    ghost use Rattle.cover.specs.Nodes.{IsBlank, IsWith, node_child};

    /// A node with nothing below, at which no list ends.
    pub fn blank() -> Node
        ensures { IsBlank result }
    {
        Node {
            below: [0; 7],
            ends: false,
        }
    }

    /// The node below for a kind, or 0.
    pub fn child(&self, kind: Piece) -> usize
        ensures { result ≡ node_child self.now kind }
    {
        self.below[usize::from(kind.code() - 1)]
    }

    /// The same node, with another node below it for a kind.
    pub fn with(&self, kind: Piece, child: usize) -> Node
        ensures { IsWith self.now kind child result }
    {
        let mut node = *self;
        node.below[usize::from(kind.code() - 1)] = child;
        node
    }
}
