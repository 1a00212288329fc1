// Lists of kinds as a tree: each list is a path down from the first node.
ghost use Rattle.std.specs.Prelude.{◌≡◌, ◌<◌, length};
ghost use Rattle.cover.specs.Nodes.{IsTree};

use crate::node::Node;
use pc_outside::NoMemory;
use srs::Piece;
use std::alloc::Global;

/// A tree of nodes. The first node is the one of the empty list.
#[derive(Drop)]
pub struct Tree {
    nodes: Vec<Node>,
    ghost branches: { IsTree nodes.items },
}

impl Tree {
    ghost use Rattle.std.specs.Prelude.{IfOk, List, false, reverse};
    ghost use Rattle.srs.specs.declared.piece.Piece.{Piece};
    ghost use Rattle.cover.specs.Nodes.{Ends, HasGrown, LeadsTo, child, has_end, spells};
    ghost use Rattle.cover.specs.Tree.{nodes_of};

    /// A tree without lists. The only refusal is that memory runs out.
    pub fn new(alloc: Global) -> Result<Tree, NoMemory>
        ensures none { IfOk result (λ tree. (kinds : List Piece) → spells (nodes_of tree) 0 kinds ≡ false) }
    {
        let mut nodes = Vec::new(alloc);
        nodes.push(Node::blank())?;
        Ok(Tree { nodes })
    }

    /// Whether a list ends at a node.
    #[tactic(auto, unfolding(crate::specs::Tree::nodes_of))]
    pub fn ends(&self, at: usize) -> bool
        requires { at < length (nodes_of self.now) }
        ensures { result ≡ has_end (nodes_of self.now) at }
    {
        self.nodes[at].ends
    }

    /// The node below this one for a kind, or 0 if there is none.
    #[tactic(auto, unfolding(crate::specs::Tree::nodes_of))]
    pub fn below(&self, at: usize, kind: Piece) -> usize
        requires { at < length (nodes_of self.now) }
        ensures { result ≡ child (nodes_of self.now) at kind }
    {
        self.nodes[at].child(kind)
    }

    /// The node below this one for a kind, which is made if there is none. The only refusal is that memory runs out.
    fn grown(&mut self, at: usize, kind: Piece) -> Result<usize, NoMemory>
        requires { at < length (nodes_of self.old) }
        ensures grows { HasGrown (nodes_of self.old) (nodes_of self.new) }
        ensures some { IfOk result (λ node. 0 < node) }
        ensures below { IfOk result (λ node. node ≡ child (nodes_of self.new) at kind) }
    {
        let known = self.below(at, kind);
        if known != 0 {
            return Ok(known);
        }
        let node = self.nodes.len();
        self.nodes.push(Node::blank())?;
        self.nodes[at] = self.nodes[at].with(kind, node);
        Ok(node)
    }

    /// The node of a list, made with those on the path to it if need be. No further list ends in the tree. The only
    /// refusal is that memory runs out.
    pub fn way(&mut self, kinds: &[Piece]) -> Result<usize, NoMemory>
        ensures grows { HasGrown (nodes_of self.old) (nodes_of self.new) }
        ensures leads { IfOk result (λ node. LeadsTo (nodes_of self.new) (reverse kinds.now) node) }
    {
        let mut node = 0;
        for kind in kinds {
            node = self.grown(node, *kind)?;
        }
        Ok(node)
    }

    /// Makes a list end at this node.
    pub fn end_at(&mut self, node: usize)
        requires { node < length (nodes_of self.old) }
        ensures { Ends (nodes_of self.old) (nodes_of self.new) node }
    {
        let mut last = self.nodes[node];
        last.ends = true;
        self.nodes[node] = last;
    }
}
