// The nodes of a certificate's tree.
ghost use Rattle.std.specs.Prelude.{◌≡◌};

use crate::multipliers::Multipliers;
use crate::set_text::SetText;
use std::marker::Model;

/// A node of a tree by itself: a branching on a file with its mix, or a leaf with the reason why its node is closed.
#[derive(Drop)]
pub enum NodeLine {
    Branch {
        file: u32,
        first: SetText,
        second: SetText,
        alpha: u64,
        beta: u64,
    },
    Low,
    High,
    Leaf(Multipliers),
}

/// The nodes of a tree in preorder, the out child first.
#[derive(Drop)]
pub struct NodeLines {
    list: Vec<NodeLine>,
}

impl Model for NodeLines {
    ghost use Rattle.std.specs.Prelude.{List};
    ghost use Rattle.bound_cert.specs.declared.node_line.NodeLine.{NodeLine};

    ghost Value = { List NodeLine };

    ghost view = { λ n. n.list.items };
}

impl NodeLines {
    /// Nodes from their list.
    pub fn new(list: Vec<NodeLine>) -> Self
        ensures { result ≡ list.items }
    {
        NodeLines { list }
    }

    /// The nodes, in order.
    pub fn list(&self) -> &[NodeLine]
        ensures { result.now ≡ self.now }
    {
        &self.list
    }
}
