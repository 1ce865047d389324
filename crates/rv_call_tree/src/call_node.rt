//! Nodes of a call tree.

use rv_base::Sequence;

/// The nodes of a call tree in preorder; contracts see them as a list.
pub type CallNodes = Sequence<CallNode>;

/// A node of a call tree. It represents a path of functions, each of which called the next: the first `depth` functions of the preceding
/// node's path, then the node's own function.
#[derive(Clone, Copy, Debug, PartialEq, Eq)]
pub struct CallNode {
    /// The number of functions before the node's own function in its path.
    pub depth: usize,
    /// The address of the node's own function.
    pub function: u32,
    /// How often a run entered the node by a call or a jump.
    pub calls: u64,
    /// The number of instructions executed in the node.
    pub steps: u64,
}
