//! The nodes of a call tree with all their descendants.

ghost use Rattle.std.specs.Prelude.{◌≡◌, ◌+◌, ◌^◌, ◌<◌, ◌∷◌, IfOk, drop, length, reverse};
ghost use Rattle.rv_call_tree.specs.Subtrees.{subtrees_from};
ghost use Rattle.rv_call_tree.specs.Trees.{all_steps};

use crate::call_node::CallNode;
use std::alloc::{AllocError, Global};

/// A node together with its descendants, which directly follow it in preorder.
#[derive(Clone, Copy)]
pub(crate) struct Subtree {
    /// The node's function.
    pub(crate) function: u32,
    /// The node's index.
    pub(crate) index: usize,
    /// The index of the first node after it that is not a descendant.
    pub(crate) end: usize,
    /// The node's own steps.
    pub(crate) own: u64,
    /// The steps of the node and of all its descendants.
    pub(crate) inclusive: u64,
    /// The number of calls that led to the node.
    pub(crate) calls: u64,
}

/// Returns the subtree of each node, in node order. Takes time linear in the number of nodes.
pub(crate) fn subtrees_of(alloc: Global, nodes: &[CallNode]) -> Result<Vec<Subtree>, AllocError>
    requires { all_steps nodes.now < 2 ^ 64 }
    ensures { IfOk result (λ subtrees. subtrees.items ≡ subtrees_from 0 nodes.now) }
{
    let mut subtrees = Vec::new(alloc);
    for count in 0..nodes.len() {
        let subtree = subtree_at(nodes, nodes.len() - 1 - count, subtrees.as_slice());
        subtrees.push(subtree)?;
    }
    subtrees.reverse();
    Ok(subtrees)
}

// Returns the subtree of the node at an index. `later` has the subtrees of all nodes after it, in reverse node order. Only the node's
// children are visited, so that over the whole tree each subtree is read at most once.
fn subtree_at(nodes: &[CallNode], index: usize, later: &[Subtree]) -> Subtree
    requires within { index < length nodes.now }
    requires steps { all_steps nodes.now < 2 ^ 64 }
    requires later { reverse later.now ≡ subtrees_from (index + 1) (drop (index + 1) nodes.now) }
    ensures { result ∷ subtrees_from (index + 1) (drop (index + 1) nodes.now) ≡ subtrees_from index (drop index nodes.now) }
{
    let node = nodes[index];
    let mut end = index + 1;
    let mut inclusive = node.steps;
    while end < nodes.len() && node.depth < nodes[end].depth {
        let child = later[nodes.len() - 1 - end];
        inclusive += child.inclusive;
        end = child.end;
    }
    Subtree {
        function: node.function,
        index,
        end,
        own: node.steps,
        inclusive,
        calls: node.calls,
    }
}
