//! A walk through a call tree as it grows.

ghost use Rattle.std.specs.Prelude.{◌≡◌, ◌∷◌, ◌++◌, ◌+◌, ◌^◌, ◌<◌, ◌≤◌, [], ℕ, IfOk, OnOk, length, slice_index_or, take};
ghost use Rattle.rv_stacks.specs.Nodes.{all_calls, all_steps, paths_of};
ghost use Rattle.rv_stacks.specs.Walks.{Enters, ArePreorderOf, IsWalk, ReturnsTo, CountsSteps};

use crate::children::Children;
use crate::node::{WalkNode, count_call, count_steps, number_of_child};
use crate::preorder::preorder_of_nodes;
use rv_count_tables::CallNodes;
use std::alloc::{AllocError, Global};

/// The nodes of a call tree so far, and the current one.
#[derive(Drop)]
pub struct Walk {
    /// The path of the current node.
    pub path: Vec<u32>,
    /// 0, followed by the numbers of the nodes on the path to the current node.
    pub trail: Vec<usize>,
    pub nodes: Vec<WalkNode>,
    /// Looks up the children of nodes.
    pub children: Children,
}

impl Walk {
    /// Creates a walk without nodes.
    pub fn new(alloc: Global) -> Result<Walk, AllocError>
        ensures walk { IfOk result IsWalk }
        ensures path { IfOk result (λ walk. walk.path.items ≡ []) }
        ensures nodes { IfOk result (λ walk. walk.nodes.items ≡ []) }
    {
        let mut trail = Vec::new(alloc);
        trail.push(0)?;
        Ok(Walk {
            path: Vec::new(alloc),
            trail,
            nodes: Vec::new(alloc),
            children: Children::new(alloc)?,
        })
    }

    /// Enters, by a call or a jump, the node whose path is the first `depth` functions of the current path, followed by `function`.
    /// Allocates if the node is new.
    pub fn enter(&mut self, depth: usize, function: u32) -> Result<(), AllocError>
        requires valid { IsWalk self.old }
        requires depth { depth ≤ length self.old.path.items }
        requires calls_fit { all_calls self.old.nodes.items < 2 ^ 63 }
        ensures { OnOk result (Enters (take depth self.old.path.items ++ function ∷ []) self.old self.new) }
    {
        self.return_to(depth);
        let parent = self.last_number();
        let number = number_of_child(&mut self.nodes, &mut self.children, parent, function)?;
        count_call(&mut self.nodes, number);
        self.path.push(function)?;
        self.trail.push(number)?;
        Ok(())
    }

    /// Returns to the node whose path is the first `depth` functions of the current path.
    pub fn return_to(&mut self, depth: usize)
        requires valid { IsWalk self.old }
        requires depth { depth ≤ length self.old.path.items }
        ensures { ReturnsTo depth self.old self.new }
    {
        self.path.truncate(depth);
        self.trail.truncate(depth + 1);
    }

    /// Counts `steps` instructions in the current node.
    pub fn count_steps(&mut self, steps: u32)
        requires valid { IsWalk self.old }
        requires path_not_empty { 0 < length self.old.path.items }
        requires steps_fit { all_steps self.old.nodes.items < 2 ^ 63 }
        ensures { CountsSteps steps self.old self.new }
    {
        let number = self.last_number();
        count_steps(&mut self.nodes, number, steps);
    }

    /// Returns the nodes in preorder.
    pub fn into_preorder(self, alloc: Global) -> Result<CallNodes, AllocError>
        ensures { IfOk result (ArePreorderOf self.nodes.items) }
    {
        preorder_of_nodes(alloc, self.nodes, &self.children)
    }

    // Returns the number of the current node, or 0 if no node was entered.
    fn last_number(&self) -> usize
        requires { IsWalk self.now }
        ensures within { result < length self.now.nodes.items + 1 }
        ensures path { slice_index_or (paths_of self.now.nodes.items) result [] ≡ self.now.path.items }
    {
        self.trail[self.trail.len() - 1]
    }
}
