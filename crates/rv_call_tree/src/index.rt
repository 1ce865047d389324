//! The nodes of a call tree, indexed by function.

ghost use Rattle.std.specs.Prelude.{◌≡◌, ◌^◌, ◌<◌, [], IfOk};
ghost use Rattle.std.specs.List.Sorted.{IsNonDecreasingBy};
ghost use Rattle.rv_call_tree.specs.Profiles.{AreStepsOf};
ghost use Rattle.rv_call_tree.specs.Subtrees.{subtrees_of_function, AreSubtreesByFunction};
ghost use Rattle.rv_call_tree.specs.Trees.{all_calls, all_steps, IsTree, AreInPreorder-prop};

use crate::call_node::CallNode;
use crate::function_steps::FunctionSteps;
use crate::subtree::{Subtree, subtrees_of};
use std::alloc::{AllocError, Global};

/// The nodes of a call tree with an index by function, which finds the counts of a function without a pass over all nodes.
#[derive(Drop)]
pub struct CallTreeIndex<'s> {
    pub nodes: &'s [CallNode],
    // The subtree of each node, sorted by function; the subtrees of one function are in node order.
    subtrees: Vec<Subtree>,
    ghost tree: { IsTree nodes.now } by { AreInPreorder-prop [] nodes.now },
    ghost steps_fit: { all_steps nodes.now < 2 ^ 64 },
    ghost calls_fit: { all_calls nodes.now < 2 ^ 64 },
    ghost rising: { IsNonDecreasingBy (λ s. s.function) subtrees.items },
    ghost each: { AreSubtreesByFunction nodes.now subtrees.items },
}

impl<'s> CallTreeIndex<'s> {
    /// Returns an index of a call tree's nodes by function. Takes as long as sorting the nodes, and 48 bytes of memory for each node.
    pub fn new(alloc: Global, nodes: &'s [CallNode]) -> Result<CallTreeIndex<'s>, AllocError>
        requires tree { IsTree nodes.now }
        requires steps { all_steps nodes.now < 2 ^ 64 }
        requires calls { all_calls nodes.now < 2 ^ 64 }
        ensures { IfOk result (λ index. index.nodes.now ≡ nodes.now) }
    {
        let mut subtrees = subtrees_of(alloc, nodes)?;
        subtrees.sort_by_key(|subtree| subtree.function)?;
        Ok(CallTreeIndex { nodes, subtrees })
    }

    /// Returns the own steps, the inclusive steps and the calls of a function, all 0 if no path has it. Takes time logarithmic in the
    /// number of all nodes and linear in the number of nodes whose paths end in the function.
    pub fn steps_of(&self, function: u32) -> FunctionSteps
        ensures { AreStepsOf function self.now.nodes.now result }
    {
        let mut found = FunctionSteps {
            own: 0,
            inclusive: 0,
            calls: 0,
        };
        // The end of the last subtree whose inclusive steps were added. A subtree that starts before it is nested in that one.
        let mut end = 0;
        for subtree in self.subtrees_of_function(function) {
            found.own += subtree.own;
            found.calls += subtree.calls;
            if end <= subtree.index {
                found.inclusive += subtree.inclusive;
                end = subtree.end;
            }
        }
        found
    }

    // Returns the subtrees whose root node's path ends in the function, in node order.
    fn subtrees_of_function(&self, function: u32) -> &[Subtree]
        ensures { result.now ≡ subtrees_of_function function self.now.nodes.now }
    {
        let subtrees = self.subtrees.as_slice();
        let start = subtrees.partition_point(|subtree| subtree.function < function);
        let rest = &subtrees[start..];
        &rest[..rest.partition_point(|subtree| subtree.function <= function)]
    }
}
