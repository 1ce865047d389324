//! Call trees: paths of functions, each of which called the next, and how much of a run was spent in each.
//!
//! The nodes, [`CallNode`]s, are in preorder, so that each one stores only how its path differs from the preceding node's. A `Walk` of
//! `rv_stacks` builds them as a run enters functions, returns from them, and counts instructions. [`sum_of_call_trees`] adds two trees.
#![tactic(auto)]

mod call_node;
mod function_steps;
mod index;
mod law;
mod subtree;
mod sum;

pub use call_node::{CallNode, CallNodes};
pub use function_steps::{FunctionSteps, functions_of};
pub use index::CallTreeIndex;
pub use law::{own_steps_sum_to_all, trees_with_equal_counts_are_equal};
pub use sum::{CallTreeSumError, sum_of_call_trees};

// Re-exports from lower crates: the types in this interface, and what its callers need with them.
pub use rv_base::{Bytes, Sequence, Text};
