//! The call tree of a run: on which path of functions, from the root to the function of the pc, each instruction was executed, and how
//! often a run entered each path.
//!
//! [`count_with_stacks`] runs a machine within a budget and returns its counts and its call tree. [`count_job_with_stacks`] does so for a
//! job of a plan, and [`count_batch_with_stacks`] returns the table of counts of a batch's jobs, with their call trees. `rv_calls` defines
//! which calls have not returned: a call path consists of the functions in which these calls were made, outermost first, and the function
//! of the pc.
#![tactic(auto)]

mod batch;
mod children;
mod control_flow;
mod functions;
mod job;
mod law;
mod names;
mod node;
mod preorder;
mod run;
mod stack_work;
mod stacks;
mod table;
mod walk;

pub use batch::{CountError, count_batch_with_stacks};
pub use children::Children;
pub use functions::{CachedFunction, function_of};
pub use job::count_job_with_stacks;
pub use law::{
    jobs_have_one_table_with_stacks, only_names_prevent_a_table_with_stacks,
    own_steps_are_the_counts_of_addresses, run_has_one_call_tree,
    table_without_stacks_is_that_of_counts, tables_with_stacks_of_parts_sum_to_that_of_all,
    tables_with_stacks_of_shards_sum_to_that_of_all,
};
pub use node::WalkNode;
pub use preorder::PreorderBuilder;
pub use run::count_with_stacks;
pub use stacks::Stacks;
pub use walk::Walk;

// Re-exports from lower crates: the types in this interface, and what its callers need with them.
pub use rv_counting::{
    Bus, CodeSymbols, Isa, Machine, Map, Misaligned, Region, RunError, count_batch, read_image,
};
