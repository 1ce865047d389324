//! One hart on a bus: fetch, execution, and runs within a step budget.
//!
//! Callers see a machine as its state (the pc, the 32 registers, the contents of the bus, and the instruction set) and its decode cache.
//! `step` is one fetch and one effect as the instruction definitions specify, and `run` makes as many steps as the budget allows. The cache
//! is visible only through `kept` and `run_cached`, and in the run time. A step that ends a run leaves the state unchanged. Nothing here
//! allocates once a machine has been created.
#![tactic(auto)]

mod accesses;
mod alu;
mod cached_operands;
mod decode_cache;
mod ending;
mod execute;
mod fetch;
mod hart;
mod instruction_kinds;
mod limits;
mod machine;
mod run_ending;
mod transfers;

pub use ending::{Ending, FaultKind, Outcome};
pub use machine::Machine;

// Re-exports from lower crates: the types in this interface, and what its callers need with them.
pub use rv_isa::{Instr, Isa, Op, decode16, decode32, is_long};
pub use rv_memory::{Bus, Map, MapError, Misaligned, Region, Width};
