//! Counts how often each instruction of a run was executed, and how often it was a taken branch.
//!
//! [`count_run`] runs a machine within a budget, executing cached straight-line code a block at a time, and returns its counts: for each
//! address exactly how often an instruction was executed there, and how often it was a taken conditional branch. [`count_batch`] runs the
//! jobs of a batch once more, consecutive jobs of one image together, and returns their table, which is the sum of the jobs' tables. It
//! does not depend on their order ([`jobs_have_one_table`]), and the tables of shards add up to it
//! ([`tables_of_shards_sum_to_that_of_all`]). [`TableSum`] adds the tables that a run of the engine computes, in order, as they arrive.
#![tactic(auto)]

mod batch;
mod block;
mod count;
mod count_work;
mod counted_rows;
mod counter;
mod decode_cache;
mod index_ranges;
mod law;
mod runs_counter;
mod step;
mod table_of_jobs;
mod table_sum;
mod tally;

pub use batch::count_batch;
pub use block::{Block, block_prefix};
pub use count::count_run;
pub use count_work::JobsTable;
pub use counted_rows::{CountedRows, count_rows_at};
pub use counter::{CountedStep, Counter};
pub use index_ranges::{IndexRange, ranges_of_images};
pub use law::{
    completed_steps_are_executed, counts_have_even_addresses, counts_sum_to_the_steps,
    ending_says_whether_the_last_step_is_executed, jobs_have_one_table,
    jobs_have_one_table_over_the_same_files, tables_of_parts_sum_to_that_of_the_list,
    tables_of_shards_sum_to_that_of_all,
};
pub use step::{is_branch, is_executed_at_end};
pub use table_of_jobs::{digest_of, empty_table, images_of_one, shown_text};
pub use table_sum::{HasTable, TableSum};

// Re-exports from lower crates: the types in this interface, and what its callers need with them.
pub use rv_count_tables::{CountTable, table_text};
pub use rv_fleet::{
    Batch, Both, Crew, Flow, Listener, Observer, Row, RowReporter, Rows, RunError, Work,
    WorkerState, WriteError, row_at_with_recent, run_batch, run_jobs,
};
pub use rv_trace::{
    Bus, Code, CodeSymbols, Ending, Isa, JobImage, Machine, Map, Misaligned, Plan, Region,
    code_length, image_bytes, image_of_bytes, instr_of, is_long, read_image,
};
