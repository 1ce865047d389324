//! The result of a job: the run of its image, the verdict on it, and the row that contains both.
//!
//! [`row_at`] returns the row of a plan's job: the result of the job, given the results for its files, and the verdict on it. [`run_one`]
//! computes all rows, in list order; [`flat_row`] returns the row of a flat image. The results are exactly as defined in `specs/`.
//! [`machine_at`] returns the machine in which a job's run begins, and [`row_from`] the row of a job whose machine has already run some
//! steps. [`narrower_sets_only_refuse`] is a law of rows. A [`RowReporter`] produces a text for each row. The rows and their report are
//! those of `rv_report`, which this crate re-exports.
#![tactic(auto)]

mod complete_run;
mod flat;
mod job_run;
mod law;
mod outcome;
mod plan_rows;
mod recent_outcomes;
mod reporter;
mod spare_bus;
mod verdict;

pub use complete_run::{PartialRun, row_from, row_from_with_recent};
pub use flat::flat_row;
pub use law::{narrower_sets_only_refuse, parts_have_the_rows_of_the_whole};
pub use outcome::{LoadableImage, Outcome, SignatureRange};
pub use plan_rows::{
    expected_console_bytes, image_refusal_at, machine_at, machine_at_reusing, refusal_at, row_at,
    row_at_with_recent, run_one, signature_reference_bytes,
};
pub use recent_outcomes::RecentOutcomes;
pub use reporter::RowReporter;
pub use spare_bus::SpareBus;
pub use verdict::{
    are_same_signatures, did_run, endings_match, has_expectations, has_expected_end,
    has_expected_exit, outcomes_match,
};

// Re-exports from lower crates: the types in this interface, and what its callers need with them.
pub use rv_elf::{
    CodeSymbols, Image, ImageError, LoadAt, Segment, SymbolAt, find_symbol, read_image,
    segments_overlap, symbol_at, symbol_of_value, unfit_segment,
};
pub use rv_jobs::{
    ExpectedConsole, ExpectedEnd, Job, JobError, JobList, Kept, Plan, Symbols, What, gather,
    gather_jobs, read_faults, read_jobs, selected_indices,
};
pub use rv_machine::{FaultKind, Isa, Machine, Region};
pub use rv_report::{
    Bytes, Extent, Numbers, PartialReport, ReadError, Refusal, Report, Row, RowEnd, Rows,
    SavedReport, Sequence, Shard, Sink, SinkFailed, Span, Text, Verdict, WORD_LINE_LEN, Words,
    WriteError, is_name, is_utf8, push_extent_line, push_number, push_row, push_spans, push_text,
    put_all, read_partial_report, read_report, tail_from, word_line, write_report,
    write_saved_report,
};
