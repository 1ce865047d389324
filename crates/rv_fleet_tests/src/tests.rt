//! Draws, cached outcomes, fleets and streams, by the lines of tables: the setup, the requests and, in the last cell, the expected result.
ghost use Rattle.std.specs.Prelude.{◌<◌, ◌≤◌, IfOk, None};
ghost use Rattle.std.specs.List.Sorted.{IsStrictlyIncreasing};
ghost use Rattle.rv_fleet.specs.JobIndices.{AreJobIndices};

use rv_fleet::{Plan, Row, gather, read_jobs, selected_indices};
use rv_stream::{ReadError, Store};
use samples::{cell_of, check_equal, check_line_count, sample_file};
use std::alloc::{AllocError, Global};
use std::sync::Wait;
use std::test::Fail;
use std::thread::Threads;

mod draws;
mod fleets;
mod gate;
mod recent;
mod streams;
mod workers;

// Returns the description of the sample image at a path: an image with a signature of 16,000 words for `most-words`, one with 16,001 words
// for `more-words`, and for any other path one that exits with code 5 after two steps.
fn sample_of(path: &str) -> &'static str {
    match path {
        "most-words" => "sign 168=8000fa28",
        "more-words" => "sign 168=8000fa2c",
        _ => "one",
    }
}

/// A store with a sample image at each path.
#[derive(Drop)]
struct Samples;

impl Store for Samples {
    ghost contents = { λ _. None };

    ghost fault_count = { λ _. 0 };

    // Returns the sample image at a path.
    fn read(&mut self, alloc: Global, path: &str) -> Result<Vec<u8>, ReadError> {
        match sample_file(alloc, sample_of(path)) {
            Ok(bytes) if bytes.len() <= 0x100_0000 => Ok(bytes),
            _ => Err(ReadError::OutOfMemory),
        }
    }

    // Returns 0: no read fails.
    fn faults(&self) -> u64 {
        0
    }
}

// Returns the plan for all jobs of a list, with sample images.
fn plan_in(alloc: Global, list: &str) -> Result<Plan, Fail> {
    let jobs = read_jobs(alloc, list.as_bytes())?;
    Ok(gather(alloc, jobs, &mut Samples)?)
}

// Returns a plan of jobs with these budgets, separated by spaces. Their names are `j0`, `j1` and so on.
fn plan_of(alloc: Global, budgets: &str) -> Result<Plan, Fail> {
    let mut list = String::new(alloc);
    for (index, budget) in budgets.split(' ').enumerate() {
        write!(
            list,
            "[[job]]\nname = 'j{index}'\nimage = 'five'\nbudget = {budget}\n"
        )?;
    }
    plan_in(alloc, list.as_str())
}

// Appends the name, the end and the steps of each row.
fn push_rows(text: &mut String, rows: &[Row]) -> Result<(), AllocError> {
    for row in rows {
        let (name, ending, steps) = (row.name.as_str(), row.ending, row.steps);
        write!(text, " {name} {ending:?} {steps},")?;
    }
    Ok(())
}

// Returns the last cell of a line.
fn last_cell(line: &str) -> &str {
    line.rsplit_once('|').unwrap_or(("", line)).1.trim()
}

// Returns the selection in `choice`, which has one letter for each job: `x` if it is selected.
fn selection_of(alloc: Global, choice: &str) -> Result<Vec<bool>, AllocError> {
    let mut selection = Vec::new(alloc);
    for mark in choice.bytes() {
        selection.push(mark == b'x')?;
    }
    Ok(selection)
}

// Returns the number in the cell `index` of a line; 0 if the cell has no number.
fn number_in(line: &str, index: usize) -> u64 {
    cell_of(line, index).parse::<u64>().unwrap_or(0)
}

// Returns the number of workers, and how many jobs a worker takes at a time, as given in a line.
fn workers_and_group_of(line: &str) -> (u32, u32)
    ensures workers { (0 < result.0) × (result.0 ≤ 64) }
    ensures group { (0 < result.1) × (result.1 ≤ 4096) }
{
    let workers = number_in(line, 3).clamp(1, 64);
    let group = number_in(line, 4).clamp(1, 4096);
    (workers as u32, group as u32)
}

// Returns the plan that a line describes, and the indices of its selected jobs.
fn plan_and_indices_of(alloc: Global, line: &str) -> Result<(Plan, Vec<usize>), Fail>
    ensures within { IfOk result (λ both. AreJobIndices both.0 both.1.items) }
    ensures increasing { IfOk result (λ both. IsStrictlyIncreasing both.1.items) }
{
    let selection = selection_of(alloc, cell_of(line, 2))?;
    let indices = selected_indices(alloc, selection.as_slice())?;
    let plan = plan_of(alloc, cell_of(line, 1))?;
    if selection.len() != plan.jobs() {
        return Err("expected one letter for each job".into());
    }
    Ok((plan, indices))
}

/// The table that a line belongs to.
#[derive(Clone, Copy)]
enum Table {
    Draws,
    FourThreads,
    Cached,
    CachedForComparison,
    Runs,
    Writes,
    Workers,
}

// Returns the result of a line of this table, as text.
fn result_text<R: Threads + Wait + Sync>(
    rt: &R,
    alloc: Global,
    table: Table,
    line: &str,
) -> Result<String, Fail> {
    match table {
        Table::Draws => draws::result_text(alloc, line),
        Table::FourThreads => draws::four_threads_text(rt, alloc),
        Table::Cached => recent::result_text(alloc, line),
        Table::CachedForComparison => recent::comparison_text(alloc, line),
        Table::Runs => fleets::result_text(rt, alloc, line),
        Table::Writes => streams::stream_text(rt, alloc, line),
        Table::Workers => workers::result_text(rt, alloc, line),
    }
}

// Checks that a table has `count` lines, and that the result of each line is what its last cell says.
fn check_table<R: Threads + Wait + Sync>(
    rt: &R,
    alloc: Global,
    table: Table,
    lines: &str,
    count: usize,
) -> Result<(), Fail> {
    check_line_count(lines, count)?;
    for line in lines.lines() {
        let text = result_text(rt, alloc, table, line)?;
        check_equal(line, text.as_str().trim(), last_cell(line))?;
    }
    Ok(())
}

// The lines of all tables have the results in their last cells.
#[test]
fn tables_have_the_expected_results(rt: HostRuntime) -> Result<(), Fail> {
    let alloc = rt.alloc();
    check_table(&rt, alloc, Table::Draws, draws::DRAWS, 6)?;
    check_table(&rt, alloc, Table::FourThreads, draws::FOUR_THREADS, 1)?;
    check_table(&rt, alloc, Table::Cached, recent::CACHED, 9)?;
    check_table(
        &rt,
        alloc,
        Table::CachedForComparison,
        recent::CACHED_FOR_COMPARISON,
        2,
    )?;
    check_table(&rt, alloc, Table::Runs, fleets::RUNS, 9)?;
    check_table(&rt, alloc, Table::Writes, streams::WRITES, 9)?;
    check_table(&rt, alloc, Table::Workers, workers::WORKERS, 2)
}
