//! Fleets of small jobs, and batches of selected ones, with a gate that shows which chunks run at the same time.
ghost use Rattle.std.specs.List.Sorted.{IsStrictlyIncreasing};
ghost use Rattle.rv_fleet.specs.JobIndices.{AreJobIndices};

use super::gate::RecordingGate;
use super::{plan_and_indices_of, push_rows, workers_and_group_of};
use rv_fleet::{Batch, Crew, Plan, Rows, run_batch, run_fleet};
use samples::cell_of;
use std::alloc::Global;
use std::sync::Wait;
use std::test::Fail;
use std::thread::Threads;

// label | budgets | the selected jobs | workers | jobs that a worker takes at a time | `fleet` runs all jobs with a gate, `batch` the
// selected jobs without one | how many of the first chunks wait at the gate | for how many chunks they wait | the rows, how often each
// chunk entered, and whether one waited in vain
pub(super) const RUNS: &str = "\
the first waits for the second | 3 3 | xx | 2 | 1 | fleet | 1 | 2 | \
    j0 Exit(5) 2, j1 Exit(5) 2, entered 11, late false
for all others, which the other worker draws one after the other | 3 3 3 3 | xxxx | 2 | 1 | fleet | 1 | 4 | \
    j0 Exit(5) 2, j1 Exit(5) 2, j2 Exit(5) 2, j3 Exit(5) 2, entered 1111, late false
each of two waits for all | 3 3 | xx | 2 | 1 | fleet | 2 | 2 | \
    j0 Exit(5) 2, j1 Exit(5) 2, entered 11, late false
each of four waits for all | 3 3 3 3 | xxxx | 4 | 1 | fleet | 4 | 4 | \
    j0 Exit(5) 2, j1 Exit(5) 2, j2 Exit(5) 2, j3 Exit(5) 2, entered 1111, late false
a worker | 3 3 3 3 | xx.x | 1 | 1 | batch | | | j0 Exit(5) 2, j1 Exit(5) 2, j3 Exit(5) 2, entered 0, late false
four | 3 3 3 3 | xx.x | 4 | 1 | batch | | | j0 Exit(5) 2, j1 Exit(5) 2, j3 Exit(5) 2, entered 0, late false
chunks of two jobs | 3 3 3 3 | xx.x | 64 | 2 | batch | | | j0 Exit(5) 2, j1 Exit(5) 2, j3 Exit(5) 2, entered 0, late false
the last job | 3 3 3 3 | ...x | 1 | 4096 | batch | | | j3 Exit(5) 2, entered 0, late false
none | 3 3 3 3 | .... | 4 | 1 | batch | | | entered 0, late false";

// Runs all jobs of a line as a fleet, or the selected ones as a batch, and returns the rows.
fn rows_of_run<R: Threads + Wait + Sync>(
    rt: &R,
    alloc: Global,
    plan: &Plan,
    indices: &[usize],
    line: &str,
    gate: &RecordingGate,
) -> Result<Rows, Fail>
    requires within { AreJobIndices plan.now indices.now }
    requires increasing { IsStrictlyIncreasing indices.now }
{
    let (workers, group) = workers_and_group_of(line);
    if cell_of(line, 5) == "fleet" {
        let report = run_fleet(rt, alloc, plan, workers, group, gate)?;
        return Ok(report.rows);
    }
    let crew = Crew::new(rt, alloc, workers, group);
    Ok(run_batch(&crew, &Batch::new(plan, indices))?)
}

/// Returns the rows of the run of a line, and what its gate recorded.
pub(super) fn result_text<R: Threads + Wait + Sync>(
    rt: &R,
    alloc: Global,
    line: &str,
) -> Result<String, Fail> {
    let (plan, indices) = plan_and_indices_of(alloc, line)?;
    let gate = RecordingGate::of(line);
    let rows = rows_of_run(rt, alloc, &plan, indices.as_slice(), line, &gate)?;
    let mut text = String::new(alloc);
    push_rows(&mut text, rows.as_slice())?;
    gate.push_notes(&mut text)?;
    Ok(text)
}
