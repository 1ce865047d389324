//! The report of the rows of chosen jobs.

ghost use Rattle.std.specs.Prelude.{◌≡◌, ◌<◌, IfErr, IfOk, OnErr, OnOk};
ghost use Rattle.std.specs.Io.KnownBytes.{Appends};
ghost use Rattle.std.specs.List.{All};
ghost use Rattle.rv_files.specs.Limits.{max_jobs};
ghost use Rattle.rv_files.specs.Sinks.{AppendsPrefix};
ghost use Rattle.rv_files.specs.Counts.{HasIncreased};
ghost use Rattle.rvtest_app.specs.RunOutput.{chosen_last_line, chosen_report_text, job_numbers, part_text};

use crate::chosen_rows::ChosenRows;
use rv_files::{Sink, put_all};
use rv_rows::{
    Extent, Numbers, Report, SavedReport, Shard, WriteError, push_extent_line, write_report,
    write_saved_report,
};
use std::alloc::{AllocError, Global};

/// Writes a report of these rows: of a shard if one is given, else of a whole list if all jobs are chosen, else of chosen jobs. After an
/// error, a prefix of it has been written.
pub(crate) fn write_chosen_report<W: Sink>(
    alloc: Global,
    chosen: ChosenRows<'_>,
    shard: Option<Shard>,
    out: &mut W,
) -> Result<(), WriteError>
    ensures written { OnOk result (Appends (W.accepted out.old) (W.accepted out.new)
        (chosen_report_text chosen.entry.jobs chosen.entry.indices.now shard chosen.entry.rows)) }
    ensures no_failed_writes { OnOk result (W.failure_count out.new ≡ W.failure_count out.old) }
    ensures prefix_written { OnErr result (AppendsPrefix (W.accepted out.old) (W.accepted out.new)
        (chosen_report_text chosen.entry.jobs chosen.entry.indices.now shard chosen.entry.rows)) }
    ensures failures_increased { IfErr result (λ error. error ≡ WriteError.Failed
        → HasIncreased (W.failure_count out.old) (W.failure_count out.new)) }
{
    let extent = match shard {
        Some(shard) => Extent::Shard(shard),
        None if chosen.indices.len() == chosen.jobs => {
            return write_report(alloc, &Report { rows: chosen.rows }, out);
        }
        None => Extent::Selection(chosen.jobs as u32),
    };
    write_part_report(alloc, extent, chosen, out)
}

/// Writes the last line of the report that `write_chosen_report` writes. After an error, a prefix of it has been written.
pub(crate) fn write_last_line<W: Sink>(
    alloc: Global,
    chosen: ChosenRows<'_>,
    shard: Option<Shard>,
    out: &mut W,
) -> Result<(), WriteError>
    ensures written { OnOk result (Appends (W.accepted out.old) (W.accepted out.new)
        (chosen_last_line chosen.entry.jobs chosen.entry.indices.now shard chosen.entry.rows)) }
    ensures no_failed_writes { OnOk result (W.failure_count out.new ≡ W.failure_count out.old) }
    ensures prefix_written { OnErr result (AppendsPrefix (W.accepted out.old) (W.accepted out.new)
        (chosen_last_line chosen.entry.jobs chosen.entry.indices.now shard chosen.entry.rows)) }
    ensures failures_increased { IfErr result (λ error. error ≡ WriteError.Failed
        → HasIncreased (W.failure_count out.old) (W.failure_count out.new)) }
{
    let extent = match shard {
        Some(shard) => Extent::Shard(shard),
        None if chosen.indices.len() == chosen.jobs => Extent::Whole,
        None => Extent::Selection(chosen.jobs as u32),
    };
    let mut line = String::new(alloc);
    push_extent_line(&mut line, &extent, chosen.rows.as_slice().len())?;
    put_all(out, line.as_bytes())?;
    Ok(())
}

// Writes the report of a shard or of chosen jobs.
fn write_part_report<W: Sink>(
    alloc: Global,
    extent: Extent,
    chosen: ChosenRows<'_>,
    out: &mut W,
) -> Result<(), WriteError>
    ensures written { OnOk result (Appends (W.accepted out.old) (W.accepted out.new)
        (part_text extent chosen.entry.indices.now chosen.entry.rows)) }
    ensures no_failed_writes { OnOk result (W.failure_count out.new ≡ W.failure_count out.old) }
    ensures prefix_written { OnErr result (AppendsPrefix (W.accepted out.old) (W.accepted out.new)
        (part_text extent chosen.entry.indices.now chosen.entry.rows)) }
    ensures failures_increased { IfErr result (λ error. error ≡ WriteError.Failed
        → HasIncreased (W.failure_count out.old) (W.failure_count out.new)) }
{
    let report = SavedReport {
        extent,
        numbers: Numbers::new(job_numbers(alloc, chosen.indices)?),
        rows: chosen.rows,
    };
    write_saved_report(alloc, &report, out)
}

// Returns the numbers of the jobs at these indices, counted from 1.
fn job_numbers(alloc: Global, indices: &[usize]) -> Result<Vec<u32>, AllocError>
    requires { All (λ index. index < max_jobs) indices.now }
    ensures { IfOk result (λ numbers. numbers.items ≡ job_numbers indices.now) }
{
    let mut numbers = Vec::new(alloc);
    for at in 0..indices.len() {
        numbers.push(indices[at] as u32 + 1)?;
    }
    Ok(numbers)
}
