//! A text as a part of a run.

ghost use Rattle.std.specs.Prelude.{◌≡◌, ◌<◌, IfOk, IfErr, length};
ghost use Rattle.rv_merge.specs.Parts.{bytes_of_texts, nth_text};
ghost use Rattle.rv_merge.specs.Refusals.{HasMergeError, HasFlaw};
ghost use Rattle.rv_merge.specs.MergeState.{IsTextOf, IsExtentFlaw, report_of_part};

use crate::error::{Flaw, MergeError};
use rv_rows::{Extent, Numbers, ReadError, Rows, SavedReport, Shard, read_report};
use std::alloc::Global;

/// The rows of a shard, under the numbers of their jobs.
#[derive(Drop)]
pub(crate) struct Part {
    pub(crate) shard: Shard,
    pub(crate) numbers: Numbers,
    pub(crate) rows: Rows,
}

/// Parses the text at an index as a part, or returns the error in it.
pub(crate) fn part_at(alloc: Global, texts: &[&[u8]], index: usize) -> Result<Part, MergeError>
    requires { index < length texts.now }
    ensures text { IfOk result (λ part. IsTextOf (report_of_part part)
        (nth_text (bytes_of_texts texts.now) index)) }
    ensures error { IfErr result (HasMergeError (bytes_of_texts texts.now)) }
{
    match read_report(alloc, texts[index]) {
        Ok(report) => match part_of_report(report) {
            Ok(part) => Ok(part),
            Err(flaw) => Err(MergeError::InvalidText(index, flaw)),
        },
        Err(ReadError::OutOfMemory) => Err(MergeError::OutOfMemory),
        Err(ReadError::Line(line)) => Err(MergeError::InvalidText(index, Flaw::Line(line))),
        Err(ReadError::Truncated) => Err(MergeError::InvalidText(index, Flaw::Truncated)),
    }
}

// Returns the report as a part, or a flaw if it is not the report of a shard.
fn part_of_report(report: SavedReport) -> Result<Part, Flaw>
    ensures part { IfOk result (λ part. report_of_part part ≡ report) }
    ensures flaw { IfErr result (λ flaw. IsExtentFlaw flaw report.extent) }
{
    let SavedReport {
        extent,
        numbers,
        rows,
    } = report;
    match extent {
        Extent::Shard(shard) => Ok(Part {
            shard,
            numbers,
            rows,
        }),
        Extent::Whole => Err(Flaw::Whole),
        Extent::Selection(_) => Err(Flaw::Selection),
    }
}
