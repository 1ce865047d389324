//! What `cover` and `profile` report about refused jobs.

ghost use Rattle.std.specs.Prelude.{◌≡◌, ◌<◌, ◌++◌, IfOk, OnOk, length, slice_index_or};
ghost use Rattle.rv_stream.specs.JobIndices.{AreJobIndices};
ghost use Rattle.rv_expect.specs.Judgement.{judge_view};
ghost use Rattle.rv_rows.specs.declared_job.Job.{Job as AJob};
ghost use Rattle.rvtest_app.specs.RefusedNotes.{line_if_refused, refused_lines, refused_note};

use crate::missing_images::missing_images_note;
use crate::rules::failure_rule;
use rv_expect::Judge;
use rv_files::UnreadablePath;
use rv_job_text::{TextReporter, Verbosity};
use rv_rows::{Plan, refusal_at, row_at};
use rvtest_cli::RunArgs;
use std::alloc::{AllocError, Global};

/// Returns the note about missing images, which can be empty, and then the result lines of the refused jobs among the jobs at these
/// indices.
pub(crate) fn refused_note(
    alloc: Global,
    args: &RunArgs<'_>,
    plan: &Plan,
    unread: &[UnreadablePath],
    indices: &[usize],
) -> Result<Vec<u8>, AllocError>
    requires { AreJobIndices plan.now indices.now }
    ensures { IfOk result (λ note. note.items ≡ refused_note args.now plan.now unread.now indices.now) }
{
    let mut note = missing_images_note(alloc, plan, unread, indices.len(), args.root)?;
    let reporter = TextReporter {
        plan,
        unread,
        judge: Judge::with_rule(failure_rule(args.lenient)),
        verbosity: Verbosity::All,
        last: None,
    };
    push_refused_lines(alloc, &reporter, indices, &mut note)?;
    Ok(note)
}

// Appends the result lines of the refused jobs among the jobs at these indices.
fn push_refused_lines(
    alloc: Global,
    reporter: &TextReporter<'_>,
    indices: &[usize],
    text: &mut Vec<u8>,
) -> Result<(), AllocError>
    requires { AreJobIndices reporter.now.plan.now indices.now }
    ensures { OnOk result (text.new.items ≡ text.old.items
        ++ refused_lines (judge_view reporter.now.judge) reporter.now.plan.now reporter.now.unread.now indices.now) }
{
    for index in indices {
        push_refused_line(alloc, reporter, *index, text)?;
    }
    Ok(())
}

// Appends the result line of the job at index `index` if the job is refused; otherwise nothing.
#[tactic(auto, unfolding(crate::specs::RefusedNotes::line_if_refused))]
fn push_refused_line(
    alloc: Global,
    reporter: &TextReporter<'_>,
    index: usize,
    text: &mut Vec<u8>,
) -> Result<(), AllocError>
    requires index { index < length reporter.now.plan.now.jobs }
    ensures { OnOk result ((d : AJob) → text.new.items ≡ text.old.items
        ++ line_if_refused (judge_view reporter.now.judge) reporter.now.plan.now reporter.now.unread.now
        (slice_index_or reporter.now.plan.now.jobs index d)) }
{
    match refusal_at(alloc, reporter.plan, index)? {
        Some(_) => {
            let row = row_at(alloc, reporter.plan, index)?;
            reporter.push_only_row_line(alloc, index, &row, text)
        }
        None => Ok(()),
    }
}
