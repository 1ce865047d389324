//! Backward searches in a run. Parts of the run are executed again, each from a stored state, beginning with the last part.

ghost use Rattle.std.specs.Prelude.{◌≡◌, ◌≤◌, ◌<◌, ℕ, IfNone, IfOk, IfSome, true};
ghost use Rattle.rv_trace.specs.Run.{run_of};
ghost use Rattle.rv_history.specs.LastStop.{IsSearchedPart, last_stop_after};
ghost use Rattle.rv_history.specs.Moves.{IsStepBack, IsStopBefore};
ghost use Rattle.rv_history.specs.declared.outcome.MoveResult.TheVariants.{Interrupted};

use crate::breaks::search_breakpoints;
use crate::checkpoints::Checkpoints;
use crate::interrupt::Interrupt;
use crate::outcome::{MoveResult, SearchEnd};
use crate::slices::{is_at_least_a_slice, is_slice_end};
use crate::stepping::{StepResult, step_watched, step_with_watched_bytes};
use crate::stops::Stops;
use std::alloc::{AllocError, Global};

/// The result of searching one part of a run.
#[derive(Clone, Copy)]
pub(crate) struct SearchedPart {
    /// The step at which the part begins.
    pub begin: u32,
    /// The last stop in the part; `None` if there is none.
    pub last: Option<SearchEnd>,
}

/// Returns where a backward move from the step `from`, which the run must reach, ends and why. Polls for an interrupt after each part of
/// the run, once at least a slice was searched.
pub(crate) fn stop_before<I: Interrupt>(
    alloc: Global,
    checkpoints: &Checkpoints,
    from: u32,
    stops: &Stops,
    interrupt: &mut I,
) -> Result<SearchEnd, AllocError>
    requires { (run_of from checkpoints.now).steps ≡ from }
    ensures stop { IfOk result (λ found. (budget : ℕ) → from ≤ budget
        → IsStopBefore stops.now budget checkpoints.now from found.step found.outcome) }
    ensures interrupted { IfOk result (λ found. found.outcome ≡ Interrupted → I.was_raised interrupt.new ≡ true) }
{
    let interrupted = SearchEnd {
        step: from,
        outcome: MoveResult::Interrupted,
    };
    let mut end = from;
    while 0 < end {
        if is_at_least_a_slice(from - end) && interrupt.is_raised() {
            return Ok(interrupted);
        }
        let Some(part) = search_part(alloc, checkpoints, end, stops, interrupt)? else {
            return Ok(interrupted);
        };
        if let Some(last) = part.last {
            return Ok(last);
        }
        end = part.begin;
    }
    Ok(SearchEnd {
        step: 0,
        outcome: MoveResult::RunStart,
    })
}

// Searches a part of the run for its last stop: from the last stored state before the step `end` up to this step. Returns what it found, or
// `None` if an interrupt ended the search.
fn search_part<I: Interrupt>(
    alloc: Global,
    checkpoints: &Checkpoints,
    end: u32,
    stops: &Stops,
    interrupt: &mut I,
) -> Result<Option<SearchedPart>, AllocError>
    requires not_empty { 0 < end }
    requires reached { (run_of end checkpoints.now).steps ≡ end }
    ensures part { IfOk result (λ searched. IfSome searched (IsSearchedPart stops.now checkpoints.now end)) }
    ensures interrupted { IfOk result (λ searched. IfNone searched (I.was_raised interrupt.new ≡ true)) }
{
    if stops.have_no_watchpoints() {
        return search_breakpoints(alloc, checkpoints, end, stops, interrupt);
    }
    let mut at = checkpoints.before(alloc, end - 1)?;
    let begin = at.step;
    let mut watched = stops.watched_bytes(alloc, at.machine.bus())?;
    let mut last = None;
    for step in begin..end {
        if is_slice_end(step) && is_at_least_a_slice(step - begin) && interrupt.is_raised() {
            return Ok(None);
        }
        let is_break = stops.has_break(at.machine.pc());
        let stepped = step_with_watched_bytes(alloc, &mut at.machine, stops, &mut watched)?;
        last = last_stop_after(last, step, is_break, stepped);
    }
    Ok(Some(SearchedPart { begin, last }))
}

/// Returns the last stop found once the search has passed the step `step`, or `None` if there is none. `last` is the last stop before
/// `step`, `is_break` says whether there is a breakpoint at `step`, and `stepped` is the result of executing the step.
pub(crate) fn last_stop_after(
    last: Option<SearchEnd>,
    step: u32,
    is_break: bool,
    stepped: StepResult,
) -> Option<SearchEnd>
    requires { step < 0xFFFF_FFFF }
    ensures { result ≡ last_stop_after last step is_break stepped }
{
    match stepped {
        StepResult::WatchTriggered => Some(SearchEnd {
            step: step + 1,
            outcome: MoveResult::WatchTriggered,
        }),
        StepResult::NotTriggered | StepResult::Ended(_) => {
            if is_break {
                Some(SearchEnd {
                    step,
                    outcome: MoveResult::Breakpoint,
                })
            } else {
                last
            }
        }
    }
}

/// Returns where a single step back from the step `from`, which the run must reach, ends and why.
pub(crate) fn step_before(
    alloc: Global,
    checkpoints: &Checkpoints,
    from: u32,
    stops: &Stops,
) -> Result<SearchEnd, AllocError>
    requires { (run_of from checkpoints.now).steps ≡ from }
    ensures { IfOk result (λ found. (budget : ℕ) → from ≤ budget
        → IsStepBack stops.now budget checkpoints.now from found.step found.outcome) }
{
    if from == 0 {
        return Ok(SearchEnd {
            step: 0,
            outcome: MoveResult::RunStart,
        });
    }
    let before = from - 1;
    let done = SearchEnd {
        step: before,
        outcome: MoveResult::Done,
    };
    if stops.have_no_watchpoints() {
        return Ok(done);
    }
    let mut machine = checkpoints.machine_after(alloc, before)?;
    match step_watched(alloc, &mut machine, stops)? {
        StepResult::WatchTriggered => Ok(SearchEnd {
            step: from,
            outcome: MoveResult::WatchTriggered,
        }),
        StepResult::NotTriggered | StepResult::Ended(_) => Ok(done),
    }
}
