//! The line that explains a used-up budget.

ghost use Rattle.std.specs.Prelude.{◌≡◌, ◌++◌, OnOk};
ghost use Rattle.rv_job_text.specs.BudgetUseLine.{budget_use_line, changes_line, last_or_all_text, period_text, repetition_line, waiting_text};
ghost use Rattle.rv_text.specs.Spans.{span_text};

use rv_hang::{BudgetUse, Repetition};
use rv_text::{Span, push_spans};
use std::alloc::AllocError;

/// Appends the line that says how a run of this many steps used up its budget. Appends nothing if there is no analysis.
pub(crate) fn push_budget_use_line(
    text: &mut Vec<u8>,
    steps: u32,
    found: Option<BudgetUse>,
) -> Result<(), AllocError>
    ensures { OnOk result (text.new.items ≡ text.old.items ++ budget_use_line steps found) }
{
    match found {
        Some(BudgetUse::Repeats(repetition)) => push_repetition_line(text, repetition),
        Some(BudgetUse::NoRepetition(within)) => push_changes_line(text, steps, within),
        None => Ok(()),
    }
}

// Appends the line about a run that would never end: after how many steps it begins to repeat, how long the loop is, and whether it waits
// for input.
#[tactic(auto, unfolding(crate::specs::BudgetUseLine::repetition_line))]
fn push_repetition_line(text: &mut Vec<u8>, repetition: Repetition) -> Result<(), AllocError>
    ensures { OnOk result (text.new.items ≡ text.old.items ++ repetition_line repetition) }
{
    push_spans(
        text,
        &[
            Span::Text("     never ends: after "),
            Span::Count(u64::from(repetition.begin), "step"),
            Span::Text(" it repeats every "),
            period_span(repetition.period),
            Span::Text(waiting_text(repetition.waits_for_input)),
            Span::Text("\n"),
        ],
    )
}

// Returns the length of a loop as it follows `every`: `step` for 1, and `5 steps` for 5.
fn period_span(period: u32) -> Span<'static>
    ensures { span_text result ≡ period_text period }
{
    if period == 1 {
        Span::Text("step")
    } else {
        Span::Count(u64::from(period), "step")
    }
}

// Returns the note that a loop waits for input after the end of the script, or an empty text if it does not.
fn waiting_text(waits_for_input: bool) -> &'static str
    ensures { result.now ≡ waiting_text waits_for_input }
{
    if waits_for_input {
        ", waiting for input after the end of the script"
    } else {
        ""
    }
}

// Appends the line about a run in which no endless loop was found. The last `within` of its `steps` steps were searched.
#[tactic(auto, unfolding(crate::specs::BudgetUseLine::changes_line))]
fn push_changes_line(text: &mut Vec<u8>, steps: u32, within: u32) -> Result<(), AllocError>
    ensures { OnOk result (text.new.items ≡ text.old.items ++ changes_line steps within) }
{
    push_spans(
        text,
        &[
            Span::Text("     the budget may be too small: no endless loop was found in "),
            Span::Text(last_or_all_text(steps, within)),
            Span::Count(u64::from(within), "step"),
            Span::Text("\n"),
        ],
    )
}

// Returns `its ` if all steps of the run were searched, or else `its last `.
fn last_or_all_text(steps: u32, within: u32) -> &'static str
    ensures { result.now ≡ last_or_all_text steps within }
{
    if within == steps { "its " } else { "its last " }
}
