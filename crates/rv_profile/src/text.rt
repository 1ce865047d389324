//! The profile table of an image.

ghost use Rattle.std.specs.Prelude.{◌≡◌, ◌≤◌, ◌++◌, OnOk};
ghost use Rattle.rv_profile.specs.Profile.{IsWithin, function_counts_of};
ghost use Rattle.rv_profile.specs.Text.{column_header, function_line, more_functions_text, hundredths, more_line, percent, right_aligned_word, share, share_header, steps_line, steps_text};

use crate::columns::Columns;
use crate::function::FunctionProfile;
use rv_count_tables::{Span, push_number, push_spans, push_text};
use rv_cover_view::{push_right_aligned, push_spaces};
use std::alloc::{AllocError, Global};

/// Appends the line of the image with this path: the path and the number of steps.
#[tactic(auto, unfolding(crate::specs::Text::steps_line))]
pub(crate) fn push_steps_line(
    bytes: &mut Vec<u8>,
    path: &[u8],
    steps: u64,
) -> Result<(), AllocError>
    ensures { OnOk result (bytes.new.items ≡ bytes.old.items ++ steps_line path.now steps) }
{
    push_spans(
        bytes,
        &[
            Span::Printable(path),
            Span::Text(": "),
            Span::Number(steps),
            Span::Text(steps_text(steps)),
        ],
    )
}

// Returns ` step` if the count is 1, and otherwise ` steps`, followed by a line feed.
fn steps_text(count: u64) -> &'static str
    ensures { result.now ≡ steps_text count }
{
    if count == 1 { " step\n" } else { " steps\n" }
}

/// Appends the header with the names of the columns.
#[tactic(auto, unfolding(crate::specs::Text::column_header))]
pub(crate) fn push_column_header(bytes: &mut Vec<u8>, columns: Columns) -> Result<(), AllocError>
    ensures { OnOk result (bytes.new.items ≡ bytes.old.items ++ column_header columns) }
{
    push_share_header(bytes, columns.own, "self")?;
    push_share_header(bytes, columns.inclusive, "inclusive")?;
    push_right_aligned_word(bytes, columns.calls, "calls")?;
    push_text(bytes, "  function\n")
}

// Appends the heading of a column of numbers, right-aligned, and the heading of the column with their percentages.
#[tactic(auto, unfolding(crate::specs::Text::share_header))]
fn push_share_header(bytes: &mut Vec<u8>, width: usize, word: &str) -> Result<(), AllocError>
    ensures { OnOk result (bytes.new.items ≡ bytes.old.items ++ share_header width word.now) }
{
    push_right_aligned_word(bytes, width, word)?;
    push_text(bytes, "       %")
}

// Appends the word, preceded by spaces up to `width` characters.
#[tactic(auto, unfolding(crate::specs::Text::right_aligned_word))]
fn push_right_aligned_word(bytes: &mut Vec<u8>, width: usize, word: &str) -> Result<(), AllocError>
    ensures { OnOk result (bytes.new.items ≡ bytes.old.items ++ right_aligned_word width word.now) }
{
    push_spaces(bytes, width.saturating_sub(word.len()))?;
    push_text(bytes, word)
}

/// Appends the line of a function: its numbers, each right-aligned in its column, and its name. `steps` is the total of its image.
#[tactic(auto, unfolding(crate::specs::Text::function_line))]
pub(crate) fn push_function_line(
    alloc: Global,
    bytes: &mut Vec<u8>,
    columns: Columns,
    steps: u64,
    function: &FunctionProfile<'_>,
) -> Result<(), AllocError>
    requires { IsWithin steps (function_counts_of function.now) }
    ensures { OnOk result (bytes.new.items ≡ bytes.old.items ++ function_line columns steps (function_counts_of function.now)) }
{
    let counted = function.steps;
    push_share(alloc, bytes, columns.own, counted.own, steps)?;
    push_share(alloc, bytes, columns.inclusive, counted.inclusive, steps)?;
    push_right_aligned(alloc, bytes, columns.calls, counted.calls)?;
    push_spans(
        bytes,
        &[
            Span::Text("  "),
            Span::Name(function.name.as_bytes()),
            Span::Text("\n"),
        ],
    )
}

// Appends the number `part`, right-aligned in a column of this width, and the percentage of `whole` that it is.
#[tactic(auto, unfolding(crate::specs::Text::share))]
fn push_share(
    alloc: Global,
    bytes: &mut Vec<u8>,
    width: usize,
    part: u64,
    whole: u64,
) -> Result<(), AllocError>
    requires { part ≤ whole }
    ensures { OnOk result (bytes.new.items ≡ bytes.old.items ++ share width part whole) }
{
    push_right_aligned(alloc, bytes, width, part)?;
    push_percent(alloc, bytes, hundredths(part, whole))
}

// Returns the ratio of `part` to `whole` in hundredths of a percent, rounded to the nearest, ties up; 0 if `whole` is 0.
fn hundredths(part: u64, whole: u64) -> u64
    requires { part ≤ whole }
    ensures { result ≡ hundredths part whole }
{
    if whole == 0 {
        return 0;
    }
    let (part, whole) = (u128::from(part), u128::from(whole));
    ((20_000 * part + whole) / (2 * whole)) as u64
}

// Appends a ratio, given in hundredths of a percent, as a percentage with two decimals, eight characters wide.
#[tactic(auto, unfolding(crate::specs::Text::percent))]
fn push_percent(alloc: Global, bytes: &mut Vec<u8>, count: u64) -> Result<(), AllocError>
    ensures { OnOk result (bytes.new.items ≡ bytes.old.items ++ percent count) }
{
    push_right_aligned(alloc, bytes, 4, count / 100)?;
    push_spans(
        bytes,
        &[
            Span::Text("."),
            Span::Number(count / 10 % 10),
            Span::Number(count % 10),
            Span::Text("%"),
        ],
    )
}

/// Appends the line that says how many functions are not shown; nothing if all are.
pub(crate) fn push_more_line(bytes: &mut Vec<u8>, hidden: usize) -> Result<(), AllocError>
    ensures { OnOk result (bytes.new.items ≡ bytes.old.items ++ more_line hidden) }
{
    if hidden == 0 {
        return Ok(());
    }
    push_number(bytes, hidden as u64)?;
    push_text(bytes, more_functions_text(hidden))
}

// Returns ` more function` if the count is 1, and otherwise ` more functions`, followed by a line feed.
fn more_functions_text(count: usize) -> &'static str
    ensures { result.now ≡ more_functions_text count }
{
    if count == 1 {
        " more function\n"
    } else {
        " more functions\n"
    }
}
