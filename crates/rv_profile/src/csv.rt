//! Profiles as comma-separated values (RFC 4180), for tools. Each line ends with a line feed.

ghost use Rattle.std.specs.Prelude.{◌≡◌, ◌++◌, OnOk};
ghost use Rattle.rv_profile.specs.Csv.{csv_header, csv_numbers, csv_row, csv_rows};
ghost use Rattle.rv_profile.specs.Profile.{function_counts_of, profiles_of};

use crate::function::FunctionProfile;
use rv_count_tables::{Span, push_spans, push_text};
use rv_cover_view::push_csv_field;
use std::alloc::AllocError;

/// Appends the first line of the CSV, with the column names.
#[tactic(auto, unfolding(crate::specs::Csv::csv_header))]
pub(crate) fn push_csv_header(bytes: &mut Vec<u8>) -> Result<(), AllocError>
    ensures { OnOk result (bytes.new.items ≡ bytes.old.items ++ csv_header) }
{
    push_text(bytes, "image,function,address,self,inclusive,calls\n")
}

/// Appends the CSV rows of these functions of the image with this path.
pub(crate) fn push_csv_rows(
    bytes: &mut Vec<u8>,
    path: &[u8],
    functions: &[FunctionProfile<'_>],
) -> Result<(), AllocError>
    ensures { OnOk result (bytes.new.items ≡ bytes.old.items ++ csv_rows path.now (profiles_of functions.now)) }
{
    for function in functions {
        push_csv_row(bytes, path, function)?;
    }
    Ok(())
}

// Appends the CSV row of a function of the image with this path.
#[tactic(auto, unfolding(crate::specs::Csv::csv_row))]
fn push_csv_row(
    bytes: &mut Vec<u8>,
    path: &[u8],
    function: &FunctionProfile<'_>,
) -> Result<(), AllocError>
    ensures { OnOk result (bytes.new.items ≡ bytes.old.items ++ csv_row path.now (function_counts_of function.now)) }
{
    push_csv_field(bytes, path)?;
    push_text(bytes, ",")?;
    push_csv_field(bytes, function.name.as_bytes())?;
    push_csv_numbers(bytes, function)
}

// Appends the rest of a CSV row after the function's name: the address and the counts, each preceded by a comma, and a line feed.
#[tactic(auto, unfolding(crate::specs::Csv::csv_numbers))]
fn push_csv_numbers(bytes: &mut Vec<u8>, function: &FunctionProfile<'_>) -> Result<(), AllocError>
    ensures { OnOk result (bytes.new.items ≡ bytes.old.items ++ csv_numbers (function_counts_of function.now)) }
{
    push_spans(
        bytes,
        &[
            Span::Text(","),
            Span::Word(function.function),
            Span::Text(","),
            Span::Number(function.steps.own),
            Span::Text(","),
            Span::Number(function.steps.inclusive),
            Span::Text(","),
            Span::Number(function.steps.calls),
            Span::Text("\n"),
        ],
    )
}
