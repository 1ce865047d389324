//! The summary of a sum of count tables.

ghost use Rattle.std.specs.Prelude.{◌≡◌, ◌+◌, IfOk};
ghost use Rattle.rvtest_app.specs.CountSums.{executed_at_addresses, executed_in_images, image_word, instruction_word, at_least_prefix, run_word, capped_number, sum_note};

use rv_count_tables::{AddressCounts, CountTable, ImageCounts};
use rv_job_text::{Span, text_of_spans};
use std::alloc::{AllocError, Global};

/// Returns the line that summarizes a table of counts: its number of runs, of images and of executed instructions.
pub(crate) fn sum_note(alloc: Global, table: &CountTable) -> Result<Vec<u8>, AllocError>
    ensures { IfOk result (λ note. note.items ≡ sum_note table.now) }
{
    let images = table.images.as_slice();
    let count = images.len() as u64;
    let executed = executed_in_images(images);
    text_of_spans(
        alloc,
        &[
            Span::Number(table.runs),
            Span::Text(run_word(table.runs)),
            Span::Number(count),
            Span::Text(image_word(count)),
            Span::Text(at_least_prefix(executed)),
            Span::Number(executed),
            Span::Text(instruction_word(executed)),
        ],
    )
}

// Returns " run of " for one run, and " runs of " for any other number.
fn run_word(count: u64) -> &'static str
    ensures { result.now ≡ run_word count }
{
    if count == 1 { " run of " } else { " runs of " }
}

// Returns " image, " for one image, and " images, " for any other number.
fn image_word(count: u64) -> &'static str
    ensures { result.now ≡ image_word count }
{
    if count == 1 { " image, " } else { " images, " }
}

// Returns " instruction" if the count is 1, and otherwise " instructions", followed by a line feed.
fn instruction_word(count: u64) -> &'static str
    ensures { result.now ≡ instruction_word count }
{
    if count == 1 {
        " instruction\n"
    } else {
        " instructions\n"
    }
}

// Returns "at least " for the greatest 64-bit number, at which the sum saturates, and an empty text for any other number.
fn at_least_prefix(number: u64) -> &'static str
    ensures { result.now ≡ at_least_prefix number }
{
    if number == u64::MAX { "at least " } else { "" }
}

// Returns how many instructions were executed in these images, saturating at the greatest 64-bit number.
fn executed_in_images(images: &[ImageCounts]) -> u64
    ensures { result ≡ capped_number (executed_in_images images.now) }
{
    let mut total = 0;
    for image in images {
        total = add_executed(total, image.addresses.as_slice());
    }
    total
}

// Returns `before` plus the number of instructions executed at these addresses, saturating at the greatest 64-bit number.
fn add_executed(before: u64, addresses: &[AddressCounts]) -> u64
    ensures { result ≡ capped_number (before + executed_at_addresses addresses.now) }
{
    let mut total = before;
    for counts in addresses {
        total = total.saturating_add(counts.executed);
    }
    total
}
