//! The values that `clap` found for arguments.

ghost use Rattle.std.specs.Prelude.{◌≡◌, ◌≤◌, IfOk, IfSome, map, option_map};
ghost use Rattle.clap.specs.Words.{first_of, found_of, rows_of};
ghost use Rattle.rv_cli.specs.Values.{argument_values, is_flag_set, is_option_given, number_value, parsed_number_value};

use clap::ArgMatches;
use std::alloc::{AllocError, Global};

/// Returns the number that was given for the argument `id`, or `None` if there is none or it is not from `low` to `high`. `clap` has
/// checked the range before; this check makes it known to the caller.
pub fn number_value(values: &ArgMatches<'_>, id: &str, low: u32, high: u32) -> Option<u32>
    ensures value { result ≡ number_value id.now low high (rows_of (found_of values.now)) }
    ensures within { IfSome result (λ number. (low ≤ number) × (number ≤ high)) }
{
    let number = parsed_number_value(values, id)?;
    if low <= number && number <= high {
        Some(number)
    } else {
        None
    }
}

// Returns the number that was given for the argument `id`, or `None` if there is none.
fn parsed_number_value(values: &ArgMatches<'_>, id: &str) -> Option<u32>
    ensures { result ≡ parsed_number_value id.now (rows_of (found_of values.now)) }
{
    values.get_one::<u32>(id)
}

/// Returns the first value that was given for the argument `id`, as it was written, or `None` if there is none.
pub fn text_value<'a>(values: &ArgMatches<'a>, id: &str) -> Option<&'a str>
    ensures { option_map (λ text. text.now) result
        ≡ first_of id.now (rows_of (found_of values.now)) }
{
    values.get_str(id)
}

/// Whether the option `id`, which has no value, was given.
pub fn is_flag_set(values: &ArgMatches<'_>, id: &str) -> bool
    ensures { result ≡ is_flag_set id.now (rows_of (found_of values.now)) }
{
    match text_value(values, id) {
        Some(text) => text == "true",
        None => false,
    }
}

/// Whether the option `id`, which has a value, was given.
pub fn is_option_given(values: &ArgMatches<'_>, id: &str) -> bool
    ensures { result ≡ is_option_given id.now (rows_of (found_of values.now)) }
{
    text_value(values, id).is_some()
}

/// Returns all values that were given for the argument `id`, in order.
pub fn argument_values<'a>(
    alloc: Global,
    values: &ArgMatches<'a>,
    id: &str,
) -> Result<Vec<&'a str>, AllocError>
    ensures { IfOk result (λ texts. map (λ text. text.now) texts.items
        ≡ argument_values id.now (rows_of (found_of values.now))) }
{
    match values.get_strs(id) {
        Some(texts) => texts.to_vec(alloc),
        None => Ok(Vec::new(alloc)),
    }
}
