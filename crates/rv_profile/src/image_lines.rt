//! The lines of an image in the profile table.

ghost use Rattle.std.specs.Prelude.{◌≡◌, ◌++◌, OnOk};
ghost use Rattle.rv_profile.specs.Profile.{AreWithin, profiles_of};
ghost use Rattle.rv_profile.specs.Text.{function_lines, functions_text, image_lines};

use crate::columns::{Columns, columns_of};
use crate::function::FunctionProfile;
use crate::image_profile::ImageProfile;
use crate::text::{push_column_header, push_function_line, push_more_line, push_steps_line};
use crate::top::first_or_all;
use std::alloc::{AllocError, Global};

/// Appends the lines of the image with this path: its number of steps, and then its functions. If `top` is given, only that many functions
/// are shown.
pub(crate) fn push_image_lines(
    alloc: Global,
    bytes: &mut Vec<u8>,
    top: Option<u32>,
    path: &[u8],
    profile: &ImageProfile<'_>,
) -> Result<(), AllocError>
    ensures { OnOk result (bytes.new.items ≡ bytes.old.items
        ++ image_lines top path.now profile.now.sums (profiles_of profile.now.functions.items)) }
{
    push_steps_line(bytes, path, profile.sums.steps)?;
    push_functions(alloc, bytes, top, profile)
}

// Appends a header, a line for each function, and the number of functions that are not shown. If `top` is given, only that many functions
// are shown. Appends nothing if there are no functions.
fn push_functions(
    alloc: Global,
    bytes: &mut Vec<u8>,
    top: Option<u32>,
    profile: &ImageProfile<'_>,
) -> Result<(), AllocError>
    ensures { OnOk result (bytes.new.items ≡ bytes.old.items
        ++ functions_text top profile.now.sums (profiles_of profile.now.functions.items)) }
{
    let functions = profile.functions.as_slice();
    if functions.is_empty() {
        return Ok(());
    }
    let columns = columns_of(alloc, profile.sums)?;
    let shown = first_or_all(top, functions);
    push_column_header(bytes, columns)?;
    push_function_lines(alloc, bytes, columns, profile.sums.steps, shown)?;
    push_more_line(bytes, functions.len() - shown.len())
}

// Appends the lines of functions. `steps` is the total of their image.
fn push_function_lines(
    alloc: Global,
    bytes: &mut Vec<u8>,
    columns: Columns,
    steps: u64,
    functions: &[FunctionProfile<'_>],
) -> Result<(), AllocError>
    requires { AreWithin steps (profiles_of functions.now) }
    ensures { OnOk result (bytes.new.items ≡ bytes.old.items
        ++ function_lines columns steps (profiles_of functions.now)) }
{
    for function in functions {
        push_function_line(alloc, bytes, columns, steps, function)?;
    }
    Ok(())
}
