//! The first functions of an image.

ghost use Rattle.std.specs.Prelude.{◌≡◌};
ghost use Rattle.rv_profile.specs.Text.{first_or_all};

use crate::function::FunctionProfile;

/// Returns the first `top` functions, or all functions if `top` is not given or there are fewer.
pub(crate) fn first_or_all<'f, 't>(
    top: Option<u32>,
    functions: &'f [FunctionProfile<'t>],
) -> &'f [FunctionProfile<'t>]
    ensures { result.now ≡ first_or_all top functions.now }
{
    match top {
        Some(count) if (count as usize) < functions.len() => &functions[..count as usize],
        _ => functions,
    }
}
