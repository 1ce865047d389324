//! The functions of an image, those with the most own steps first.

ghost use Rattle.std.specs.Prelude.{◌≡◌, IfOk, map, true};
ghost use Rattle.rv_profile.specs.ImageStacks.{fit_in_64_bits, sums_of};
ghost use Rattle.rv_count_tables.specs.Trees.{IsTree};
ghost use Rattle.rv_profile.specs.Profile.{IsProfileOf, function_counts, profiles_of};

use crate::function::{FunctionProfile, profile_of_function};
use crate::image_stacks::ImageStacks;
use rv_count_tables::CallTreeIndex;
use std::alloc::{AllocError, Global};

/// Returns the functions of an image with their counts in its call tree, sorted by own steps in descending order, and by address where
/// these are equal. Takes as long as sorting the nodes and the functions.
pub(crate) fn functions_by_own_steps<'t>(
    alloc: Global,
    stacks: ImageStacks<'t>,
) -> Result<Vec<FunctionProfile<'t>>, AllocError>
    requires tree { IsTree stacks.nodes.now }
    requires fits { fit_in_64_bits (sums_of stacks.nodes.now) ≡ true }
    ensures { IfOk result (λ profiles. IsProfileOf stacks.entry.nodes.now stacks.entry.names.now (profiles_of profiles.items)) }
{
    let mut functions = functions_of_stacks(alloc, stacks)?;
    functions.sort_by_key(|function| u64::MAX - function.steps.own)?;
    Ok(functions)
}

// Returns the functions of an image with their counts in its call tree, sorted by address.
fn functions_of_stacks<'t>(
    alloc: Global,
    stacks: ImageStacks<'t>,
) -> Result<Vec<FunctionProfile<'t>>, AllocError>
    requires tree { IsTree stacks.nodes.now }
    requires fits { fit_in_64_bits (sums_of stacks.nodes.now) ≡ true }
    ensures { IfOk result (λ profiles. profiles_of profiles.items ≡ map (function_counts stacks.entry.nodes.now) stacks.entry.names.now) }
{
    let index = CallTreeIndex::new(alloc, stacks.nodes)?;
    let mut functions = Vec::new(alloc);
    for named in stacks.names {
        functions.push(profile_of_function(&index, named))?;
    }
    Ok(functions)
}
