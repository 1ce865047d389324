//! The profile of an image.

ghost use Rattle.std.specs.Prelude.{◌≡◌, IfOk, true};
ghost use Rattle.rv_profile.specs.ImageStacks.{fit_in_64_bits, sums_of};
ghost use Rattle.rv_count_tables.specs.Trees.{IsTree};
ghost use Rattle.rv_profile.specs.Profile.{AreWithin, IsProfileOf, profiles_of};

use crate::function::FunctionProfile;
use crate::functions::functions_by_own_steps;
use crate::image_stacks::ImageStacks;
use crate::sums::{Sums, sums_of};
use std::alloc::{AllocError, Global};

/// The profile of an image.
#[derive(Drop)]
pub(crate) struct ImageProfile<'t> {
    /// The total steps and calls of all nodes.
    pub(crate) sums: Sums,
    /// The functions, those with the most own steps first.
    pub(crate) functions: Vec<FunctionProfile<'t>>,
    ghost within: { AreWithin sums.steps (profiles_of functions.items) },
}

/// Returns the profile of the image with this call tree.
pub(crate) fn profile_of_image<'t>(
    alloc: Global,
    stacks: ImageStacks<'t>,
) -> Result<ImageProfile<'t>, AllocError>
    requires tree { IsTree stacks.nodes.now }
    requires fits { fit_in_64_bits (sums_of stacks.nodes.now) ≡ true }
    ensures sums { IfOk result (λ profile. profile.sums ≡ sums_of stacks.entry.nodes.now) }
    ensures functions { IfOk result (λ profile. IsProfileOf stacks.entry.nodes.now stacks.entry.names.now (profiles_of profile.functions.items)) }
{
    let functions = functions_by_own_steps(alloc, stacks)?;
    let sums = sums_of(stacks.nodes).unwrap();
    Ok(ImageProfile { sums, functions })
}
