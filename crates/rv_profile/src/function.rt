//! The counts of a function with its name.

ghost use Rattle.std.specs.Prelude.{◌≡◌};
ghost use Rattle.rv_profile.specs.Profile.{function_counts_of, function_counts};

use rv_count_tables::{CallTreeIndex, FunctionName, FunctionSteps};

/// The counts of a function with its name.
#[derive(Clone, Copy)]
pub(crate) struct FunctionProfile<'a> {
    pub(crate) name: &'a str,
    /// The function's address.
    pub(crate) function: u32,
    pub(crate) steps: FunctionSteps,
}

/// Returns the counts that a call tree has for the function with this name and address. Takes time linear in the number of nodes whose
/// paths end in the function.
pub(crate) fn profile_of_function<'a>(
    index: &CallTreeIndex<'_>,
    named: &'a FunctionName,
) -> FunctionProfile<'a>
    ensures { function_counts_of result ≡ function_counts index.now.nodes.now named.now }
{
    FunctionProfile {
        name: named.name.as_str(),
        function: named.function,
        steps: index.steps_of(named.function),
    }
}
