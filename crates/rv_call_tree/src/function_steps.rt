//! The counts of each function.

ghost use Rattle.std.specs.Prelude.{◌≡◌, IfOk, OnOk};
ghost use Rattle.rv_call_tree.specs.Profiles.{with_function, AreFunctionsOf};

use crate::call_node::CallNode;
use std::alloc::{AllocError, Global};

/// How often a run called a function, and how many instructions it executed there.
#[derive(Clone, Copy, Debug, PartialEq, Eq)]
pub struct FunctionSteps {
    /// The number of instructions executed in the function itself.
    pub own: u64,
    /// The number of instructions executed in the function and in the functions that it called. Each path that has the function counts
    /// once, even if the function occurs in it several times.
    pub inclusive: u64,
    /// The number of entries into the function, by calls and by jumps.
    pub calls: u64,
}

/// Returns the functions in which the nodes' paths end, each once, in order of first occurrence.
pub fn functions_of(alloc: Global, nodes: &[CallNode]) -> Result<Vec<u32>, AllocError>
    ensures { IfOk result (λ functions. AreFunctionsOf nodes.now functions.items) }
{
    let mut functions = Vec::new(alloc);
    for node in nodes {
        add_function(&mut functions, node.function)?;
    }
    Ok(functions)
}

// Appends a function, unless the list already has it.
fn add_function(functions: &mut Vec<u32>, function: u32) -> Result<(), AllocError>
    ensures { OnOk result (functions.new.items ≡ with_function function functions.old.items) }
{
    if functions.as_slice().contains(&function) {
        return Ok(());
    }
    functions.push(function)?;
    Ok(())
}
