//! The nodes of a call tree while a run is counted.

ghost use Rattle.std.specs.Prelude.{◌+◌, ◌^◌, ◌<◌, IfOk, length};
ghost use Rattle.rv_stacks.specs.Nodes.{all_calls, all_steps, EntersOnce, HasChild, StepsMore};

use crate::children::Children;
use std::alloc::AllocError;

/// A node of the call tree of a run in progress. It represents a path of functions, each of which called the next: the path of its parent,
/// then its own function. Nodes are numbered from 1 in order of creation.
#[derive(Clone, Copy)]
pub struct WalkNode {
    /// The parent's number, or 0 if the node has no parent.
    pub parent: usize,
    /// The address of the node's own function.
    pub function: u32,
    /// How often a run entered the node by a call or a jump.
    pub calls: u64,
    /// The number of instructions executed in the node.
    pub steps: u64,
}

/// Returns the number of the child of the node `parent` for this function. Creates the child if it does not exist.
pub(crate) fn number_of_child(
    nodes: &mut Vec<WalkNode>,
    children: &mut Children,
    parent: usize,
    function: u32,
) -> Result<usize, AllocError>
    requires { parent < length nodes.old.items + 1 }
    ensures { IfOk result (λ number. HasChild parent function nodes.old.items number nodes.new.items) }
{
    if let Some(number) = children.find(nodes.as_slice(), parent, function) {
        return Ok(number);
    }
    nodes.push(WalkNode {
        parent,
        function,
        calls: 0,
        steps: 0,
    })?;
    let number = nodes.len();
    children.add(parent, function, number)?;
    Ok(number)
}

/// Counts one entry into the node with this number.
pub(crate) fn count_call(nodes: &mut Vec<WalkNode>, number: usize)
    requires positive { 0 < number }
    requires within { number < length nodes.old.items + 1 }
    requires calls_fit { all_calls nodes.old.items < 2 ^ 63 }
    ensures { EntersOnce number nodes.old.items nodes.new.items }
{
    let old = nodes[number - 1];
    nodes[number - 1] = WalkNode {
        parent: old.parent,
        function: old.function,
        calls: old.calls + 1,
        steps: old.steps,
    };
}

/// Counts `steps` instructions in the node with this number.
pub(crate) fn count_steps(nodes: &mut Vec<WalkNode>, number: usize, steps: u32)
    requires positive { 0 < number }
    requires within { number < length nodes.old.items + 1 }
    requires steps_fit { all_steps nodes.old.items < 2 ^ 63 }
    ensures { StepsMore steps number nodes.old.items nodes.new.items }
{
    let old = nodes[number - 1];
    nodes[number - 1] = WalkNode {
        parent: old.parent,
        function: old.function,
        calls: old.calls,
        steps: old.steps + u64::from(steps),
    };
}
