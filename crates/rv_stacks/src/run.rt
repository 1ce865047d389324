//! The counts and the call tree of a run.

ghost use Rattle.std.specs.Prelude.{◌≡◌, IfOk};
ghost use Rattle.rv_counting.specs.Counters.{HasCounted};
ghost use Rattle.rv_counting.specs.Coverage.{AreCountsOf};
ghost use Rattle.rv_counting.specs.Machine.{state_of};
ghost use Rattle.rv_stacks.specs.StackSteps.{AreNodesOf};
ghost use Rattle.rv_stacks.specs.Stacks.{function_at, AreStacksOf};

use crate::stacks::Stacks;
use rv_count_tables::{Addresses, CallNodes};
use rv_counting::{CodeSymbols, Counter, Machine};
use std::alloc::{AllocError, Global};

/// Runs a machine within a budget of steps, and returns its counts and its call tree. Functions are delimited by the symbols. Takes longer
/// than the run alone, and needs memory for each address and each path that the run reaches.
pub fn count_with_stacks(
    alloc: Global,
    machine: Machine,
    budget: u32,
    symbols: &CodeSymbols<'_>,
) -> Result<(Addresses, CallNodes), AllocError>
    ensures counts { IfOk result (λ both. AreCountsOf budget (state_of machine) both.0) }
    ensures stacks { IfOk result (λ both. AreStacksOf (function_at symbols.now.image.now symbols.now.bytes.now) budget
        (state_of machine) both.1) }
{
    let (counter, stacks) = follow_run(alloc, machine, budget, symbols)?;
    let nodes = stacks.walk.into_preorder(alloc)?;
    Ok((counter.into_addresses(), nodes))
}

// Runs the machine, and returns its counts and its call tree. Blocks within one function are executed as a whole, and all other
// instructions one at a time.
fn follow_run(
    alloc: Global,
    machine: Machine,
    budget: u32,
    symbols: &CodeSymbols<'_>,
) -> Result<(Counter, Stacks), AllocError>
    ensures counts { IfOk result (λ both. HasCounted budget (state_of machine) both.0) }
    ensures stacks { IfOk result (λ both. AreNodesOf (function_at symbols.now.image.now symbols.now.bytes.now) budget
        (state_of machine) both.1.walk.nodes.items) }
{
    let mut machine = machine;
    let mut counter = Counter::new(alloc)?;
    let mut stacks = Stacks::new(alloc, symbols, machine.pc())?;
    let mut remaining = budget;
    'steps: while remaining > 0 {
        let block = stacks.straight_block(symbols, &counter, &machine, remaining);
        if block.steps == 0 {
            if !stacks.step(symbols, &mut machine, &mut counter)? {
                return Ok((counter, stacks));
            }
            remaining -= 1;
        } else {
            if !stacks.run_block(&mut machine, &mut counter, block)? {
                return Ok((counter, stacks));
            }
            remaining -= block.steps;
        }
    }
    Ok((counter, stacks))
}
