//! The counts of a run.

ghost use Rattle.std.specs.Prelude.{◌^◌, ◌<◌, ℕ, IfOk, Ok, OnOk};
ghost use Rattle.rv_count_tables.specs.Table.{executed_at};
ghost use Rattle.rv_trace.specs.IntermediateState.{IsIntermediateState};
ghost use Rattle.rv_trace.specs.Machine.{state_of};
ghost use Rattle.rv_counting.specs.Blocks.{IsValidCache};
ghost use Rattle.rv_counting.specs.Counters.{counts_of, HasCountedFrom};
ghost use Rattle.rv_counting.specs.Coverage.{AreCountsOf, AreConsistentCounts};
ghost use Rattle.rv_counting.specs.Tallies.{IsIndexed};

use crate::counter::Counter;
use rv_count_tables::Addresses;
use rv_trace::{Machine, PartialRun};
use std::alloc::{AllocError, Global};

/// Runs a machine within a budget of steps, and returns the counts of the run. Takes longer than the run alone: each instruction that is
/// not run as part of a cached block needs a lookup of its counts, and from time to time the counts are sorted by address. Takes 256 KiB of
/// memory for the decode cache, and for each executed address its counts and an index entry.
pub fn count_run(alloc: Global, machine: Machine, budget: u32) -> Result<Addresses, AllocError>
    ensures { IfOk result (λ counts. AreCountsOf budget (state_of machine) counts) }
{
    let mut counter = Counter::new(alloc)?;
    let _run = follow_run(&mut counter, machine, budget)?;
    Ok(counter.into_addresses())
}

/// Runs a machine within a budget of steps, and adds what it executes to the counts. Returns the machine at the end of the run, and the
/// number of completed steps.
pub(crate) fn follow_run(
    counter: &mut Counter,
    machine: Machine,
    budget: u32,
) -> Result<PartialRun, AllocError>
    requires consistent { AreConsistentCounts (counts_of counter.old) }
    requires few { (at : ℕ) → executed_at at (counts_of counter.old) < 2 ^ 61 }
    requires indexed { IsIndexed counter.old.counts_by_address }
    requires valid { IsValidCache counter.old.cache (state_of machine) }
    requires generations { counter.old.cache.generation < 2 ^ 61 }
    ensures counted { OnOk result (HasCountedFrom (counts_of counter.old) counter.old.cache.generation budget (state_of machine) counter.new) }
    ensures run { IfOk result (λ run. IsIntermediateState (Ok (state_of machine)) budget run.steps (state_of run.machine)) }
{
    let mut machine = machine;
    let mut remaining = budget;
    'steps: while remaining > 0 {
        let block = counter.find_block(&machine, remaining);
        if block.steps == 0 {
            let step = counter.step_uncached(&mut machine)?;
            if !step.completed {
                let steps = budget - remaining;
                return Ok(PartialRun { machine, steps });
            }
            remaining -= 1;
        } else {
            let outcome = counter.run_block(&mut machine, block)?;
            if outcome.steps != block.steps {
                let steps = budget - remaining + outcome.steps;
                return Ok(PartialRun { machine, steps });
            }
            remaining -= block.steps;
        }
    }
    Ok(PartialRun {
        machine,
        steps: budget,
    })
}
