//! The watchpoints that a step triggers.

ghost use Rattle.std.specs.Prelude.{◌≡◌, IfOk, option_map};
ghost use Rattle.std.specs.List.{find};
ghost use Rattle.rv_trace.specs.Machine.{state_of};
ghost use Rattle.rv_history.specs.Accesses.{is_hit};
ghost use Rattle.rv_history.specs.Stops.{first_hit, first_read, first_triggered, access_hit};

use crate::access::{Access, access_at};
use crate::stops::{Stops, Watch, WatchHit};
use rv_trace::Machine;
use std::alloc::{AllocError, Global};

impl Stops {
    /// Returns the first read watchpoint that the instruction at a machine's pc triggers, or else the first access watchpoint, or `None` if
    /// it triggers neither.
    pub(crate) fn access_hit(&self, machine: &Machine) -> Option<WatchHit>
        ensures { result ≡ access_hit self.now (state_of machine.now) }
    {
        // The instruction is decoded only if this is needed.
        if self.have_no_access_watchpoints() {
            return None;
        }
        let access = access_at(machine)?;
        if let Some(address) = first_read(access, self.reads.as_slice()) {
            return Some(WatchHit::Read(address));
        }
        let address = first_hit(access, self.accesses.as_slice())?;
        Some(WatchHit::Access(address))
    }

    /// Returns the first watchpoint that a step triggers, or `None` if it triggers none. Watchpoints for changes come first, then those for
    /// reads, then those for accesses. `before` and `after` are the machine before and after the step.
    pub(crate) fn first_triggered(
        &self,
        alloc: Global,
        before: &Machine,
        after: &Machine,
    ) -> Result<Option<WatchHit>, AllocError>
        ensures { IfOk result (λ found. found ≡ first_triggered self.now (state_of before.now) (state_of after.now)) }
    {
        match self.differing_watch(alloc, before.bus(), after.bus())? {
            Some(address) => Ok(Some(WatchHit::Change(address))),
            None => Ok(self.access_hit(before)),
        }
    }
}

// Returns the address of the first watchpoint that an access triggers, or `None` if the access is not a read or triggers none.
fn first_read(access: Access, watches: &[Watch]) -> Option<u32>
    ensures { result ≡ first_read access watches.now }
{
    if access.is_read {
        first_hit(access, watches)
    } else {
        None
    }
}

// Returns the address of the first watchpoint that an access triggers, or `None` if it triggers none.
fn first_hit(access: Access, watches: &[Watch]) -> Option<u32>
    ensures { result ≡ first_hit access watches.now }
{
    let watch = hit_watch(access, watches)?;
    Some(watch.address)
}

// Returns the first watchpoint that an access triggers, or `None` if it triggers none.
fn hit_watch(access: Access, watches: &[Watch]) -> Option<&Watch>
    ensures { option_map (λ watch. watch.now) result ≡ find (is_hit access) watches.now }
{
    watches.iter().find(|watch| access.is_hit(watch))
}
