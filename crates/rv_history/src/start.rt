//! The start of a run.

ghost use Rattle.std.specs.Prelude.{◌≡◌, ◌%◌, IfOk, false};
ghost use Rattle.rv_trace.specs.Machine.{state_of};
ghost use Rattle.rv_trace.specs.State.{is_misaligned};

use rv_trace::{Bus, Isa, Machine};
use std::alloc::{AllocError, Global};

/// The start of a run: a hart at reset and a bus, which is copied for each run.
#[derive(Drop)]
pub struct Start {
    pub bus: Bus,
    /// The entry address. It is even, and a multiple of 4 if the instruction set has no 16-bit instructions.
    pub entry: u32,
    pub isa: Isa,
    pub ghost even: { entry % 2 ≡ 0 },
    pub ghost aligned: { is_misaligned isa entry ≡ false },
}

impl Start {
    ghost use Rattle.rv_history.specs.Starts.{start_of};

    /// Returns a machine at the start of the run.
    pub(crate) fn machine(&self, alloc: Global) -> Result<Machine, AllocError>
        ensures { IfOk result (λ machine. state_of machine ≡ start_of self.now) }
    {
        let bus = self.bus.try_clone(alloc)?;
        Machine::new(alloc, bus, self.entry, self.isa)
    }
}
