//! The state of a hart without the bus: its pc and registers.

ghost use Rattle.std.specs.Prelude.{◌≡◌};
ghost use Rattle.rv_hang.specs.Repetition.{has_values};
ghost use Rattle.rv_trace.specs.Machine.{state_of};

use rv_trace::Machine;

/// The pc of a hart, and the values of x0 to x31.
#[derive(Clone, Copy)]
pub struct HartValues {
    pub pc: u32,
    pub registers: [u32; 32],
}

impl HartValues {
    /// Whether a machine's hart has this pc and these registers.
    pub(crate) fn match_machine(&self, machine: &Machine) -> bool
        ensures { result ≡ has_values self.now (state_of machine.now) }
    {
        machine.pc() == self.pc && machine.registers() == self.registers
    }
}
