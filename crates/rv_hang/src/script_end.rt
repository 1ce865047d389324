//! Loads from the console's input script when it has no bytes left.

ghost use Rattle.std.specs.Prelude.{◌≡◌};
ghost use Rattle.rv_hang.specs.ScriptEnd.{loads_script_end, reads_script_end};
ghost use Rattle.rv_trace.specs.IsaWords.{IsWellFormed};
ghost use Rattle.rv_trace.specs.Machine.{state_of};

use rv_trace::{Instr, Machine, Op, accessed_address, code_at, instr_of};

/// Whether the next step of a machine is a load from the exhausted input script.
pub(crate) fn reads_script_end(machine: &Machine) -> bool
    ensures { result ≡ reads_script_end (state_of machine.now) }
{
    match code_at(machine.bus(), machine.pc()) {
        Some(code) => match instr_of(code) {
            Some(instr) => loads_script_end(machine, instr),
            None => false,
        },
        None => false,
    }
}

// Whether an instruction, executed in this state, is a word load from the console's first address while the script has no bytes left.
fn loads_script_end(machine: &Machine, instr: Instr) -> bool
    requires { IsWellFormed instr }
    ensures { result ≡ loads_script_end instr.op instr (state_of machine.now) }
{
    match instr.op {
        Op::Lw => {
            accessed_address(machine, instr) == 0x1000_0000 && machine.bus().script_remaining() == 0
        }
        _ => false,
    }
}
