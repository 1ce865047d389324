//! Steps that do not change the bus.

ghost use Rattle.std.specs.Prelude.{◌≡◌, ◌≤◌, ◌+◌};
ghost use Rattle.rv_hang.specs.Quiet.{are_outside_console, has_byte_stored, is_instr_quiet, is_step_quiet, is_store_redundant, has_value_stored};
ghost use Rattle.rv_hang.specs.Quiet.{consumes_script};
ghost use Rattle.rv_trace.specs.IsaWords.{IsWellFormed};
ghost use Rattle.rv_trace.specs.Effect.{address, rs2_value};
ghost use Rattle.rv_trace.specs.Machine.{state_of};
ghost use Rattle.rv_trace.specs.Bus.{size_of};

use rv_trace::{Bus, Instr, Machine, Op, Width, accessed_address, code_at, instr_of};

/// Whether the next step of a machine cannot change the bus. False if there is no instruction at the pc.
pub(crate) fn is_step_quiet(machine: &Machine) -> bool
    ensures { result ≡ is_step_quiet (state_of machine.now) }
{
    match code_at(machine.bus(), machine.pc()) {
        Some(code) => match instr_of(code) {
            Some(instr) => is_instr_quiet(machine, instr),
            None => false,
        },
        None => false,
    }
}

// Whether an instruction, executed in this state, cannot change the bus.
fn is_instr_quiet(machine: &Machine, instr: Instr) -> bool
    requires { IsWellFormed instr }
    ensures { result ≡ is_instr_quiet instr.op instr (state_of machine.now) }
{
    match instr.op {
        Op::Lw => !consumes_script(machine.bus(), accessed_address(machine, instr)),
        Op::Sb => is_store_quiet(machine, instr, Width::Byte),
        Op::Sh => is_store_quiet(machine, instr, Width::Half),
        Op::Sw => is_store_quiet(machine, instr, Width::Word),
        Op::FenceI => false,
        _ => true,
    }
}

// Whether a word load from this address consumes a byte of the console's input script: the address is the console's first, and the script
// has a byte left.
fn consumes_script(bus: &Bus, addr: u32) -> bool
    ensures { result ≡ consumes_script bus.now addr }
{
    addr == 0x1000_0000 && bus.script_remaining() != 0
}

// Whether a store instruction of this width, executed in this state, cannot change the bus.
fn is_store_quiet(machine: &Machine, instr: Instr, width: Width) -> bool
    requires { IsWellFormed instr }
    ensures { result ≡ is_store_redundant (state_of machine.now).bus (address (state_of machine.now) instr) width
        (rs2_value (state_of machine.now) instr) }
{
    is_store_redundant(
        machine.bus(),
        accessed_address(machine, instr),
        width,
        machine.reg(instr.rs2),
    )
}

// Whether a store would change nothing: it is outside the console, and the bytes there already have these values and are marked as stored.
fn is_store_redundant(bus: &Bus, addr: u32, width: Width, value: u32) -> bool
    ensures { result ≡ is_store_redundant bus.now addr width value }
{
    are_outside_console(addr, width) && has_value_stored(bus, addr, width, value)
}

// Whether all bytes of an access of this width are in the address space and outside the console.
fn are_outside_console(addr: u32, width: Width) -> bool
    ensures { result ≡ are_outside_console addr (size_of width) }
{
    let end = u64::from(addr) + u64::from(width.size());
    end <= 0x1000_0000 || (addr >= 0x1000_0010 && end <= 0x1_0000_0000)
}

// Whether the bytes at an address already have the values that a store of this width and value would give them, and are marked as stored.
fn has_value_stored(bus: &Bus, addr: u32, width: Width, value: u32) -> bool
    requires { addr + size_of width ≤ 0x1_0000_0000 }
    ensures { result ≡ has_value_stored bus.now addr width value }
{
    match width {
        Width::Byte => has_byte_stored(bus, addr, value % 0x100),
        Width::Half => {
            has_byte_stored(bus, addr, value % 0x100)
                && has_byte_stored(bus, addr + 1, value / 0x100 % 0x100)
        }
        Width::Word => {
            has_byte_stored(bus, addr, value % 0x100)
                && has_byte_stored(bus, addr + 1, value / 0x100 % 0x100)
                && has_byte_stored(bus, addr + 2, value / 0x1_0000 % 0x100)
                && has_byte_stored(bus, addr + 3, value / 0x100_0000 % 0x100)
        }
    }
}

// Whether the byte at an address already has this value and is marked as stored.
fn has_byte_stored(bus: &Bus, addr: u32, byte: u32) -> bool
    ensures { result ≡ has_byte_stored bus.now addr byte }
{
    match bus.byte(addr) {
        Some(value) => u32::from(value) == byte && bus.is_stored(addr),
        None => false,
    }
}
