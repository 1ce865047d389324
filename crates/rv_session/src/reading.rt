//! Registers and memory at the session's position.

ghost use Rattle.std.specs.Prelude.{◌≡◌, IfOk};
ghost use Rattle.std.specs.Str.{bytes_eq};
ghost use Rattle.rv_gdb_protocol.specs.RegisterTexts.{register_text};
ghost use Rattle.rv_session.specs.SessionReplies.{hart_value, memory_reply, current_registers, shown_count, script_bytes_consumed, value_of};
ghost use Rattle.rv_session.specs.Memory.{bytes_requested, bytes_from};
ghost use Rattle.rv_session.specs.Replies.{with_body};
ghost use Rattle.rv_session.specs.Sessions.{current_state};

use crate::reply::Reply;
use crate::session::Session;
use rv_gdb_protocol::{Range, Refusal, Register, push_memory, push_register, push_registers};
use rv_history::Bus;
use std::alloc::{AllocError, Global};

/// The maximum number of bytes of memory in a reply, which has two digits for each.
const MAX_BYTES: u32 = 8184;

impl Session {
    /// Handles `g`: returns the reply with the values of x0 to x31 and the pc.
    pub(crate) fn registers(&self, alloc: Global) -> Result<Reply, AllocError>
        ensures { IfOk result (λ reply. reply ≡ with_body (current_registers self.now)) }
    {
        let machine = self.history.machine();
        let mut body = Vec::new(alloc);
        push_registers(&mut body, &machine.registers(), machine.pc())?;
        Ok(Reply::with_body(alloc, body))
    }

    /// Handles `p`: returns the reply with the value of a register.
    pub(crate) fn register(&self, alloc: Global, register: Register) -> Result<Reply, AllocError>
        ensures { IfOk result (λ reply. reply ≡ with_body (register_text (value_of self.now register))) }
    {
        let mut body = Vec::new(alloc);
        push_register(&mut body, self.value(register))?;
        Ok(Reply::with_body(alloc, body))
    }

    /// Returns the value of a register of the target description at the current step.
    pub(crate) fn value(&self, register: Register) -> u32
        ensures { result ≡ value_of self.now register }
    {
        match register {
            Register::Hart(number) => self.hart_value(number),
            Register::Steps => self.history.current_step(),
            Register::Printed => shown_count(self.history.machine().bus().console().len()),
            Register::Taken => shown_count(self.script_bytes_consumed()),
        }
    }

    // Returns the value at the current step of the register `x<number>` if the number is below 32, and of the pc otherwise.
    fn hart_value(&self, number: u32) -> u32
        ensures { result ≡ hart_value self.now number }
    {
        let machine = self.history.machine();
        if number < 32 {
            machine.reg(number as u8)
        } else {
            machine.pc()
        }
    }

    /// Returns the number of bytes that the program has consumed from the input script.
    pub(crate) fn script_bytes_consumed(&self) -> usize
        ensures { result ≡ script_bytes_consumed self.now }
    {
        let remaining = self.history.machine().bus().script_remaining();
        self.script.saturating_sub(remaining)
    }

    /// Handles `m`: returns the reply with the bytes of a range, up to the first address outside the regions. If there are none, returns a
    /// refusal.
    pub(crate) fn memory(&self, alloc: Global, range: Range) -> Result<Reply, AllocError>
        ensures { IfOk result (λ reply. reply ≡ memory_reply (bytes_from (current_state self.now).bus range)) }
    {
        let bytes = bytes_from(alloc, self.history.machine().bus(), range)?;
        if bytes.as_slice().is_empty() {
            return Reply::error_reply(alloc, Refusal::Failed);
        }
        let mut body = Vec::new(alloc);
        push_memory(alloc, &mut body, bytes.as_slice())?;
        Ok(Reply::with_body(alloc, body))
    }
}

/// Whether two texts are equal.
pub(crate) fn are_equal(first: &[u8], second: &[u8]) -> bool
    ensures { result ≡ bytes_eq first.now second.now }
{
    first == second
}

/// Returns the count, or 2^32 - 1 if it does not fit in 32 bits.
pub(crate) fn shown_count(count: usize) -> u32
    ensures { result ≡ shown_count count }
{
    count.min(u32::MAX as usize) as u32
}

// Returns how many bytes of a range to read: no more than fit in a reply, and none past the end of the address space.
fn bytes_requested(range: Range) -> u32
    ensures { result ≡ bytes_requested range }
{
    let room = (1u64 << 32) - u64::from(range.address);
    let count = range.count.min(MAX_BYTES);
    u64::from(count).min(room) as u32
}

// Returns the bytes of a range, up to the first address outside the regions.
fn bytes_from(alloc: Global, bus: &Bus, range: Range) -> Result<Vec<u8>, AllocError>
    ensures { IfOk result (λ bytes. bytes.items ≡ bytes_from bus.now range) }
{
    let count = bytes_requested(range);
    let mut bytes = Vec::new(alloc);
    for offset in 0..count {
        match bus.byte(range.address + offset) {
            Some(byte) => bytes.push(byte)?,
            None => return Ok(bytes),
        }
    }
    Ok(bytes)
}
