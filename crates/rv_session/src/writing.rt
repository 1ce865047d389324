//! Writes to registers and memory. They are accepted only if they change nothing, except for writes to the run's counts, which are seeks.

ghost use Rattle.std.specs.Prelude.{◌≡◌, ◌&&◌, IfOk, nat_lt};
ghost use Rattle.std.specs.FinMap as fin;
ghost use Rattle.std.specs.Str.{bytes_eq};
ghost use Rattle.hex.specs.Hex.{encode_lower};
ghost use Rattle.rv_gdb_protocol.specs.declared.request.Refusal.TheVariants as refusal;
ghost use Rattle.rv_session.specs.SessionReplies.{IsRegisterWriteHandled, current_registers};
ghost use Rattle.rv_session.specs.Memory.{end_of_addresses, is_byte, has_bytes_at};
ghost use Rattle.rv_session.specs.Replies.{ok_if};
ghost use Rattle.rv_session.specs.Sessions.{current_state};

use crate::reading::are_equal;
use crate::reply::Reply;
use crate::session::Session;
use rv_gdb_protocol::{Refusal, Register, push_memory, push_registers};
use rv_history::{Bus, Count};
use std::alloc::{AllocError, Global};

/// One past the last address.
const END_OF_ADDRESSES: u64 = 0x1_0000_0000;

impl Session {
    /// Handles `G`: returns `OK` if the registers have these values already, and otherwise a refusal.
    pub(crate) fn write_registers(&self, alloc: Global, bytes: &[u8]) -> Result<Reply, AllocError>
        ensures { IfOk result (λ reply. reply
            ≡ ok_if (bytes_eq (current_registers self.now) (encode_lower bytes.now)) refusal.WouldChange) }
    {
        let machine = self.history.machine();
        let mut current = Vec::new(alloc);
        push_registers(&mut current, &machine.registers(), machine.pc())?;
        let mut requested = Vec::new(alloc);
        push_memory(alloc, &mut requested, bytes)?;
        let is_unchanged = are_equal(current.as_slice(), requested.as_slice());
        Reply::ok_if(alloc, is_unchanged, Refusal::WouldChange)
    }

    /// Handles `P`. A write to a register of the hart is accepted only if the register has this value already. A write to a count of the
    /// run moves to the first step at which the count has this value.
    pub(crate) fn write_register(
        &mut self,
        alloc: Global,
        register: Register,
        value: u32,
    ) -> Result<Reply, AllocError>
        ensures { IfOk result (λ reply. IsRegisterWriteHandled self.old register value reply self.new) }
    {
        match register {
            Register::Hart(_) => {
                let is_unchanged = self.value(register) == value;
                Reply::ok_if(alloc, is_unchanged, Refusal::WouldChange)
            }
            Register::Steps => self.seek_step(alloc, value),
            Register::Printed => self.seek_count(alloc, Count::Printed, value),
            Register::Taken => self.seek_count(alloc, Count::Taken, value),
        }
    }

    /// Handles `M` and `X`: returns `OK` if memory has these bytes already, and otherwise a refusal.
    pub(crate) fn write_memory(
        &self,
        alloc: Global,
        address: u32,
        bytes: &[u8],
    ) -> Result<Reply, AllocError>
        ensures { IfOk result (λ reply. reply
            ≡ ok_if (has_bytes_at (current_state self.now).bus address bytes.now) refusal.WouldChange) }
    {
        let is_unchanged = has_bytes_at(self.history.machine().bus(), address, bytes);
        Reply::ok_if(alloc, is_unchanged, Refusal::WouldChange)
    }
}

// Whether memory has these bytes from `address` on. False if they extend past the end of the address space.
fn has_bytes_at(bus: &Bus, address: u32, bytes: &[u8]) -> bool
    ensures { result ≡ has_bytes_at bus.now address bytes.now }
{
    for (offset, byte) in bytes.iter().enumerate() {
        if !has_byte_at(bus, u64::from(address) + offset as u64, *byte) {
            return false;
        }
    }
    true
}

// Whether memory has this byte at `address`. False if the address is past the end of the address space.
fn has_byte_at(bus: &Bus, address: u64, byte: u8) -> bool
    ensures { result ≡ (nat_lt address end_of_addresses && is_byte (fin.get bus.now.memory address) byte) }
{
    address < END_OF_ADDRESSES && is_byte(bus.byte(address as u32), byte)
}

// Whether `found` is this byte.
fn is_byte(found: Option<u8>, byte: u8) -> bool
    ensures { result ≡ is_byte found byte }
{
    match found {
        Some(other) => other == byte,
        None => false,
    }
}
