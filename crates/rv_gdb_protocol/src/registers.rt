//! The bodies of replies with registers, memory and console output.

ghost use Rattle.std.specs.Prelude.{◌≡◌, ◌++◌, ◌∷◌, OnOk};
ghost use Rattle.std.specs.List.{flat_map};
ghost use Rattle.hex.specs.Hex.{encode_lower};
ghost use Rattle.rv_gdb_protocol.specs.RegisterTexts.{register_text, registers_text};

use std::alloc::{AllocError, Global};

/// Appends the value of a register as eight hexadecimal digits, low byte first.
#[tactic(auto, unfolding(crate::specs::RegisterTexts::register_text))]
pub fn push_register(out: &mut Vec<u8>, value: u32) -> Result<(), AllocError>
    ensures { OnOk result (out.new.items ≡ out.old.items ++ register_text value) }
{
    let mut digits = [0u8; 8];
    hex::encode_to_slice(value.to_le_bytes().as_slice(), &mut digits).unwrap();
    out.extend_from_slice(&digits)
}

/// Appends the values of x0 to x31 and the pc. There are exactly 33 of them, since a client that has not read target.xml rejects a longer
/// reply.
pub fn push_registers(out: &mut Vec<u8>, registers: &[u32; 32], pc: u32) -> Result<(), AllocError>
    ensures { OnOk result (out.new.items ≡ out.old.items ++ registers_text registers.now pc) }
{
    for value in registers {
        push_register(out, *value)?;
    }
    push_register(out, pc)
}

/// Appends bytes of memory as hexadecimal digits.
pub fn push_memory(alloc: Global, out: &mut Vec<u8>, bytes: &[u8]) -> Result<(), AllocError>
    ensures { OnOk result (out.new.items ≡ out.old.items ++ encode_lower bytes.now) }
{
    let digits = hex::encode(alloc, bytes)?;
    out.extend_from_slice(digits.as_bytes())
}

/// Appends the body of a packet with console output, which gdb displays.
pub fn push_printed(alloc: Global, out: &mut Vec<u8>, bytes: &[u8]) -> Result<(), AllocError>
    ensures { OnOk result (out.new.items ≡ out.old.items ++ 79 ∷ encode_lower bytes.now) }
{
    out.push(b'O')?;
    push_memory(alloc, out, bytes)
}
