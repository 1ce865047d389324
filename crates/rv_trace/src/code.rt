//! The encoding that is fetched at an address.

ghost use Rattle.std.specs.Prelude.{◌≡◌, IfSome};
ghost use Rattle.rv_machine.specs.IsaWords.{IsWellFormed};
ghost use Rattle.rv_trace.specs.Code.{code_at, instr_of, size_of_code};

use rv_machine::{Bus, Instr, Isa, decode16, decode32, is_long};

/// An encoding of an instruction: a halfword or a word.
#[derive(Clone, Copy)]
pub enum Code {
    Half(u16),
    Word(u32),
}

/// Returns the encoding at an address, or `None` if one of its halfwords cannot be fetched.
#[tactic(auto, unfolding(crate::specs::Code::code_at))]
pub fn code_at(bus: &Bus, pc: u32) -> Option<Code>
    ensures { result ≡ code_at bus.now pc }
{
    let low = bus.fetch_half(pc).ok()?;
    if !is_long(low) {
        return Some(Code::Half(low));
    }
    let high = bus.fetch_half(pc.wrapping_add(2)).ok()?;
    Some(Code::Word(u32::from(low) + 0x1_0000 * u32::from(high)))
}

/// Returns the instruction of an encoding in RV32IMC, or `None` if the encoding is illegal there.
pub fn instr_of(code: Code) -> Option<Instr>
    ensures value { result ≡ instr_of code }
    ensures well_formed { IfSome result IsWellFormed }
{
    match code {
        Code::Half(half) => decode16(half, Isa::Imc),
        Code::Word(word) => decode32(word, Isa::Imc),
    }
}

/// Returns the length of an encoding in bytes.
pub fn code_length(code: Code) -> u32
    ensures { result ≡ size_of_code code }
{
    match code {
        Code::Half(_) => 2,
        Code::Word(_) => 4,
    }
}
