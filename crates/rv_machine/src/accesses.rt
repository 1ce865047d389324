//! The instructions that access memory: loads and stores.
ghost use Rattle.std.specs.Prelude.{◌≡◌, ◌<◌, ◌*◌, ◌^◌, MatchResult, false, is_ok, Ok};
ghost use Rattle.rv_isa.specs.Words.{IsWellFormed};
ghost use Rattle.rv_memory.specs.Bus.{size_of};
ghost use Rattle.rv_machine.specs.Effect.{address, load as load_of, load_value, store as store_of};
ghost use Rattle.rv_machine.specs.DecodeCache.{with_range_invalidated};
ghost use Rattle.rv_machine.specs.State.{with_pc};

use crate::alu::add_offset;
use crate::decode_cache::DecodeCache;
use crate::ending::Incomplete;
use crate::hart::{Hart, set_pc};
use rv_isa::{Instr, sign_extend};
use rv_memory::Width;

/// How a load extends a value narrower than a word.
#[derive(Clone, Copy)]
pub(crate) enum LoadExtension {
    Zero,
    Sign,
}

impl Hart {
    /// Executes a load: writes the extended value to its register, and moves the pc to the next instruction. Fails, and changes nothing, if
    /// the bus rejects the load.
    #[inline]
    pub(crate) fn load(
        &mut self,
        pc: &mut u32,
        instr: Instr,
        width: Width,
        extension: LoadExtension,
        next: u32,
    ) -> Result<(), Incomplete>
        requires { IsWellFormed instr }
        ensures pc_unchanged { self.new.pc ≡ self.old.pc }
        ensures effect { MatchResult result
            (λ _. load_of width extension (with_pc self.old pc.old) instr next
            ≡ Ok (with_pc self.new pc.new))
            (λ _. (is_ok (load_of width extension (with_pc self.old pc.old) instr next) ≡ false)
            × (self.new ≡ self.old) × (pc.new ≡ pc.old)) }
    {
        let address = add_offset(self.registers[instr.rs1 as usize], instr.imm);
        match self.bus.load(address, width) {
            Ok(value) => self.complete(pc, instr.rd, load_value(value, width, extension), next),
            Err(_) => Err(Incomplete),
        }
    }

    /// Executes a store: writes to memory, invalidates the cache entries that it overlaps, and moves the pc to the next instruction. Fails,
    /// and changes nothing, if the bus rejects the store.
    #[inline(always)]
    pub(crate) fn store(
        &mut self,
        cache: &mut DecodeCache,
        pc: &mut u32,
        instr: Instr,
        width: Width,
        next: u32,
    ) -> Result<(), Incomplete>
        requires { IsWellFormed instr }
        ensures pc_unchanged { self.new.pc ≡ self.old.pc }
        ensures effect { MatchResult result
            (λ _. (store_of width (with_pc self.old pc.old) instr next ≡ Ok (with_pc self.new pc.new))
            × (cache.new ≡ with_range_invalidated cache.old (address self.old instr) width))
            (λ _. (is_ok (store_of width (with_pc self.old pc.old) instr next) ≡ false)
            × (self.new ≡ self.old) × (pc.new ≡ pc.old) × (cache.new ≡ cache.old)) }
    {
        let address = add_offset(self.registers[instr.rs1 as usize], instr.imm);
        let value = self.registers[instr.rs2 as usize];
        match self.bus.store(address, width, value) {
            Ok(()) => {
                cache.invalidate_range(address, width);
                set_pc(pc, next)
            }
            Err(_) => Err(Incomplete),
        }
    }
}

// Returns a loaded value as a word, sign- or zero-extended from the width of the load.
#[inline]
fn load_value(value: u32, width: Width, extension: LoadExtension) -> u32
    requires { value < 2 ^ (8 * size_of width) }
    ensures { result ≡ load_value extension width value }
{
    match (extension, width) {
        (LoadExtension::Sign, Width::Byte) => sign_extend(value, 8).cast_unsigned(),
        (LoadExtension::Sign, Width::Half) => sign_extend(value, 16).cast_unsigned(),
        _ => value,
    }
}
