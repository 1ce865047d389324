//! How a run ends when an instruction does not complete.
ghost use Rattle.std.specs.Prelude.{◌≡◌, ◌<◌, false, is_ok, Err};
ghost use Rattle.rv_isa.specs.Words.{IsWellFormed};
ghost use Rattle.rv_machine.specs.declared.ending.Ending.TheVariants.{Fault};
ghost use Rattle.rv_machine.specs.declared.ending.FaultKind.TheVariants.{FetchMisaligned};
ghost use Rattle.rv_machine.specs.Effect.{effect, fault_of_load, fault_of_store, after_branch, load as load_of};
ghost use Rattle.rv_machine.specs.Effect.{store as store_of, after_ecall};
ghost use Rattle.rv_machine.specs.Run.{step_of};

use crate::accesses::LoadExtension;
use crate::alu::{self, add_offset};
use crate::ending::{Ending, FaultKind};
use crate::hart::Hart;
use rv_isa::{Instr, Op};
use rv_memory::{BusFault, Width};

/// The number in x17 that makes ECALL exit the run. The exit code is in x10.
const EXIT_CALL: u32 = 93;

impl Hart {
    /// Returns the ending of the run, given that the step at the pc does not complete.
    #[cold]
    #[inline(never)]
    #[tactic(auto, unfolding(crate::specs::Run::step_of))]
    pub(crate) fn ending(&mut self) -> Ending
        requires { is_ok (step_of self.old) ≡ false }
        ensures { (step_of self.old ≡ Err result) × (self.new ≡ self.old) }
    {
        let pc = self.pc;
        match self.fetch(pc) {
            Ok((instr, length)) => self.instruction_ending(instr, length),
            Err((kind, value)) => Ending::Fault(kind, pc, value),
        }
    }

    // Returns the ending of the run, given that this fetched instruction does not complete.
    #[tactic(auto, unfolding(crate::specs::Effect::effect))]
    fn instruction_ending(&mut self, instr: Instr, length: u32) -> Ending
        requires well_formed { IsWellFormed instr }
        requires no_effect { is_ok (effect instr length self.old) ≡ false }
        ensures { (effect instr length self.old ≡ Err result) × (self.new ≡ self.old) }
    {
        let next = self.pc.wrapping_add(length);
        let rs1 = self.registers[instr.rs1 as usize];
        let rs2 = self.registers[instr.rs2 as usize];
        match instr.op {
            Op::Lb => self.load_ending(instr, Width::Byte, LoadExtension::Sign, next),
            Op::Lh => self.load_ending(instr, Width::Half, LoadExtension::Sign, next),
            Op::Lw => self.load_ending(instr, Width::Word, LoadExtension::Sign, next),
            Op::Lbu => self.load_ending(instr, Width::Byte, LoadExtension::Zero, next),
            Op::Lhu => self.load_ending(instr, Width::Half, LoadExtension::Zero, next),
            Op::Sb => self.store_ending(instr, Width::Byte, next),
            Op::Sh => self.store_ending(instr, Width::Half, next),
            Op::Sw => self.store_ending(instr, Width::Word, next),
            Op::Jal => self.misaligned_target_ending(add_offset(self.pc, instr.imm)),
            Op::Jalr => self.misaligned_target_ending(add_offset(rs1, instr.imm) / 2 * 2),
            Op::Beq => self.branch_ending(rs1 == rs2, instr, next),
            Op::Bne => self.branch_ending(rs1 != rs2, instr, next),
            Op::Blt => self.branch_ending(alu::is_less_signed(rs1, rs2), instr, next),
            Op::Bge => self.branch_ending(!alu::is_less_signed(rs1, rs2), instr, next),
            Op::Bltu => self.branch_ending(rs1 < rs2, instr, next),
            Op::Bgeu => self.branch_ending(rs1 >= rs2, instr, next),
            Op::Ecall => self.ecall_ending(),
            Op::Ebreak => Ending::Fault(FaultKind::Breakpoint, self.pc, 0),
            _ => unreachable!(),
        }
    }

    // Returns the ending of the run, given that the bus rejects this load.
    fn load_ending(
        &mut self,
        instr: Instr,
        width: Width,
        extension: LoadExtension,
        next: u32,
    ) -> Ending
        requires well_formed { IsWellFormed instr }
        requires no_effect { is_ok (load_of width extension self.old instr next) ≡ false }
        ensures { (load_of width extension self.old instr next ≡ Err result)
            × (self.new ≡ self.old) }
    {
        let address = add_offset(self.registers[instr.rs1 as usize], instr.imm);
        match self.bus.load(address, width) {
            Ok(_) => unreachable!(),
            Err(fault) => Ending::Fault(load_fault(fault), self.pc, address),
        }
    }

    // Returns the ending of the run, given that the bus rejects this store.
    fn store_ending(&mut self, instr: Instr, width: Width, next: u32) -> Ending
        requires well_formed { IsWellFormed instr }
        requires no_effect { is_ok (store_of width self.old instr next) ≡ false }
        ensures { (store_of width self.old instr next ≡ Err result) × (self.new ≡ self.old) }
    {
        let address = add_offset(self.registers[instr.rs1 as usize], instr.imm);
        let value = self.registers[instr.rs2 as usize];
        match self.bus.store(address, width, value) {
            Ok(()) => unreachable!(),
            Err(fault) => store_fault_ending(fault, self.pc, address, value),
        }
    }

    // Returns the ending of a run at a jump to `target`, which is misaligned: a fault.
    fn misaligned_target_ending(&self, target: u32) -> Ending
        ensures { result ≡ Fault FetchMisaligned self.now.pc target }
    {
        Ending::Fault(FaultKind::FetchMisaligned, self.pc, target)
    }

    // Returns the ending of a run at a taken branch to a misaligned target: a fault.
    fn branch_ending(&self, taken: bool, instr: Instr, next: u32) -> Ending
        requires { is_ok (after_branch taken self.now instr next) ≡ false }
        ensures { after_branch taken self.now instr next ≡ Err result }
    {
        let target = add_offset(self.pc, instr.imm);
        if !taken || !self.is_misaligned(target) {
            unreachable!();
        }
        self.misaligned_target_ending(target)
    }

    // Returns the ending of a run at an ECALL: an exit if x17 has the number of the exit call, and otherwise a fault.
    fn ecall_ending(&self) -> Ending
        ensures { after_ecall self.now ≡ Err result }
    {
        let number = self.registers[17];
        if number == EXIT_CALL {
            Ending::Exit(self.registers[10])
        } else {
            Ending::Fault(FaultKind::UnknownCall, self.pc, number)
        }
    }
}

// Returns the kind of fault for a load that the bus rejected for this reason. A load is never rejected because the console is full.
fn load_fault(fault: BusFault) -> FaultKind
    ensures { result ≡ fault_of_load fault }
{
    match fault {
        BusFault::Misaligned => FaultKind::LoadMisaligned,
        BusFault::Access | BusFault::ConsoleFull => FaultKind::LoadAccess,
    }
}

// Returns the ending of a run at a store that the bus rejected: a fault whose value is the store's address or, if the console is full, the
// byte for which it has no room.
fn store_fault_ending(fault: BusFault, pc: u32, address: u32, value: u32) -> Ending
    ensures { result ≡ fault_of_store fault pc address value }
{
    match fault {
        BusFault::Misaligned => Ending::Fault(FaultKind::StoreMisaligned, pc, address),
        BusFault::Access => Ending::Fault(FaultKind::StoreAccess, pc, address),
        BusFault::ConsoleFull => Ending::Fault(FaultKind::ConsoleFull, pc, value % 0x100),
    }
}
