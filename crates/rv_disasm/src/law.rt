//! Laws on the descriptions of encodings, with no code to run.
ghost use Rattle.std.specs.Prelude.{◌≡◌, ℕ, None, Some, true};
ghost use Rattle.rv_isa.specs.Extensions.{has_extension, RV32C, RV32M};
ghost use Rattle.rv_isa.specs.Halfwords.{meaning16};
ghost use Rattle.rv_isa.specs.Words.{meaning32};
ghost use Rattle.rv_isa.specs.declared.instruction.Instr.{Instr};
ghost use Rattle.rv_isa.specs.declared.isa.Isa.{Isa};
ghost use Rattle.rv_isa.specs.declared.isa.Isa.TheVariants as set;
ghost use Rattle.rv_disasm.specs.Unsimulated.{unsimulated16, unsimulated32};

/// Proves that no encoding of an instruction of RV32IMC is described as not simulated.
pub fn simulated_codes_are_apart()
    ensures words { (w : ℕ) (i : Instr) → meaning32 set.Imc w ≡ Some i → unsimulated32 w ≡ None }
    ensures halfwords { (h : ℕ) (i : Instr) → meaning16 set.Imc h ≡ Some i → unsimulated16 h ≡ None }
{}

/// Proves that a set with M has every 32-bit instruction of RV32IMC, and that a set with C has every 16-bit one. So if a set lacks an
/// instruction, it lacks M (32-bit) or C (16-bit).
pub fn missing_codes_are_of_m_or_c()
    ensures words { (isa : Isa) (w : ℕ) (i : Instr) → has_extension isa RV32M ≡ true
        → meaning32 set.Imc w ≡ Some i → meaning32 isa w ≡ Some i }
    ensures halfwords { (isa : Isa) (h : ℕ) (i : Instr) → has_extension isa RV32C ≡ true
        → meaning16 set.Imc h ≡ Some i → meaning16 isa h ≡ Some i }
{}
