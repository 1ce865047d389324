//! The instruction sets that a hart may have.
ghost use Rattle.rv_isa.specs.Extensions.{has_extension, RV32M, RV32C};
ghost use Rattle.std.specs.Prelude.{◌≡◌};

/// An instruction set: RV32I with Zifencei, and the extensions that its letters name. M is multiplication and division; C is the 16-bit
/// instructions.
#[derive(Clone, Copy, Debug, PartialEq, Eq)]
pub enum Isa {
    I,
    Im,
    Ic,
    Imc,
}

impl Isa {
    /// Whether the instruction set has multiplication and division.
    #[inline]
    pub fn has_m(self) -> bool
        ensures { result ≡ has_extension self RV32M }
    {
        matches!(self, Isa::Im | Isa::Imc)
    }

    /// Whether the instruction set has 16-bit instructions, so that an instruction may begin at any even address. Without them, every
    /// instruction begins at a multiple of 4.
    #[inline]
    pub fn has_c(self) -> bool
        ensures { result ≡ has_extension self RV32C }
    {
        matches!(self, Isa::Ic | Isa::Imc)
    }
}
