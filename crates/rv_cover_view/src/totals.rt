//! The totals of the coverage of functions.

ghost use Rattle.std.specs.Prelude.{◌≡◌};
ghost use Rattle.rv_cover_view.specs.Totals.{FitsIn64Bits, no_totals, plus};

/// How many functions there are, how many of them ran, and the coverage of their code.
#[derive(Clone, Copy, Debug, PartialEq)]
pub struct CoverageTotals {
    /// The number of functions.
    pub functions: u64,
    /// The number of functions in which an instruction was executed.
    pub functions_run: u64,
    /// The totals of their code. Code that belongs to two functions counts twice.
    pub code: CodeTotals,
}

/// How many instructions and conditional branches there are, and how many of them were executed.
#[derive(Clone, Copy, Debug, PartialEq)]
pub struct CodeTotals {
    /// The number of encodings that are instructions of RV32IMC.
    pub instructions: u64,
    /// The number of executed instructions.
    pub instructions_run: u64,
    /// The number of conditional branches that were both taken and not taken.
    pub branches_both_ways: u64,
    /// The number of executed conditional branches that were always taken or never taken.
    pub branches_one_way: u64,
    /// The number of conditional branches that were never executed.
    pub branches_never: u64,
}

impl CodeTotals {
    /// Returns coverage totals that are all zero.
    pub(crate) fn none() -> CodeTotals
        ensures { result ≡ no_totals }
    {
        CodeTotals {
            instructions: 0,
            instructions_run: 0,
            branches_both_ways: 0,
            branches_one_way: 0,
            branches_never: 0,
        }
    }

    /// Returns the sums of two coverage totals, which must fit in 64 bits.
    pub(crate) fn plus(self, other: CodeTotals) -> CodeTotals
        requires { FitsIn64Bits (plus self other) }
        ensures { result ≡ plus self other }
    {
        CodeTotals {
            instructions: self.instructions + other.instructions,
            instructions_run: self.instructions_run + other.instructions_run,
            branches_both_ways: self.branches_both_ways + other.branches_both_ways,
            branches_one_way: self.branches_one_way + other.branches_one_way,
            branches_never: self.branches_never + other.branches_never,
        }
    }
}
