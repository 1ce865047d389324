//! The bounds of a move.

ghost use Rattle.std.specs.Prelude.{◌≡◌, ◌↔◌, IsTrue};
ghost use Rattle.rv_history.specs.Stops.{is_outside};
ghost use Rattle.rv_history.specs.declared.bounds.Bounds.TheVariants.{All};

/// The addresses within which a forward move stays: it stops before an instruction outside of them.
#[derive(Clone, Copy)]
pub enum Bounds {
    /// All addresses.
    All,
    /// At or above the first address and below the second.
    Within(u32, u32),
}

impl Bounds {
    /// Whether all addresses are within the bounds.
    pub(crate) fn is_unbounded(self) -> bool
        ensures { IsTrue result ↔ (self ≡ All) }
    {
        match self {
            Bounds::All => true,
            Bounds::Within(..) => false,
        }
    }

    /// Whether an address is outside of the bounds.
    pub(crate) fn is_outside(self, pc: u32) -> bool
        ensures { result ≡ is_outside self pc }
    {
        match self {
            Bounds::All => false,
            Bounds::Within(low, high) => pc < low || high <= pc,
        }
    }
}
