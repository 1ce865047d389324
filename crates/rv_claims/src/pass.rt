//! The token with which a worker draws.
ghost use Rattle.std.specs.Prelude.{◌≡◌};
ghost use Rattle.rv_claims.specs.Passes.{has_ended};

use crate::view::View;
use atomic_table::Seat;
use std::marker::Model;

/// The token with which a worker draws, under one or more of the 64 pass indices of a [`Claims`](crate::Claims).
///
/// Contracts see which counter it belongs to, its indices, and its draws in order, including those past the last chunk. Dropping a pass
/// loses its indices and draws.
#[derive(Drop)]
pub struct Pass {
    pub(crate) seat: Seat<(), View>,
    /// Bit p is set if the pass has index p.
    pub(crate) bits: u64,
    pub(crate) ended: bool,
}

impl Model for Pass {
    ghost use Rattle.rv_claims.specs.Passes.{PassView, pass_view, IsValidPass};

    ghost Value = { PassView };

    ghost view = { λ p. pass_view p.seat.table_id p.seat.me };

    ghost invariant = { λ p. IsValidPass p.seat.me p.bits p.ended };
}

/// Why a pass could not be split.
#[derive(Drop)]
pub enum SplitError {
    /// All 64 indices are in use. The pass is returned unchanged.
    Full(Pass),
}

impl Pass {
    /// Whether the pass has ended: it has drawn a number past the last chunk, and draws no more.
    pub fn ended(&self) -> bool
        ensures { result ≡ has_ended self.now }
    {
        self.ended
    }
}
