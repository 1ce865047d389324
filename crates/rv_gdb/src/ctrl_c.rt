//! Ctrl-C, which gdb sends as the byte 0x03 while a move is in progress.

use rv_session::Interrupt;
use std::sync::atomic::AtomicBool;
use std::sync::atomic::Ordering::SeqCst;

/// The byte that gdb sends for Ctrl-C.
pub(crate) const CTRL_C: u8 = 0x03;

/// An interrupt that is always raised.
#[derive(Drop)]
pub(crate) struct AlwaysRaised;

impl Interrupt for AlwaysRaised {
    ghost use Rattle.std.specs.Prelude.{true};

    ghost was_raised = { λ _. true };

    // Returns true: a move is interrupted at once.
    fn is_raised(&mut self) -> bool {
        true
    }
}

/// An interrupt that is never raised.
#[derive(Drop)]
pub(crate) struct NeverRaised;

impl Interrupt for NeverRaised {
    ghost use Rattle.std.specs.Prelude.{false};

    ghost was_raised = { λ _. false };

    // Returns false: a move is never interrupted.
    fn is_raised(&mut self) -> bool {
        false
    }
}

/// An interrupt that another thread can raise.
#[derive(Drop)]
pub(crate) struct SharedInterrupt<'a> {
    pub raised: &'a AtomicBool,
    /// Whether the move saw that the interrupt was raised.
    pub was_seen: bool,
}

impl Interrupt for SharedInterrupt<'_> {
    ghost was_raised = { λ interrupt. interrupt.was_seen };

    // Whether the other thread has raised the interrupt. Records the result in `was_seen`.
    fn is_raised(&mut self) -> bool {
        self.was_seen = self.raised.load(SeqCst);
        self.was_seen
    }
}
