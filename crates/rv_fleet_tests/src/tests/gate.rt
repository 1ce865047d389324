//! A gate that counts the chunks that enter it.
use super::number_in;
use rv_fleet::Gate;
use std::alloc::AllocError;
use std::sync::atomic::{AtomicBool, AtomicU64, Ordering};
use std::thread;

/// How often a chunk yields at the gate until it gives up waiting.
const TURNS: u64 = 100_000_000;

// What is added to the count when one of the first four chunks enters: each of them has a decimal digit of its own, and the first chunk has
// the last digit.
const DIGITS: [u64; 4] = [1, 10, 100, 1000];

/// A gate that counts the entries of each of four chunks. The first `held` chunks wait until `awaited` chunks have entered; `late` is set
/// if one gives up waiting.
#[derive(Drop)]
pub(super) struct RecordingGate {
    held: u64,
    awaited: u64,
    entered: AtomicU64,
    entries: AtomicU64,
    order: AtomicU64,
    late: AtomicBool,
}

impl RecordingGate {
    /// Returns the gate of a line, which says how many chunks wait, and for how many.
    pub(super) fn of(line: &str) -> RecordingGate {
        RecordingGate {
            held: number_in(line, 6),
            awaited: number_in(line, 7),
            entered: AtomicU64::new(0),
            entries: AtomicU64::new(0),
            order: AtomicU64::new(0),
            late: AtomicBool::new(false),
        }
    }

    /// Appends how often each chunk entered the gate, and whether a chunk waited in vain.
    pub(super) fn push_notes(&self, text: &mut String) -> Result<(), AllocError> {
        let entries = self.entries.load(Ordering::SeqCst);
        let late = self.late.load(Ordering::SeqCst);
        write!(text, " entered {entries}, late {late}")
    }

    /// Returns the numbers of the chunks, counted from 1, as decimal digits in the order in which they entered.
    pub(super) fn order(&self) -> u64 {
        self.order.load(Ordering::SeqCst)
    }
}

impl Gate for RecordingGate {
    // Records that the chunk `piece` entered, and waits if the gate says so.
    fn enter(&self, piece: u64) {
        if let Some(digit) = DIGITS.get(piece as usize) {
            self.entries.fetch_add(*digit, Ordering::SeqCst);
        }
        let before = self.order.load(Ordering::SeqCst).wrapping_mul(10);
        self.order.store(before.wrapping_add(piece).wrapping_add(1), Ordering::SeqCst);
        self.entered.fetch_add(1, Ordering::SeqCst);
        if self.held <= piece {
            return;
        }
        for _ in 0..TURNS {
            if self.awaited <= self.entered.load(Ordering::SeqCst) {
                return;
            }
            thread::yield_now();
        }
        self.late.store(true, Ordering::SeqCst);
    }
}
