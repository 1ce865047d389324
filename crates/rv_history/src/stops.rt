//! The breakpoints and watchpoints of a run.

ghost use Rattle.std.specs.Prelude.{◌≡◌, ◌≤◌, ◌+◌, ◌^◌, ◌++◌, ◌↔◌, [], ℕ, List, IfOk, IfSome, IsTrue, MatchOption, OnOk, drop, length, true};

use rv_trace::{Bus, Machine, Sequence};
use std::alloc::{AllocError, Global};

/// A range of watched bytes, which are all in the address space.
#[derive(Clone, Copy)]
pub struct Watch {
    pub address: u32,
    pub count: u32,
    pub ghost within: { address + count ≤ 2 ^ 32 },
}

/// The breakpoints and watchpoints of a run. A move stops before an instruction at a breakpoint, and where a step changes, reads or
/// accesses a watched byte. Bytes outside the regions never change.
#[derive(Drop)]
pub struct Stops {
    pub breaks: Sequence<u32>,
    /// Watchpoints for changes.
    pub watches: Sequence<Watch>,
    /// Watchpoints for reads.
    pub reads: Sequence<Watch>,
    /// Watchpoints for reads and writes.
    pub accesses: Sequence<Watch>,
}

/// How a watchpoint was triggered; the number is the first address of the watchpoint's range.
#[derive(Clone, Copy)]
pub enum WatchHit {
    /// A byte changed.
    Change(u32),
    /// A byte was read.
    Read(u32),
    /// A byte was read or written.
    Access(u32),
}

impl Stops {
    ghost use Rattle.rv_trace.specs.Machine.{state_of};
    ghost use Rattle.rv_trace.specs.ValidEntries.{IsCached};
    ghost use Rattle.rv_history.specs.Stops.{first_differing, is_break, watched_bytes};

    /// Whether there are no breakpoints and no watchpoints.
    pub(crate) fn is_empty(&self) -> bool
        ensures { IsTrue result ↔ ((self.now.breaks ≡ [])
            × ((self.now.watches ≡ []) × ((self.now.reads ≡ []) × (self.now.accesses ≡ [])))) }
    {
        self.breaks.as_slice().is_empty() && self.have_no_watchpoints()
    }

    /// Whether there are no watchpoints.
    pub(crate) fn have_no_watchpoints(&self) -> bool
        ensures { IsTrue result ↔ ((self.now.watches ≡ []) × ((self.now.reads ≡ []) × (self.now.accesses ≡ []))) }
    {
        self.watches.as_slice().is_empty() && self.have_no_access_watchpoints()
    }

    /// Whether there are no watchpoints for reads and none for accesses.
    pub(crate) fn have_no_access_watchpoints(&self) -> bool
        ensures { IsTrue result ↔ ((self.now.reads ≡ []) × (self.now.accesses ≡ [])) }
    {
        self.reads.as_slice().is_empty() && self.accesses.as_slice().is_empty()
    }

    /// Invalidates the cached instructions at breakpoints, so that a run that executes only cached instructions stops there.
    pub(crate) fn invalidate_breakpoints(&self, machine: &mut Machine)
        ensures state { state_of machine.new ≡ state_of machine.old }
        ensures invalidated { (pc : ℕ) → is_break self.now pc ≡ true → IsCached machine.new.kept pc → ⊥ }
    {
        for address in self.breaks.as_slice() {
            machine.invalidate(*address);
        }
    }

    /// Whether there is a breakpoint at the address.
    pub(crate) fn has_break(&self, pc: u32) -> bool
        ensures { result ≡ is_break self.now pc }
    {
        self.breaks.as_slice().contains(&pc)
    }

    /// Returns the bytes that are watched for changes, in the order of the watchpoints; bytes outside the regions are left out.
    #[tactic(auto, unfolding(crate::specs::Stops::watched_bytes))]
    pub(crate) fn watched_bytes(&self, alloc: Global, bus: &Bus) -> Result<Vec<u8>, AllocError>
        ensures { IfOk result (λ bytes. bytes.items ≡ watched_bytes self.now bus.now) }
    {
        let mut bytes = Vec::new(alloc);
        for watch in self.watches.as_slice() {
            watch.push_bytes(&mut bytes, bus)?;
        }
        Ok(bytes)
    }

    /// Whether the bytes that are watched for changes, without those outside the regions, equal `bytes`. Does not allocate.
    #[tactic(auto, unfolding(crate::specs::Stops::watched_bytes))]
    pub(crate) fn have_bytes(&self, bus: &Bus, bytes: &[u8]) -> bool
        ensures { IsTrue result ↔ (watched_bytes self.now bus.now ≡ bytes.now) }
    {
        let mut seen = 0;
        for watch in self.watches.as_slice() {
            match watch.index_after_bytes(bus, bytes, seen) {
                Some(more) => seen = more,
                None => return false,
            }
        }
        seen == bytes.len()
    }

    /// Returns the address of the first watchpoint whose bytes differ between two buses, or `None` if there is none.
    #[tactic(auto, using(crate::proofs::Differing::differing_at), unfolding(crate::specs::Stops::first_differing))]
    pub(crate) fn differing_watch(
        &self,
        alloc: Global,
        first: &Bus,
        second: &Bus,
    ) -> Result<Option<u32>, AllocError>
        ensures { IfOk result (λ found. found ≡ first_differing self.now.watches first.now second.now) }
    {
        for watch in self.watches.as_slice() {
            let mut here = Vec::new(alloc);
            watch.push_bytes(&mut here, first)?;
            let mut there = Vec::new(alloc);
            watch.push_bytes(&mut there, second)?;
            if here.as_slice() != there.as_slice() {
                return Ok(Some(watch.address));
            }
        }
        Ok(None)
    }
}

impl Watch {
    ghost use Rattle.rv_history.specs.Stops.{watch_bytes};

    // Compares the watchpoint's bytes, without those outside the regions, with `bytes` from the index `from` on. Returns the index after
    // them if they are equal; otherwise `None`.
    fn index_after_bytes(&self, bus: &Bus, bytes: &[u8], from: usize) -> Option<usize>
        requires { from ≤ length bytes.now }
        ensures within { IfSome result (λ end. end ≤ length bytes.now) }
        ensures bytes { MatchOption result
            ((rest : List ℕ) → drop from bytes.now ≡ watch_bytes bus.now self.now ++ rest → ⊥)
            (λ end. drop from bytes.now ≡ watch_bytes bus.now self.now ++ drop end bytes.now) }
    {
        let mut seen = from;
        for offset in 0..self.count {
            if let Some(byte) = bus.byte(self.address + offset) {
                if seen == bytes.len() || bytes[seen] != byte {
                    return None;
                }
                seen += 1;
            }
        }
        Some(seen)
    }

    // Appends the watchpoint's bytes, without those outside the regions.
    fn push_bytes(&self, bytes: &mut Vec<u8>, bus: &Bus) -> Result<(), AllocError>
        ensures { OnOk result (bytes.new.items ≡ bytes.old.items ++ watch_bytes bus.now self.now) }
    {
        for offset in 0..self.count {
            if let Some(byte) = bus.byte(self.address + offset) {
                bytes.push(byte)?;
            }
        }
        Ok(())
    }
}
