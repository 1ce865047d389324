//! Stored states of a run.

ghost use Rattle.std.specs.Prelude.{◌≡◌, ◌≤◌, ◌<◌, [], All, IfNone, IfSome};
ghost use Rattle.rv_trace.specs.State.{State};
ghost use Rattle.rv_history.specs.StoredStates.{AreStates, IsAt, IsLastUpTo};

use crate::machine_at::MachineAt;
use std::alloc::{AllocError, Global};
use std::marker::Model;

/// A list of stored states of a run, latest first, with a maximum length.
#[derive(Drop)]
pub(crate) struct CheckpointList {
    capacity: usize,
    items: Vec<MachineAt>,
}

impl Model for CheckpointList {
    ghost use Rattle.std.specs.Prelude.{◌<◌, ◌≤◌, List, length};
    ghost use Rattle.rv_history.specs.StoredStates.{AreDecreasing};
    ghost use Rattle.rv_history.specs.declared.machine_at.MachineAt.{MachineAt};
    ghost use Rattle.rv_history.specs.PositionCode.{state_code};
    ghost use Rattle.std.specs.Coded.{codes};

    ghost Value = { List MachineAt };

    ghost coded = { Prim.hlevel (codes, state_code) };

    ghost view = { λ kept. kept.items.items };

    ghost invariant = { λ kept. (0 < kept.capacity) × ((length kept.items.items ≤ kept.capacity) × AreDecreasing kept.items.items) };
}

impl CheckpointList {
    /// Returns an empty list that can store `capacity` states, but at least one.
    pub(crate) fn new(alloc: Global, capacity: usize) -> CheckpointList
        ensures { result ≡ [] }
    {
        CheckpointList {
            capacity: capacity.max(1),
            items: Vec::new(alloc),
        }
    }

    /// Whether the list is at its maximum length.
    pub(crate) fn is_full(&self) -> bool {
        self.capacity <= self.items.len()
    }

    /// Returns the latest stored state at or before the step `step`, or `None` if there is none.
    pub(crate) fn last_up_to(&self, step: u32) -> Option<&MachineAt>
        ensures state { (start : State) → AreStates start self.now → IfSome result (λ at. IsAt start at.now) }
        ensures before { IfSome result (λ at. at.now.step ≤ step) }
        ensures last { IfSome result (λ at. IsLastUpTo self.now step at.now.step) }
        ensures none { IfNone result (All (λ other. step < other.step) self.now) }
    {
        for at in &self.items {
            if at.step <= step {
                return Some(at);
            }
        }
        None
    }

    /// Whether the state at the step `step` is stored.
    pub(crate) fn contains(&self, step: u32) -> bool {
        match self.last_up_to(step) {
            Some(at) => at.step == step,
            None => false,
        }
    }

    /// Stores a state. Drops the stored states at its step or later, and the earliest one if the list would be too long.
    pub(crate) fn store(&mut self, at: MachineAt) -> Result<(), AllocError>
        ensures { (start : State) → AreStates start self.old → IsAt start at → AreStates start self.new }
    {
        let step = at.step;
        self.items.retain(|other| other.step < step);
        self.items.truncate(self.capacity - 1);
        self.items.insert(0, at)?;
        Ok(())
    }

    /// Drops the states whose steps are not multiples of `number`.
    pub(crate) fn retain_multiples(&mut self, number: u32)
        requires { 0 < number }
        ensures { (start : State) → AreStates start self.old → AreStates start self.new }
    {
        self.items.retain(|at| at.step % number == 0);
    }
}
