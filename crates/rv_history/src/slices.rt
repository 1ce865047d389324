//! Slices of a move. A move can be interrupted at the end of a slice.

ghost use Rattle.std.specs.Prelude.{◌≤◌, ◌<◌};

// The number of steps in a slice. Slices end at multiples of it, so that states can be stored there.
const SLICE: u32 = 1 << 16;

/// Whether a slice ends at this step.
pub(crate) fn is_slice_end(step: u32) -> bool {
    step % SLICE == 0
}

/// Whether this is at least the number of steps in a slice.
pub(crate) fn is_at_least_a_slice(steps: u32) -> bool {
    SLICE <= steps
}

/// Returns the step at which the slice after `step` ends, or `goal` if that comes first.
pub(crate) fn slice_end(step: u32, goal: u32) -> u32
    requires { step < goal }
    ensures ahead { step < result }
    ensures within { result ≤ goal }
{
    let left = SLICE - step % SLICE;
    step + left.min(goal - step)
}
