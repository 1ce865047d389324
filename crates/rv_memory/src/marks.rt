//! Marks of stored bytes, one per byte: a byte counts as stored if its mark equals the generation of the bus. Marks have 16 bits; all are
//! reset when the generations run out, so the cost per FENCE.I is small.
ghost use Rattle.std.specs.Prelude.{◌≡◌, ◌+◌, ◌<◌, ◌≤◌, ℕ, length, slice_index};
ghost use Rattle.rv_memory.specs.Bus.{size_of};
ghost use Rattle.rv_memory.specs.Inside.View.{with_marks_at, any_marked};

use crate::access::Width;

/// Marks the bytes of an access at an index as stored to in a generation.
#[inline]
pub(crate) fn mark(marks: &mut [u16], index: usize, width: Width, generation: u16)
    requires { index + size_of width ≤ length marks.old }
    ensures { marks.new ≡ with_marks_at marks.old index width generation }
{
    match width {
        Width::Byte => marks[index] = generation,
        Width::Half => {
            marks[index] = generation;
            marks[index + 1] = generation;
        }
        Width::Word => {
            marks[index] = generation;
            marks[index + 1] = generation;
            marks[index + 2] = generation;
            marks[index + 3] = generation;
        }
    }
}

/// Whether one of the four marks at an index equals `generation`.
#[inline]
pub(crate) fn has_mark(marks: &[u16], index: usize, generation: u16) -> bool
    requires { index + 4 ≤ length marks.now }
    ensures { result ≡ any_marked marks.now index generation }
{
    marks[index] == generation
        || marks[index + 1] == generation
        || marks[index + 2] == generation
        || marks[index + 3] == generation
}

/// Returns the marks and the next generation, in which no byte is marked. After the last generation, all marks are reset and the first
/// generation begins again.
pub(crate) fn next_generation(mut marks: Vec<u16>, generation: u16) -> (Vec<u16>, u16)
    requires { (k : ℕ) → slice_index marks.items k ≤ generation }
    ensures length { length result.0.items ≡ length marks.items }
    ensures older { (k : ℕ) → slice_index result.0.items k < result.1 }
{
    if generation < u16::MAX {
        return (marks, generation + 1);
    }
    marks.fill(0);
    (marks, 1)
}
