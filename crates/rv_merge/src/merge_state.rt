//! What is gathered from the parts of a run, text by text.

ghost use Rattle.std.specs.Prelude.{◌≡◌, ◌<◌, ◌≤◌, ◌+◌, ◌↔◌, IfOk, IfErr, OnOk, MatchOption, None, IsTrue, length};
ghost use Rattle.std.specs.Prelude.{replicate, vec_len};
ghost use Rattle.std.specs.List.{All};
ghost use Rattle.rv_merge.specs.Parts.{bytes_of_texts, run_of_shard, nth_text};
ghost use Rattle.rv_merge.specs.Refusals.{HasMergeError};
ghost use Rattle.rv_merge.specs.MergeState.{IsTextOf, IsRunFlaw, IsMergeStateAfter, filled_slots, report_of_part};

use crate::error::{Flaw, MergeError};
use crate::part::Part;
use rv_rows::{Row, Shard, Text};
use std::alloc::{AllocError, Global};

/// The rows of the texts so far, each in the slot of its job.
#[derive(Drop)]
pub(crate) struct MergeState {
    /// The shard of the first text.
    pub(crate) first: Shard,
    /// For each shard, the index of its text, if it has one so far.
    pub(crate) sources: Vec<Option<usize>>,
    /// For each job, its row, if it has one so far.
    pub(crate) slots: Vec<Option<Row>>,
}

/// Returns the state before the first text is added: it has the run of this shard, and no row.
pub(crate) fn initial_state(alloc: Global, shard: &Shard) -> Result<MergeState, AllocError>
    ensures first { IfOk result (λ state. state.first ≡ shard.now) }
    ensures sources { IfOk result (λ state. state.sources.items ≡ replicate shard.now.shards None) }
    ensures slots { IfOk result (λ state. state.slots.items ≡ replicate shard.now.jobs None) }
{
    let stamp = String::from_str(alloc, shard.stamp.as_str())?;
    let sources = empty_slots(alloc, shard.shards)?;
    let slots = empty_slots(alloc, shard.jobs)?;
    Ok(MergeState {
        first: Shard {
            jobs: shard.jobs,
            number: shard.number,
            shards: shard.shards,
            stamp: Text::new(stamp),
        },
        sources,
        slots,
    })
}

// Returns `count` empty slots.
fn empty_slots<T: Drop>(alloc: Global, count: u32) -> Result<Vec<Option<T>>, AllocError>
    ensures { IfOk result (λ slots. slots.items ≡ replicate count None) }
{
    let mut slots = Vec::new(alloc);
    for _ in 0..count {
        slots.push(None)?;
    }
    Ok(slots)
}

/// Adds the rows of a part, whose text is at an index, unless its shard already had an identical text. Returns an error if the part belongs
/// to another run, or its shard already had a different text.
pub(crate) fn add_part(
    state: &mut MergeState,
    texts: &[&[u8]],
    index: usize,
    part: Part,
) -> Result<(), MergeError>
    requires index { index < length texts.now }
    requires text { IsTextOf (report_of_part part) (nth_text (bytes_of_texts texts.now) index) }
    requires state { IsMergeStateAfter (bytes_of_texts texts.now) index state.old }
    ensures next_state { OnOk result (IsMergeStateAfter (bytes_of_texts texts.now) (index + 1) state.new) }
    ensures error { IfErr result (HasMergeError (bytes_of_texts texts.now)) }
{
    if let Some(flaw) = other_run_flaw(&state.first, &part.shard) {
        return Err(MergeError::InvalidText(index, flaw));
    }
    let shard = part.shard.number as usize - 1;
    match state.sources[shard] {
        None => {
            state.sources[shard] = Some(index);
            let rows = part.rows.into_vec();
            fill_slots(&mut state.slots, part.numbers.as_slice(), rows);
            Ok(())
        }
        Some(earlier) if are_same_texts(texts, earlier, index) => Ok(()),
        Some(earlier) => Err(MergeError::InvalidText(index, Flaw::DifferentText(earlier))),
    }
}

// Returns how the run of `shard` differs from the run of `first`, or `None` if it is the same run.
fn other_run_flaw(first: &Shard, shard: &Shard) -> Option<Flaw>
    ensures { MatchOption result (run_of_shard shard.now ≡ run_of_shard first.now)
        (λ flaw. IsRunFlaw flaw first.now shard.now) }
{
    if shard.shards != first.shards {
        return Some(Flaw::DifferentShardCount);
    }
    if shard.jobs != first.jobs {
        return Some(Flaw::DifferentJobCount);
    }
    if shard.stamp.as_str() != first.stamp.as_str() {
        return Some(Flaw::DifferentStamp);
    }
    None
}

// Whether the texts at two indices are equal.
fn are_same_texts(texts: &[&[u8]], index: usize, other: usize) -> bool
    requires index { index < length texts.now }
    requires other { other < length texts.now }
    ensures { IsTrue result ↔ (nth_text (bytes_of_texts texts.now) index
        ≡ nth_text (bytes_of_texts texts.now) other) }
{
    texts[index] == texts[other]
}

// Writes each row to the slot of its job number.
fn fill_slots(slots: &mut Vec<Option<Row>>, numbers: &[u32], rows: Vec<Row>)
    requires numbers { All (λ n. (0 < n) × (n ≤ vec_len slots.old)) numbers.now }
    requires one_number_each { length numbers.now ≡ vec_len rows }
    ensures { slots.new.items ≡ filled_slots numbers.now rows.items slots.old.items }
{
    let mut at = 0;
    for row in rows {
        slots[numbers[at] as usize - 1] = Some(row);
        at += 1;
    }
}
