//! How the current call path changes when control passes from one function to another.

ghost use Rattle.std.specs.Prelude.{◌≡◌, ◌^◌, ◌<◌, OnOk, length};
ghost use Rattle.rv_calls.specs.Stack.{after_transfer};
ghost use Rattle.rv_stacks.specs.Nodes.{all_calls};
ghost use Rattle.rv_stacks.specs.Walks.{IsWalk};
ghost use Rattle.rv_stacks.specs.StackSteps.{IsFunctionCache, FollowsTransfer, ContinuesIn, IsAt};
ghost use Rattle.rv_stacks.specs.Stacks.{function_at};

use crate::functions::{CachedFunction, look_up_function};
use crate::walk::Walk;
use rv_calls::{Frame, Transfer, apply_transfer, remaining_frames};
use rv_counting::CodeSymbols;
use std::alloc::AllocError;

/// Applies a transfer of control to the frames, and moves the walk to the call path after it.
pub(crate) fn follow_transfer(
    symbols: &CodeSymbols<'_>,
    cache: &mut Vec<CachedFunction>,
    frames: &mut Vec<Frame>,
    walk: &mut Walk,
    transfer: Transfer,
) -> Result<(), AllocError>
    requires cache { IsFunctionCache (function_at symbols.now.image.now symbols.now.bytes.now) cache.old.items }
    requires at { IsAt (function_at symbols.now.image.now symbols.now.bytes.now) frames.old.items transfer.from walk.old }
    requires calls_fit { all_calls walk.old.nodes.items < 2 ^ 40 }
    ensures cache { OnOk result (IsFunctionCache (function_at symbols.now.image.now symbols.now.bytes.now) cache.new.items) }
    ensures frames { OnOk result (frames.new.items ≡ after_transfer frames.old.items transfer) }
    ensures walk { OnOk result (FollowsTransfer (function_at symbols.now.image.now symbols.now.bytes.now) frames.old.items transfer
        walk.old walk.new) }
{
    let remaining = remaining_frames(frames.as_slice(), transfer);
    apply_transfer(frames, transfer)?;
    if remaining < frames.len() {
        let caller = look_up_function(cache, symbols, transfer.from);
        continue_in(walk, remaining, caller)?;
        let function = look_up_function(cache, symbols, transfer.to);
        walk.enter(remaining + 1, function)
    } else {
        let function = look_up_function(cache, symbols, transfer.to);
        continue_in(walk, remaining, function)
    }
}

// Makes `function` the last function of the path, after its first `depth` functions. This counts as an entry only if another function was
// at that position.
fn continue_in(walk: &mut Walk, depth: usize, function: u32) -> Result<(), AllocError>
    requires valid { IsWalk walk.old }
    requires depth { depth < length walk.old.path.items }
    requires calls_fit { all_calls walk.old.nodes.items < 2 ^ 63 }
    ensures { OnOk result (ContinuesIn depth function walk.old walk.new) }
{
    if walk.path[depth] == function {
        walk.return_to(depth + 1);
        return Ok(());
    }
    walk.enter(depth, function)
}
