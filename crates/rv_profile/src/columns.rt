//! The columns of a profile.

ghost use Rattle.std.specs.Prelude.{◌≡◌, IfOk};
ghost use Rattle.rv_profile.specs.Text.{columns_of, width};

use crate::sums::Sums;
use rv_count_tables::push_number;
use std::alloc::{AllocError, Global};

/// The widths of the columns of an image's profile, in characters.
#[derive(Clone, Copy)]
pub(crate) struct Columns {
    pub(crate) own: usize,
    pub(crate) inclusive: usize,
    pub(crate) calls: usize,
}

/// Returns the widths of the columns for an image, given the total steps and calls of its call tree.
pub(crate) fn columns_of(alloc: Global, sums: Sums) -> Result<Columns, AllocError>
    ensures { IfOk result (λ columns. columns ≡ columns_of sums) }
{
    Ok(Columns {
        own: width(alloc, 13, sums.steps)?,
        inclusive: width(alloc, 11, sums.steps)?,
        calls: width(alloc, 10, sums.calls)?,
    })
}

// Returns the width of a column whose largest number is `greatest`: `min_width`, or the number of its digits plus 2 if that is more.
fn width(alloc: Global, min_width: usize, greatest: u64) -> Result<usize, AllocError>
    ensures { IfOk result (λ count. count ≡ width min_width greatest) }
{
    let mut digits = Vec::new(alloc);
    push_number(&mut digits, greatest)?;
    Ok(min_width.max(2 + digits.len()))
}
