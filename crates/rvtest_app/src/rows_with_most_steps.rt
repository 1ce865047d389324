//! The rows with the most steps.

ghost use Rattle.std.specs.Prelude.{◌≡◌, ◌≤◌, ◌<◌, ◌+◌, IfOk, OnOk, length, map, nat_lt, take};
ghost use Rattle.std.specs.List.{prefix_len};
ghost use Rattle.rvtest_app.specs.ReportSummary.{rows_with_most_steps, inserted_by_steps};

use rv_rows::Row;
use std::alloc::{AllocError, Global};

/// How many of the rows with the most steps are shown.
pub const MAX_SHOWN: usize = 10;

/// Returns the rows with the most steps, at most [`MAX_SHOWN`], by descending steps; rows with equal steps keep their order.
pub(crate) fn rows_with_most_steps(alloc: Global, rows: &[Row]) -> Result<Vec<&Row>, AllocError>
    ensures { IfOk result (λ top_rows. map (λ row. row.now) top_rows.items ≡ rows_with_most_steps rows.now) }
{
    let mut top_rows = Vec::new(alloc);
    let mut left = rows.len();
    while left > 0 {
        left -= 1;
        insert_by_steps(&mut top_rows, &rows[left])?;
    }
    Ok(top_rows)
}

// Inserts a row after all rows that have more steps, and drops the last row if there are then more than [`MAX_SHOWN`]. Changes nothing if
// [`MAX_SHOWN`] rows have more steps.
fn insert_by_steps<'a>(top_rows: &mut Vec<&'a Row>, row: &'a Row) -> Result<(), AllocError>
    requires { length top_rows.old.items ≤ MAX_SHOWN }
    ensures rows { OnOk result (map (λ row. row.now) top_rows.new.items
        ≡ take MAX_SHOWN (inserted_by_steps row.now (map (λ row. row.now) top_rows.old.items))) }
    ensures at_most_max { OnOk result (length top_rows.new.items ≤ MAX_SHOWN) }
{
    let rank = rank_by_steps(top_rows.as_slice(), row.steps);
    if rank == MAX_SHOWN {
        return Ok(());
    }
    top_rows.truncate(MAX_SHOWN - 1);
    top_rows.insert(rank, row)?;
    Ok(())
}

// Returns the number of rows at the beginning of `top_rows` that have more than `steps` steps, up to the first row that does not.
fn rank_by_steps(top_rows: &[&Row], steps: u32) -> usize
    ensures rank { result ≡ prefix_len (λ row. nat_lt steps row.now.steps) top_rows.now }
    ensures within { result ≤ length top_rows.now }
{
    for (rank, row) in top_rows.iter().enumerate() {
        if row.steps <= steps {
            return rank;
        }
    }
    top_rows.len()
}
