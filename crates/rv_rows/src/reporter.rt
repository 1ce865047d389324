//! What is told of a row.

use rv_report::Row;
use std::alloc::{AllocError, Global};

/// Tells of a job and its row.
pub trait RowReporter {
    ghost use Rattle.std.specs.Prelude.{◌≡◌, ◌++◌, ℕ, List, OnOk};
    ghost use Rattle.rv_report.specs.declared.row.Row.{Row};

    // What is told of the job at a place and its row.
    ghost line: { Self → ℕ → Row → List ℕ };

    /// Appends what is told of the job at a place and its row. It may be nothing.
    fn push_row_text(
        &self,
        alloc: Global,
        place: usize,
        row: &Row,
        text: &mut Vec<u8>,
    ) -> Result<(), AllocError>
        ensures { OnOk result
            (text.new.items ≡ text.old.items ++ line self.now place row.now) };
}
