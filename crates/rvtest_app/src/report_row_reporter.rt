//! The text of a row in a report, for rows that are written as soon as they are known.

ghost use Rattle.rvtest_app.specs.IntoReports.{report_row_text};

use rv_rows::{Row, RowReporter, push_row};
use std::alloc::{AllocError, Global};

/// Reports each row with its text in a report.
#[derive(Clone, Copy)]
pub(crate) struct ReportRowReporter {
    /// Whether the report's rows are written as soon as their jobs finish. If not, every text is empty.
    pub(crate) is_streaming: bool,
}

impl RowReporter for ReportRowReporter {
    ghost line = { λ reporter index row. report_row_text reporter.is_streaming index row };

    // Appends the text that a report has for the row of the job at index `index`, if rows are written early; otherwise nothing.
    fn push_row_text(
        &self,
        alloc: Global,
        index: usize,
        row: &Row,
        text: &mut Vec<u8>,
    ) -> Result<(), AllocError> {
        if !self.is_streaming {
            return Ok(());
        }
        if index == usize::MAX {
            // The number of the job does not fit. No memory has room for so many jobs, so this is reported as a lack of memory.
            return Err(AllocError);
        }
        let mut row_text = String::new(alloc);
        push_row(alloc, &mut row_text, index, row)?;
        text.extend_from_slice(row_text.as_bytes())
    }
}
