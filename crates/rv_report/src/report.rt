//! Reports and their text, written to a sink in few large writes.

ghost use Rattle.std.specs.Prelude.{◌≡◌, ◌++◌, ◌+◌, ◌<◌, ◌^◌, ◌-◌, [], OnOk, OnErr, IfErr, map, option_map};
ghost use Rattle.std.specs.Prelude.{string_bytes};
ghost use Rattle.std.specs.Io.KnownBytes.{Appends};
ghost use Rattle.rv_report.specs.Report.{end_line, dash_if_empty, console_line};
ghost use Rattle.rv_report.specs.Report.{signature_lines, row_text, rows_text, done_line, report_text};
ghost use Rattle.rv_base.specs.Sinks.{AppendsPrefix, IsPartlyWritten};
ghost use Rattle.rv_base.specs.Counts.{HasIncreased};
ghost use Rattle.rv_base.specs.Counts.{one_more};
ghost use Rattle.rv_report.specs.declared.report.WriteError.TheVariants.{Failed, OutOfMemory};

use crate::row::{Row, RowEnd};
use crate::signature_lines::{push_word_digits, push_word_lines};
use rv_base::{Sequence, Sink, SinkFailed, put_all};
use std::alloc::{AllocError, Global};
use thiserror::Error;

/// Rows in list order, seen by contracts as a list.
pub type Rows = Sequence<Row>;

/// The report of a whole list: one row for each job.
#[derive(Debug, Drop)]
pub struct Report {
    pub rows: Rows,
}

/// Why a report was not written completely.
#[derive(Clone, Copy, Debug, Error, PartialEq, Eq)]
pub enum WriteError {
    /// An allocation failed.
    #[error("out of memory")]
    OutOfMemory,
    /// A write to the sink failed.
    #[error("write failed")]
    Failed,
}

impl From<AllocError> for WriteError {
    ghost from_gives = { λ _ error. error ≡ OutOfMemory };

    // Returns `OutOfMemory`.
    fn from(_: AllocError) -> WriteError {
        WriteError::OutOfMemory
    }
}

impl From<SinkFailed> for WriteError {
    ghost from_gives = { λ _ error. error ≡ Failed };

    // Returns `Failed`.
    fn from(_: SinkFailed) -> WriteError {
        WriteError::Failed
    }
}

// Buffered text is written once it has this many bytes.
const FLUSH_THRESHOLD: usize = 32_768;

/// Writes the text of the report of a whole list to a sink. If it fails, a prefix of the text has been written.
pub fn write_report<W: Sink>(alloc: Global, report: &Report, out: &mut W) -> Result<(), WriteError>
    ensures appended { OnOk result
        (Appends (W.accepted out.old) (W.accepted out.new) (report_text report.now.rows)) }
    ensures no_failures { OnOk result (W.failure_count out.new ≡ W.failure_count out.old) }
    ensures prefix { OnErr result
        (AppendsPrefix (W.accepted out.old) (W.accepted out.new) (report_text report.now.rows)) }
    ensures failed { IfErr result (λ error. error ≡ WriteError.Failed
        → HasIncreased (W.failure_count out.old) (W.failure_count out.new)) }
{
    let rows = report.rows.as_slice();
    let mut text = String::new(alloc);
    write_rows(alloc, rows, &mut text, out)?;
    push_done_line(&mut text, rows.len())?;
    flush_text(&mut text, out)?;
    Ok(())
}

// Writes the text of the rows: its beginning is sent to the sink, and the rest remains in `text`.
fn write_rows<W: Sink>(
    alloc: Global,
    rows: &[Row],
    text: &mut String,
    out: &mut W,
) -> Result<(), WriteError>
    requires { string_bytes text.old ≡ [] }
    ensures partly_written { OnOk result
        (IsPartlyWritten (W.accepted out.old) (W.accepted out.new)
        (string_bytes text.new) (rows_text 0 rows.now)) }
    ensures no_failures { OnOk result (W.failure_count out.new ≡ W.failure_count out.old) }
    ensures prefix { OnErr result
        (AppendsPrefix (W.accepted out.old) (W.accepted out.new) (rows_text 0 rows.now)) }
    ensures failed { IfErr result
        (λ error. error ≡ WriteError.Failed → W.failure_count out.new ≡ one_more (W.failure_count out.old)) }
{
    for (index, row) in rows.iter().enumerate() {
        push_row(alloc, text, index, row)?;
        write_text_if_large(text, out)?;
    }
    Ok(())
}

/// Writes the buffered text and clears the buffer, if there is enough for a large write.
pub(crate) fn write_text_if_large<W: Sink>(text: &mut String, out: &mut W) -> Result<(), WriteError>
    ensures partly_written { OnOk result
        (IsPartlyWritten (W.accepted out.old) (W.accepted out.new)
        (string_bytes text.new) (string_bytes text.old)) }
    ensures no_failures { OnOk result (W.failure_count out.new ≡ W.failure_count out.old) }
    ensures prefix { OnErr result
        (AppendsPrefix (W.accepted out.old) (W.accepted out.new) (string_bytes text.old)) }
    ensures failed { IfErr result
        (λ error. (error ≡ WriteError.Failed) × (W.failure_count out.new ≡ one_more (W.failure_count out.old))) }
{
    if text.len() < FLUSH_THRESHOLD {
        return Ok(());
    }
    flush_text(text, out)
}

/// Writes the buffered text and clears the buffer.
pub(crate) fn flush_text<W: Sink>(text: &mut String, out: &mut W) -> Result<(), WriteError>
    ensures appended { OnOk result
        (Appends (W.accepted out.old) (W.accepted out.new) (string_bytes text.old)) }
    ensures cleared { OnOk result (string_bytes text.new ≡ []) }
    ensures no_failures { OnOk result (W.failure_count out.new ≡ W.failure_count out.old) }
    ensures prefix { OnErr result
        (AppendsPrefix (W.accepted out.old) (W.accepted out.new) (string_bytes text.old)) }
    ensures failed { IfErr result
        (λ error. (error ≡ WriteError.Failed) × (W.failure_count out.new ≡ one_more (W.failure_count out.old))) }
{
    put_all(out, text.as_bytes())?;
    text.clear();
    Ok(())
}

/// Appends the last line of the report of a whole list with this many rows.
#[tactic(auto, unfolding(crate::specs::Report::done_line))]
pub(crate) fn push_done_line(text: &mut String, count: usize) -> Result<(), AllocError>
    ensures { OnOk result (string_bytes text.new ≡ string_bytes text.old ++ done_line count) }
{
    write!(text, "done {count}\n")
}

/// Appends the text of the row of the job at an index, counted from 0.
#[tactic(auto, unfolding(crate::specs::Report::row_text))]
pub fn push_row(alloc: Global, text: &mut String, index: usize, row: &Row) -> Result<(), AllocError>
    requires { index < 2 ^ 64 - 1 }
    ensures { OnOk result (string_bytes text.new
        ≡ string_bytes text.old ++ row_text index row.now) }
{
    let number = index + 1;
    let name = row.name.as_str();
    let steps = row.steps;
    let verdict = row.verdict.name();
    write!(text, "job {number} {name}\n")?;
    push_end_line(alloc, text, row.ending)?;
    write!(text, "steps {steps}\n")?;
    push_console_line(alloc, text, row.console.as_slice())?;
    push_signature_lines(alloc, text, row_signature(row))?;
    write!(text, "verdict {verdict}\n")
}

// Appends the line `end ..`, which says how a job ended.
#[tactic(auto, unfolding(crate::specs::Report::end_line))]
fn push_end_line(alloc: Global, text: &mut String, ending: RowEnd) -> Result<(), AllocError>
    ensures { OnOk result (string_bytes text.new ≡ string_bytes text.old ++ end_line ending) }
{
    match ending {
        RowEnd::Exit(code) => write!(text, "end exit {code}\n"),
        RowEnd::Fault(kind, pc, value) => {
            let name = kind.name();
            write!(text, "end fault {name} pc=")?;
            push_word_digits(alloc, text, pc)?;
            text.push_str(" value=")?;
            push_word_digits(alloc, text, value)?;
            text.push_str("\n")
        }
        RowEnd::Budget => text.push_str("end budget\n"),
        RowEnd::Refused(refusal) => {
            let name = refusal.name();
            write!(text, "end refused {name}\n")
        }
    }
}

// Appends the line `console ..` with the bytes of the console in hexadecimal.
#[tactic(auto, unfolding(crate::specs::Report::console_line))]
fn push_console_line(alloc: Global, text: &mut String, console: &[u8]) -> Result<(), AllocError>
    ensures { OnOk result (string_bytes text.new
        ≡ string_bytes text.old ++ console_line console.now) }
{
    let digits = hex::encode(alloc, console)?;
    let shown = dash_if_empty(digits.as_str());
    write!(text, "console {shown}\n")
}

// Returns the text, or a dash if it is empty.
fn dash_if_empty(text: &str) -> &str
    ensures { result.now ≡ dash_if_empty text.now }
{
    if text.is_empty() { "-" } else { text }
}

// Returns the words of a row's signature; `None` if it has none.
fn row_signature(row: &Row) -> Option<&[u32]>
    ensures { option_map (λ words. words.now) result ≡ row.now.signature }
{
    match &row.signature {
        Some(words) => Some(words.as_slice()),
        None => None,
    }
}

// Appends the line `signature ..` with the number of words, and a line for each word; the line `signature -` without a signature.
#[tactic(auto, unfolding(crate::specs::Report::signature_lines))]
fn push_signature_lines(
    alloc: Global,
    text: &mut String,
    signature: Option<&[u32]>,
) -> Result<(), AllocError>
    ensures { OnOk result
        (string_bytes text.new ≡ string_bytes text.old ++ signature_lines
        (option_map (λ words. words.now) signature.entry)) }
{
    match signature {
        Some(words) => {
            let count = words.len();
            write!(text, "signature {count}\n")?;
            push_word_lines(alloc, text, words)
        }
        None => text.push_str("signature -\n"),
    }
}
