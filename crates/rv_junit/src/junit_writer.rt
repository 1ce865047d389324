//! A JUnit document, written in few large writes.

ghost use Rattle.std.specs.Prelude.{◌≡◌, IfErr, OnErr, OnOk};
ghost use Rattle.std.specs.Io.KnownBytes.{Appends};
ghost use Rattle.rv_stream.specs.Sinks.{AppendsPrefix};
ghost use Rattle.rv_stream.specs.Counts.{HasIncreased};
ghost use Rattle.rv_stream.specs.Streams.{row_texts};
ghost use Rattle.rv_job_text.specs.Judgement.{judge_view};
ghost use Rattle.rv_junit.specs.Junit.{junit_text};
ghost use Rattle.rv_junit.specs.KnownLines.{AreLinesOf};

use crate::case_writes::{Cases, write_cases};
use crate::junit::push_suite_begin;
use crate::suite::Suite;
use rv_job_text::{RowReporter, push_text};
use rv_stream::{Sink, WriteError, put_all};
use std::alloc::Global;

/// Writes rows as JUnit XML: one suite, with one test case for each row, in order, which has the row's steps and console. The case of a
/// failed row has a `failure` with the lines that describe the row, or an `error` if the job was refused. The case of a known failure is
/// `skipped`, with the reason.
///
/// After an error, a prefix of the text was written.
pub fn write_junit<T: RowReporter, W: Sink>(
    alloc: Global,
    suite: &Suite<'_>,
    cases: &Cases<'_, T>,
    out: &mut W,
) -> Result<(), WriteError>
    requires known { AreLinesOf (T.line cases.now.reporter.now) cases.now.indices.now cases.now.rows.now cases.now.texts.now }
    ensures written { OnOk result (Appends (W.accepted out.old) (W.accepted out.new)
        (junit_text suite.now.name.now (judge_view suite.now.judge)
        (row_texts (T.line cases.now.reporter.now) cases.now.indices.now cases.now.rows.now) cases.now.rows.now)) }
    ensures no_failed_writes { OnOk result (W.failure_count out.new ≡ W.failure_count out.old) }
    ensures prefix_written { OnErr result (AppendsPrefix (W.accepted out.old) (W.accepted out.new)
        (junit_text suite.now.name.now (judge_view suite.now.judge)
        (row_texts (T.line cases.now.reporter.now) cases.now.indices.now cases.now.rows.now) cases.now.rows.now)) }
    ensures failed { IfErr result (λ error. error ≡ WriteError.Failed
        → HasIncreased (W.failure_count out.old) (W.failure_count out.new)) }
{
    let mut begin = String::new(alloc);
    push_suite_begin(alloc, &mut begin, suite, cases.rows)?;
    let mut text = begin.into_bytes();
    write_cases(alloc, &mut text, suite, cases, out)?;
    push_text(&mut text, "</testsuite>\n</testsuites>\n")?;
    put_all(out, text.as_slice())?;
    Ok(())
}
