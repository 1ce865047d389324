//! A run whose rows are shown and written while the jobs run.

ghost use Rattle.std.specs.Prelude.{◌≡◌, ◌&&◌, ◌≤◌, [], ℕ, List, IfErr, IfOk, IfSome, None, OnOk, is_some, length, not, true};
ghost use Rattle.std.specs.Io.KnownBytes.{Appends};
ghost use Rattle.rv_expect.specs.Judgement.{judge_view};
ghost use Rattle.rv_job_text.specs.RowReporter.{row_lines_at, reporter_of};
ghost use Rattle.rv_junit.specs.KnownLines.{AreFailureTexts, AreLinesOf};
ghost use Rattle.rv_rows.specs.declared_row.Row.{Row as ARow};
ghost use Rattle.rv_stream.specs.Streams.{joined_row_texts};
ghost use Rattle.rvtest_app.specs.FailureLines.{failure_lines, stores_failure_texts};
ghost use Rattle.rvtest_app.specs.IntoReports.{report_row_text};
ghost use Rattle.rvtest_app.specs.RowSinks.{AreRowsWritten};
ghost use Rattle.rvtest_app.specs.RunOutput.{run_output_text};
ghost use Rattle.rvtest_app.specs.Runs.{IsCountsTable, run_rows, shown_indices};
ghost use Rattle.rv_stream.specs.declared.error.StreamError.TheVariants.{ObserverStopped};

use crate::crew::requested_crew;
use crate::planned_run::PlannedRun;
use crate::report_row_reporter::ReportRowReporter;
use crate::run::ListRun;
use crate::run_output::{run_if_written, write_totals_line};
use crate::terminals::Terminals;
use rv_files::{Inputs, Sink};
use rv_job_text::{TextReporter, Verbosity};
use rv_junit::FailureTexts;
use rv_stream::{
    Batch, Both, ReporterOutput, RowSender, StreamError, StreamOptions, StreamSpec, StreamedRun,
    stream_rows,
};
use rv_terminal::{Progress, ProgressReporter, TerminalSink};
use rvtest_cli::RunArgs;
use std::alloc::Global;
use std::io::Write;
use std::marker::Brand;
use std::sync::Wait;
use std::thread::Threads;
use std::time::Clock;

/// The stream on which a run is shown.
#[derive(Drop)]
pub(crate) struct RunDisplay<W: Drop> {
    pub(crate) stream: W,
    pub(crate) is_terminal: bool,
}

/// The result of a run that was shown: the texts of failures that were kept for JUnit XML, and either the rows, with the table of counts if
/// instructions were counted, or the reason why not all rows were shown and written.
#[derive(Drop)]
pub(crate) struct ShownRun {
    pub(crate) texts: Vec<Option<Vec<u8>>>,
    pub(crate) ran: Result<StreamedRun, StreamError>,
}

impl<'x, R: Threads + Wait + Sync + Clock, D: Inputs> ListRun<'x, R, D> {
    /// Runs the jobs, and writes their lines to a stream and the progress to standard error. If a sink is given and the run updates no old
    /// report, also writes each row to this sink as soon as it is available. Returns the stream, the sink and the result.
    pub(crate) fn run_and_show<
        'm,
        K: StreamSpec + Send,
        V: Sink + Drop + Send,
        W: Sink + Drop + Send,
        P: Write + Drop + Send,
    >(
        &self,
        planned: &PlannedRun<'m>,
        display: RunDisplay<W>,
        rows: &ReportRowReporter,
        sink: Option<V>,
        terminals: Terminals<P>,
    ) -> (W, Option<V>, ShownRun)
        requires sink_given { is_some sink ≡ K.has_sink }
        requires sink { IfSome sink (λ sink. (K.accepted_before ≡ V.accepted sink) × (K.failure_count ≡ V.failure_count sink)) }
        requires line { report_row_text rows.now.is_streaming ≡ K.row_text }
        requires judging { judge_view planned.now.reporter.now.judge ≡ K.judge }
        requires stores_texts { stores_failure_texts self.now.args.now planned.now.reporter.now.verbosity ≡ K.keeps_failure_texts }
        ensures rows { IfOk result.2.ran (λ run. run.rows ≡ run_rows self.now.args.now.stop_after
            (judge_view planned.now.reporter.now.judge) planned.now.reporter.now.plan.now planned.now.indices.now) }
        ensures row_count { IfOk result.2.ran (λ run. length run.rows ≤ length planned.now.indices.now) }
        ensures table { IfOk result.2.ran (λ run. IfSome run.table (IsCountsTable self.now.args.now.stacks
            planned.now.reporter.now.plan.now (shown_indices planned.now.indices.now run.rows))) }
        ensures shown { OnOk result.2.ran (Appends (W.accepted display.stream) (W.accepted result.0)
            (run_output_text (row_lines_at (reporter_of planned.now.reporter.now))
            (judge_view planned.now.reporter.now.judge) planned.now.reporter.now.plan.now planned.now.indices.now
            (run_rows self.now.args.now.stop_after (judge_view planned.now.reporter.now.judge)
            planned.now.reporter.now.plan.now planned.now.indices.now))) }
        ensures no_failed_writes { OnOk result.2.ran (W.failure_count result.0 ≡ W.failure_count display.stream) }
        ensures report_written { OnOk result.2.ran (AreRowsWritten V.accepted V.failure_count sink result.1
            (joined_row_texts (report_row_text rows.now.is_streaming) planned.now.indices.now (run_rows self.now.args.now.stop_after
            (judge_view planned.now.reporter.now.judge) planned.now.reporter.now.plan.now planned.now.indices.now))) }
        ensures sink { is_some result.1 ≡ is_some sink }
        ensures report_failed { IfErr result.2.ran (λ error. error ≡ ObserverStopped → is_some sink ≡ true) }
        ensures texts { IfOk result.2.ran (λ run. AreLinesOf (failure_lines (reporter_of planned.now.reporter.now))
            planned.now.indices.now run.rows result.2.texts.items) }
    {
        let (rt, alloc) = (self.host.rt, self.host.alloc);
        let (reporter, indices) = (planned.reporter, planned.indices);
        let progress = self.run_progress(planned, terminals);
        let counting = ProgressReporter::new(rt, reporter, &progress);
        let RunDisplay {
            stream,
            is_terminal,
        } = display;
        let out = TerminalSink::new(rt, alloc, stream, is_terminal, &progress);
        let output = ReporterOutput {
            reporter: &counting,
            out,
        };
        let sender = RowSender::<K, ReportRowReporter, V>::new(alloc, rows, sink);
        let observer = Both {
            first: sender,
            second: self.failure_texts::<K>(reporter),
        };
        let crew = requested_crew(rt, alloc, self.args);
        let batch = Batch::new(reporter.plan, indices);
        let options = StreamOptions {
            judge: reporter.judge,
            max_failures: self.args.stop_after,
            counts_instructions: are_counted_in_run(self.args),
        };
        let (mut stream, observer, ran) = stream_rows::<
            Brand,
            R,
            ProgressReporter<'_, '_, '_, '_, R, TextReporter<'_>, P>,
            TerminalSink<'_, '_, R, W, P>,
            Both<RowSender<'_, K, ReportRowReporter, V>, FailureTexts<'m, K>>,
        >(&crew, &batch, &options, output, observer);
        let Both {
            first: sender,
            second: texts,
        } = observer;
        let (sink, sent) = sender.finish();
        let texts = texts.into_texts();
        let ran = run_if_written(ran, sent);
        let ran = write_totals_line(alloc, &reporter.judge, &batch, ran, &mut stream);
        let stream = stream.into_inner();
        progress.finish();
        (stream, sink, ShownRun { texts, ran })
    }

    // Returns the progress line of the run, which counts the jobs that have finished.
    fn run_progress<'m, P: Write + Drop>(
        &self,
        planned: &PlannedRun<'m>,
        terminals: Terminals<P>,
    ) -> Progress<'m, P>
        ensures jobs { result.jobs ≡ length planned.now.indices.now }
        ensures judge { judge_view result.judge ≡ (judge_view planned.now.reporter.now.judge) }
        ensures terminal { result.is_terminal ≡ terminals.is_errors_terminal }
    {
        let Terminals {
            is_errors_terminal,
            progress,
            ..
        } = terminals;
        Progress::new(
            self.host.rt,
            planned.indices.len(),
            planned.reporter.judge,
            progress,
            is_errors_terminal,
        )
    }

    // Returns an observer of the rows that stores the texts of failures if the JUnit XML needs them.
    fn failure_texts<'m, K: StreamSpec>(&self, reporter: &TextReporter<'m>) -> FailureTexts<'m, K>
        requires judging { judge_view reporter.now.judge ≡ K.judge }
        requires stores_texts { stores_failure_texts self.now.args.now reporter.now.verbosity ≡ K.keeps_failure_texts }
        ensures { AreFailureTexts K.judge result.is_closed result.texts.items [] }
    {
        let is_needed = match reporter.verbosity {
            Verbosity::Quiet => false,
            Verbosity::Failures | Verbosity::All => self.args.junit.is_some(),
        };
        FailureTexts::new(self.host.alloc, reporter.judge, is_needed)
    }
}

// Whether the run that is shown also counts instructions. Counts with call stacks need another run.
fn are_counted_in_run(args: &RunArgs<'_>) -> bool
    ensures { result ≡ is_some args.now.counts && not args.now.stacks }
{
    args.counts.is_some() && !args.stacks
}
