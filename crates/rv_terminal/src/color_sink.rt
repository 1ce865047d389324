//! A sink that can color results.

ghost use Rattle.std.specs.Prelude.{◌≡◌, ◌≤◌, IfErr, OnOk, is_err};
ghost use Rattle.rv_terminal.specs.ColorSinks.{IsColoredAs, IsPartlyColoredAs, first_state, has_failed, results_of};

use crate::colors::Colors;
use crate::output_state::{OutputState, write_in_state};
use rv_rows::{Sink, SinkFailed};
use std::marker::{Brand, Model, PhantomData};

/// Whether results are colored, and what the sink had accepted before them. All members are ghosts; each command has an implementation of
/// its own.
pub trait ColorSpec {
    ghost use Rattle.std.specs.Prelude.{ℕ, List, Option};
    ghost use Rattle.rv_terminal.specs.declared.colors.Colors.{Colors};

    ghost colors: { Colors };

    ghost before: { Option (List ℕ) };
}

impl ColorSpec for Brand {
    ghost use Rattle.std.specs.Prelude.{None};
    ghost use Rattle.rv_terminal.specs.declared.colors.Colors.TheVariants.{Plain};

    ghost colors = { Plain };

    ghost before = { None };
}

/// A sink that passes results on to another sink, with colors or without. Contracts describe the output without colors. After a write with
/// colors has failed, each further write fails, because a part of an escape sequence may have been written.
#[derive(Drop)]
pub struct ColorSink<J: ColorSpec, S: Sink + Drop> {
    sink: S,
    state: OutputState,
    failures: u64,
    of: PhantomData<J>,
}

impl<J: ColorSpec, S: Sink + Drop> Model for ColorSink<J, S> {
    ghost use Rattle.rv_terminal.specs.ColorSinks.{ColorSinkView, AreFailuresCounted, IsOutputState};

    ghost Value = { ColorSinkView S };

    ghost view = { λ s. record { sink = s.sink; failures = s.failures; state = s.state } };

    ghost invariant = { λ s. IsOutputState J.colors J.before (S.accepted s.sink) s.state
        × AreFailuresCounted s.state s.failures (S.failure_count s.sink) };
}

impl<J: ColorSpec, S: Sink + Drop> ColorSink<J, S> {
    /// Creates a sink that writes to another sink, which is at the start of a line.
    pub fn new(sink: S, colors: Colors) -> ColorSink<J, S>
        requires colors { colors ≡ J.colors }
        requires before { S.accepted sink ≡ J.before }
        ensures nothing_written { results_of J.colors J.before (S.accepted result.sink) ≡ S.accepted sink }
        ensures failures { result.failures ≡ S.failure_count sink }
        ensures state { result.state ≡ first_state colors }
    {
        let failures = sink.failures();
        ColorSink {
            sink,
            state: OutputState::first(colors),
            failures,
            of: PhantomData,
        }
    }

    /// Returns the underlying sink, and an error if a write with colors has failed, so that it did not receive the results completely.
    pub fn finish(self) -> (S, Result<(), SinkFailed>)
        ensures sink { result.0 ≡ self.sink }
        ensures error_if_failed { is_err result.1 ≡ has_failed self.state }
        ensures failed { IfErr result.1 (λ _. 1 ≤ S.failure_count self.sink) }
        ensures colored { OnOk result.1 (IsColoredAs J.colors J.before (results_of J.colors J.before (S.accepted self.sink))
            (S.accepted self.sink)) }
        ensures partly_colored { IsPartlyColoredAs J.colors J.before (results_of J.colors J.before (S.accepted self.sink)) (S.accepted self.sink) }
    {
        let ColorSink {
            sink,
            state,
            failures: _,
            of: _,
        } = self;
        let whole = if state.has_failed() {
            Err(SinkFailed)
        } else {
            Ok(())
        };
        (sink, whole)
    }
}

impl<J: ColorSpec, S: Sink + Drop> Sink for ColorSink<J, S> {
    ghost use Rattle.rv_terminal.specs.ColorSinks.{results_of};

    ghost accepted = { λ s. results_of J.colors J.before (S.accepted s.sink) };

    ghost failure_count = { λ s. s.failures };

    // Writes some leading bytes of `bytes`, with colors if they are on, and returns their number, or an error if the write failed.
    fn put(&mut self, bytes: &[u8]) -> Result<usize, SinkFailed> {
        let (count, state) = write_in_state(&mut self.sink, self.state, bytes);
        self.state = state;
        if count == 0 {
            self.failures = self.failures.saturating_add(1);
            return Err(SinkFailed);
        }
        Ok(count)
    }

    // Returns the number of failed writes.
    fn failures(&self) -> u64 {
        self.failures
    }
}
