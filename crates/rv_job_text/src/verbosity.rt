//! How much is shown of the rows.

ghost use Rattle.std.specs.Prelude.{◌≡◌};
ghost use Rattle.rv_expect.specs.Judgement.{is_failing, judgement_view};
ghost use Rattle.rv_job_text.specs.RowReporter.{shows_row};

use rv_expect::Judgement;

/// Which rows are shown.
#[derive(Clone, Copy)]
pub enum Verbosity {
    /// No rows.
    Quiet,
    /// Only failures. A known failure is not one.
    Failures,
    /// All rows. Of passed rows and known failures only the first line is shown.
    All,
}

/// Which expectations of a job are shown.
#[derive(Clone, Copy)]
pub(crate) enum Detail {
    /// Only the unmet ones.
    UnmetExpectation,
    /// The unmet ones, and then the met ones.
    All,
}

impl Verbosity {
    /// Whether a row with this judgement is shown.
    pub(crate) fn shows_row(self, judgement: Judgement<'_>) -> bool
        ensures { result ≡ shows_row self (is_failing (judgement_view judgement.entry)) }
    {
        match self {
            Verbosity::Quiet => false,
            Verbosity::Failures => judgement.is_failing(),
            Verbosity::All => true,
        }
    }
}
