//! The number of failures of each kind, for the last line.

ghost use Rattle.std.specs.Prelude.{◌≡◌, ◌++◌, OnOk, codes, if◌then◌else◌};
ghost use Rattle.std.specs.Fmt.{decimal};
ghost use Rattle.rv_expect.specs.FailureKinds.{failure_kind_count};
ghost use Rattle.rv_job_text.specs.TotalsLine.{bracket_text, failure_count, failure_kind_name, failure_texts_below};

use rv_expect::FailureKind;
use rv_text::{Span, push_spans};
use std::alloc::AllocError;

/// Appends, in brackets, the number of failures of each kind that occurs. Appends nothing if there are no failures.
pub(crate) fn push_failure_counts(
    bytes: &mut Vec<u8>,
    failures: &[FailureKind],
) -> Result<(), AllocError>
    ensures { OnOk result (bytes.new.items ≡ bytes.old.items
        ++ bracket_text (failure_texts_below (failure_count failures.now) failure_kind_count)) }
{
    let mut is_open = false;
    for index in 0..FailureKind::COUNT {
        let kind = FailureKind::from_index(index);
        let count = failure_count(failures, kind);
        if count > 0 {
            push_failure_count(bytes, is_open, count, kind)?;
            is_open = true;
        }
    }
    if is_open {
        bytes.extend_from_slice(b")")?;
    }
    Ok(())
}

// Returns how many of the failures are of this kind.
fn failure_count(failures: &[FailureKind], kind: FailureKind) -> usize
    ensures { result ≡ failure_count failures.now kind }
{
    let mut count = 0;
    for failure in failures {
        if kind.is_same(*failure) {
            count += 1;
        }
    }
    count
}

// Appends the number of failures of a kind and the name of the kind, after a comma if the bracket is already open, or else after an opening
// bracket.
fn push_failure_count(
    bytes: &mut Vec<u8>,
    is_open: bool,
    count: usize,
    kind: FailureKind,
) -> Result<(), AllocError>
    ensures { OnOk result (bytes.new.items ≡ bytes.old.items
        ++ ((if is_open then codes ", " else codes " (")
        ++ (decimal count ++ codes " " ++ failure_kind_name kind))) }
{
    let begin = if is_open { ", " } else { " (" };
    push_spans(
        bytes,
        &[
            Span::Text(begin),
            Span::Number(count as u64),
            Span::Text(" "),
            Span::Text(failure_kind_name(kind)),
        ],
    )
}

// Returns the name of a kind of failure.
fn failure_kind_name(kind: FailureKind) -> &'static str
    ensures { result.now ≡ failure_kind_name kind }
{
    match kind {
        FailureKind::Exit => "exit",
        FailureKind::Budget => "budget",
        FailureKind::Fault(fault) => fault.name(),
        FailureKind::Refused => "refused",
        FailureKind::Console => "console",
        FailureKind::Signature => "signature",
        FailureKind::SameAs => "same_as",
    }
}
