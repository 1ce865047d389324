//! The lines about golden files.

ghost use Rattle.std.specs.Prelude.{◌≡◌, ◌++◌, OnOk, option_map};
ghost use Rattle.rv_accept_text.specs.FileLines.{changed_file_line, disagreement_text, file_prefix, file_line, skipped_file_line, skipped_prefix};
ghost use Rattle.rv_accept_text.specs.FileLines.{created_file_line, other_text_reason, golden_change, golden_kind_text, text_or_empty, disagreeing_texts};
ghost use Rattle.rv_accept_text.specs.FileLines.{file_skip_reason, written_file_line};

use crate::changed_text::{push_byte_difference, push_text_change, push_word_change};
use crate::golden_file::{GoldenFile, ListFile};
use crate::job_lines::job_name;
use rv_accept::{
    GoldenFileOutcome, GoldenKind, GoldenText, Target, first_other_text, first_text_for_file,
};
use rv_rows::{Bytes, Job, Span, push_spans, push_text};
use std::alloc::AllocError;

/// Appends the lines about a golden file that changes, or nothing if it does not.
#[tactic(auto, unfolding(crate::specs::FileLines::file_line))]
pub(crate) fn push_file_line(
    out: &mut Vec<u8>,
    list: &ListFile<'_>,
    file: &GoldenFile,
) -> Result<(), AllocError>
    ensures { OnOk result (out.new.items ≡ out.old.items ++ file_line list.now file.now) }
{
    match file.new_text(list) {
        Some(text) => push_written_file_line(out, list.jobs, file, text),
        None => Ok(()),
    }
}

// Appends the lines about a golden file that changes: it is created if it has no old contents, and otherwise overwritten.
fn push_written_file_line(
    out: &mut Vec<u8>,
    jobs: &[Job],
    file: &GoldenFile,
    text: &[u8],
) -> Result<(), AllocError>
    ensures { OnOk result (out.new.items ≡ out.old.items ++ written_file_line jobs.now file.now.target file.now.old text.now) }
{
    match &file.old {
        Some(old) => push_changed_file_line(out, jobs, &file.target, old.as_slice(), text),
        None => push_created_file_line(out, jobs, &file.target, text),
    }
}

// Appends the lines about a golden file that is overwritten.
fn push_changed_file_line(
    out: &mut Vec<u8>,
    jobs: &[Job],
    target: &Target,
    old: &[u8],
    text: &[u8],
) -> Result<(), AllocError>
    ensures { OnOk result (out.new.items ≡ out.old.items ++ changed_file_line jobs.now target.now old.now text.now) }
{
    push_file_prefix(out, "~ ", jobs, target)?;
    push_golden_change(out, target.kind, target.path.as_str(), old, text)
}

// Appends where the old and the new contents of a golden file differ: by lines or bytes for a console, and by words for a signature.
fn push_golden_change(
    out: &mut Vec<u8>,
    kind: GoldenKind,
    path: &str,
    old: &[u8],
    text: &[u8],
) -> Result<(), AllocError>
    ensures { OnOk result (out.new.items ≡ out.old.items ++ golden_change kind path.now old.now text.now) }
{
    match kind {
        GoldenKind::Console => push_text_change(out, Span::Printable(path.as_bytes()), old, text),
        GoldenKind::Signature => push_word_change(out, old, text),
    }
}

// Appends the line about a golden file that is created.
fn push_created_file_line(
    out: &mut Vec<u8>,
    jobs: &[Job],
    target: &Target,
    text: &[u8],
) -> Result<(), AllocError>
    ensures { OnOk result (out.new.items ≡ out.old.items ++ created_file_line jobs.now target.now text.now) }
{
    push_file_prefix(out, "+ ", jobs, target)?;
    push_spans(
        out,
        &[
            Span::Text(", "),
            Span::Count(text.len() as u64, "byte"),
            Span::Text("\n"),
        ],
    )
}

// Appends the first part of the line about a golden file: the sign, its path, and that it has the console or the signature of a job.
fn push_file_prefix<'x>(
    out: &mut Vec<u8>,
    sign: &'static str,
    jobs: &'x [Job],
    target: &'x Target,
) -> Result<(), AllocError>
    ensures { OnOk result (out.new.items ≡ out.old.items ++ file_prefix sign.now jobs.now target.now) }
{
    push_spans(
        out,
        &[
            Span::Text(sign),
            Span::Printable(target.path.as_str().as_bytes()),
            Span::Text(": "),
            Span::Text(golden_kind_text(target.kind)),
            Span::Printable(job_name(jobs, target.job).as_bytes()),
        ],
    )
}

// Returns `console of ` or `signature of `, for the result that a golden file has.
fn golden_kind_text(kind: GoldenKind) -> &'static str
    ensures { result.now ≡ golden_kind_text kind }
{
    match kind {
        GoldenKind::Console => "console of ",
        GoldenKind::Signature => "signature of ",
    }
}

/// Appends the line about a golden file that was skipped, or nothing if it was not.
#[tactic(auto, unfolding(crate::specs::FileLines::skipped_file_line))]
pub(crate) fn push_skipped_file_line(
    out: &mut Vec<u8>,
    list: &ListFile<'_>,
    golden_texts: &[GoldenText],
    file: &GoldenFile,
) -> Result<(), AllocError>
    ensures { OnOk result (out.new.items ≡ out.old.items ++ skipped_file_line list.now golden_texts.now file.now) }
{
    if !file.is_skipped(list) {
        return Ok(());
    }
    push_skipped_prefix(out, file.target.path.as_str())?;
    push_file_skip_reason(out, list.jobs, golden_texts, &file.target)
}

/// Appends `skipped NAME: `, the first part of the line about a skipped job or golden file.
pub(crate) fn push_skipped_prefix(out: &mut Vec<u8>, name: &str) -> Result<(), AllocError>
    ensures { OnOk result (out.new.items ≡ out.old.items ++ skipped_prefix name.now) }
{
    push_spans(
        out,
        &[
            Span::Text("skipped "),
            Span::Printable(name.as_bytes()),
            Span::Text(": "),
        ],
    )
}

// Appends why a golden file was skipped, and a line feed.
fn push_file_skip_reason(
    out: &mut Vec<u8>,
    jobs: &[Job],
    golden_texts: &[GoldenText],
    target: &Target,
) -> Result<(), AllocError>
    ensures { OnOk result (out.new.items
        ≡ out.old.items ++ file_skip_reason jobs.now golden_texts.now target.now.path target.now.outcome) }
{
    match &target.outcome {
        GoldenFileOutcome::SkippedBy(job) => push_spans(
            out,
            &[
                Span::Text("job \""),
                Span::Printable(job_name(jobs, *job).as_bytes()),
                Span::Text("\" also names this file and was skipped\n"),
            ],
        ),
        GoldenFileOutcome::Disagree(..) => push_disagreement(
            out,
            jobs,
            golden_texts,
            target.path.as_str(),
        ),
        GoldenFileOutcome::Agreed(_) | GoldenFileOutcome::Unclaimed => push_text(
            out,
            "the list and the images are never overwritten\n",
        ),
    }
}

// Appends the reason why the golden file at the path is skipped: two jobs have different texts for it.
fn push_disagreement(
    out: &mut Vec<u8>,
    jobs: &[Job],
    golden_texts: &[GoldenText],
    path: &str,
) -> Result<(), AllocError>
    ensures { OnOk result (out.new.items ≡ out.old.items ++ disagreement_text jobs.now golden_texts.now path.now) }
{
    match first_text_for_file(path, golden_texts) {
        Some(first) => push_other_text_reason(
            out,
            jobs,
            first,
            first_other_text(path, text_or_empty(&first.text), golden_texts),
        ),
        None => push_text(out, "\n"),
    }
}

// Appends the reason why a golden file is skipped: two jobs have different texts for it; only a line feed if there is no second job.
fn push_other_text_reason(
    out: &mut Vec<u8>,
    jobs: &[Job],
    first: &GoldenText,
    other: Option<&GoldenText>,
) -> Result<(), AllocError>
    ensures { OnOk result (out.new.items
        ≡ out.old.items ++ other_text_reason jobs.now first.now (option_map (λ golden_text. golden_text.now) other.entry)) }
{
    match other {
        Some(other) => push_disagreeing_texts(out, jobs, first, other),
        None => push_text(out, "\n"),
    }
}

// Appends the reason why a golden file is skipped: two jobs have different texts for it, and where these differ.
fn push_disagreeing_texts(
    out: &mut Vec<u8>,
    jobs: &[Job],
    first: &GoldenText,
    other: &GoldenText,
) -> Result<(), AllocError>
    ensures { OnOk result (out.new.items ≡ out.old.items ++ disagreeing_texts jobs.now first.now other.now) }
{
    push_spans(
        out,
        &[
            Span::Text(golden_kind_text(first.kind)),
            Span::Printable(job_name(jobs, first.job).as_bytes()),
            Span::Text(" and "),
            Span::Text(golden_kind_text(other.kind)),
            Span::Printable(job_name(jobs, other.job).as_bytes()),
            Span::Text(" differ"),
        ],
    )?;
    push_byte_difference(out, text_or_empty(&first.text), text_or_empty(&other.text))
}

// Returns the text, or an empty text if there is none.
fn text_or_empty(text: &Option<Bytes>) -> &[u8]
    ensures { result.now ≡ text_or_empty text.now }
{
    match text {
        Some(text) => text.as_slice(),
        None => &[],
    }
}
