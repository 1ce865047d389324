//! The line that says how two signatures differ.

ghost use Rattle.std.specs.Prelude.{◌≡◌, ◌++◌, OnOk, codes, slice_index};
ghost use Rattle.rv_rows.specs.Report.{line};
ghost use Rattle.rv_rows.specs.Verdict.{are_same_signatures};
ghost use Rattle.rv_diff.specs.Differences.{change_prefix, change_line, first_differing_index, signature_change_text, word_change_text};

use rv_rows::{Row, Span, Words, are_same_signatures, push_spans};
use std::alloc::AllocError;

/// Appends the line for the signatures, if they differ: the first word that differs, or the sizes if one signature is missing or a prefix
/// of the other.
pub(crate) fn push_signature_change(
    text: &mut Vec<u8>,
    old_row: &Row,
    new_row: &Row,
) -> Result<(), AllocError>
    ensures { OnOk result (text.new.items ≡ text.old.items
        ++ change_line new_row.now.name (are_same_signatures old_row.now.signature new_row.now.signature)
        (signature_change_text old_row.now.signature new_row.now.signature)) }
{
    if are_same_signatures(&old_row.signature, &new_row.signature) {
        return Ok(());
    }
    push_signature_line(
        text,
        new_row.name.as_str(),
        &old_row.signature,
        &new_row.signature,
    )
}

// Appends the line for two signatures that differ: the first word that differs, or the sizes if one signature is missing or a prefix of the
// other.
#[tactic(auto, unfolding(crate::specs::Differences::signature_change_text))]
fn push_signature_line<'a>(
    text: &mut Vec<u8>,
    name: &'a str,
    old: &Option<Words>,
    new: &Option<Words>,
) -> Result<(), AllocError>
    ensures { OnOk result (text.new.items ≡ text.old.items
        ++ line (change_prefix name.now ++ signature_change_text old.now new.now)) }
{
    match (old, new) {
        (Some(before), Some(after)) => {
            push_words_change(text, name, before.as_slice(), after.as_slice())
        }
        (Some(before), None) => push_spans(
            text,
            &[
                Span::Text("! "),
                Span::Text(name),
                Span::Text(": signature "),
                Span::Count(before.as_slice().len() as u64, "word"),
                Span::Text(" -> none\n"),
            ],
        ),
        (None, Some(after)) => push_spans(
            text,
            &[
                Span::Text("! "),
                Span::Text(name),
                Span::Text(": signature none -> "),
                Span::Count(after.as_slice().len() as u64, "word"),
                Span::Text("\n"),
            ],
        ),
        (None, None) => push_spans(
            text,
            &[
                Span::Text("! "),
                Span::Text(name),
                Span::Text(": signature none -> none\n"),
            ],
        ),
    }
}

// Appends the line for the words of two signatures that differ: the first word that differs, or the lengths if one is a prefix of the
// other.
fn push_words_change<'a>(
    text: &mut Vec<u8>,
    name: &'a str,
    old: &[u32],
    new: &[u32],
) -> Result<(), AllocError>
    ensures { OnOk result (text.new.items ≡ text.old.items ++ line (change_prefix name.now
        ++ (codes "signature " ++ word_change_text (first_differing_index old.now new.now) old.now new.now))) }
{
    match first_differing_word(old, new) {
        Some(place) => push_spans(
            text,
            &[
                Span::Text("! "),
                Span::Text(name),
                Span::Text(": signature word "),
                Span::Number(place as u64),
                Span::Text(": "),
                Span::Word(word_or_zero(old, place)),
                Span::Text(" -> "),
                Span::Word(word_or_zero(new, place)),
                Span::Text("\n"),
            ],
        ),
        None => push_spans(
            text,
            &[
                Span::Text("! "),
                Span::Text(name),
                Span::Text(": signature "),
                Span::Count(old.len() as u64, "word"),
                Span::Text(" -> "),
                Span::Count(new.len() as u64, "word"),
                Span::Text("\n"),
            ],
        ),
    }
}

// Returns the first index at which two signatures have different words, or `None` if one is a prefix of the other.
fn first_differing_word(old: &[u32], new: &[u32]) -> Option<usize>
    ensures { result ≡ first_differing_index old.now new.now }
{
    old.iter().zip(new).position(|(x, y)| x != y)
}

// Returns the word at an index, or 0 if there are too few words.
fn word_or_zero(words: &[u32], index: usize) -> u32
    ensures { result ≡ slice_index words.now index }
{
    if index < words.len() { words[index] } else { 0 }
}
