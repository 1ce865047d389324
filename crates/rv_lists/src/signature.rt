//! The two symbols of a job's signature.

ghost use Rattle.std.specs.Prelude.{◌≡◌, ◌<◌, ◌==◌, IfOk, IfSome, length, not, option_map};
ghost use Rattle.std.specs.Prelude.{option_and_then};
ghost use Rattle.std.specs.List.{list_all};
ghost use Rattle.toml.specs.Data.{as_str, get_item};
ghost use Rattle.toml.specs.View.{table_view, items_view};
ghost use Rattle.rv_lists.specs.Parsing.{MatchesUnlessOutOfMemory};
ghost use Rattle.rv_lists.specs.JobList.{is_signature_symbol, signature_symbol, symbols_from_names, signature_from_table};

use crate::error::What;
use crate::job::Symbols;
use crate::keys::array_at_key;
use crate::texts::is_in_bounds;
use rv_base::Text;
use rv_base::limits::MAX_SYMBOL_LEN;
use std::alloc::Global;
use toml::{Table, Value};

/// Returns the symbols of a job's signature, `None` if it has none, or an error if they are invalid.
#[tactic(auto, unfolding(crate::specs::JobList::signature_from_table))]
pub(crate) fn signature_from_table(alloc: Global, table: &Table) -> Result<Option<Symbols>, What>
    ensures value { MatchesUnlessOutOfMemory result (signature_from_table (table_view table.now)) }
    ensures names_not_empty { IfOk result (λ o. IfSome o (λ s. (0 < length s.begin) × (0 < length s.end))) }
{
    match array_at_key(table, "signature") {
        Some(names) => symbols_from_names(alloc, names.as_slice()),
        None => Ok(None),
    }
}

// Returns the two symbols of a signature from the value of `signature`, or an error if they are invalid.
#[tactic(auto, unfolding(crate::specs::JobList::symbols_from_names))]
fn symbols_from_names(alloc: Global, names: &[Value]) -> Result<Option<Symbols>, What>
    ensures value { MatchesUnlessOutOfMemory result (symbols_from_names (items_view names.now)) }
    ensures names_not_empty { IfOk result (λ o. IfSome o (λ s. (0 < length s.begin) × (0 < length s.end))) }
{
    if names.len() != 2 {
        return Err(What::Signature);
    }
    let begin = signature_symbol(alloc, names, 0)?;
    let end = signature_symbol(alloc, names, 1)?;
    Ok(Some(Symbols { begin, end }))
}

// Returns the name at an index of the value of `signature`, or an error if it is invalid.
fn signature_symbol(alloc: Global, names: &[Value], index: usize) -> Result<Text, What>
    requires { index < length names.now }
    ensures value { MatchesUnlessOutOfMemory result (signature_symbol index (items_view names.now)) }
    ensures not_empty { IfOk result (λ t. 0 < length t) }
{
    match element_text(names, index) {
        Some(text) => {
            if is_signature_symbol(text) {
                Ok(Text::copy(alloc, text)?)
            } else {
                Err(What::Signature)
            }
        }
        None => Err(What::Signature),
    }
}

// Returns the text at an index, or `None` if the value there is not a text.
fn element_text<'a>(values: &'a [Value], index: usize) -> Option<&'a str>
    requires { index < length values.now }
    ensures { option_map (λ t. t.now) result
        ≡ option_and_then as_str (get_item index (items_view values.now)) }
{
    values[index].as_str()
}

// Whether a text may name a symbol of a signature: it is 1 to 255 bytes long and has no zero byte.
#[tactic(auto, unfolding(crate::specs::JobList::is_signature_symbol))]
fn is_signature_symbol(text: &str) -> bool
    ensures { result ≡ is_signature_symbol text.now }
{
    is_in_bounds(1, MAX_SYMBOL_LEN, text.len()) && has_no_zero_byte(text)
}

// Whether a text has no zero byte.
fn has_no_zero_byte(text: &str) -> bool
    ensures { result ≡ list_all (λ b. not (b == 0)) text.now }
{
    text.as_bytes().iter().all(|byte| *byte != 0)
}
