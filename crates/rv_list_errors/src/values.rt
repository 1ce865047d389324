//! Actual values, and what is expected.

ghost use Rattle.std.specs.Prelude.{◌≡◌, Some, option_map, unwrap_or};
ghost use Rattle.toml.specs.Data.{get_member, no_items};
ghost use Rattle.toml.specs.View.{items_view, table_view, view};
ghost use Rattle.rv_lists.specs.Keys.{array_at_key, number_at_key, text_at_key};
ghost use Rattle.rv_list_errors.specs.Explanation.{AppendsTextThat, IsKeyAndValue, IsExpectedValue, missing_key_text};
ghost use Rattle.rv_list_errors.specs.NearNames.{Adds};

use crate::message::Message;
use toml::{Table, Value};

/// Returns the value at a key, or `None` if there is no such key.
pub(crate) fn value_at_key<'a>(table: &'a Table, key: &str) -> Option<&'a Value>
    ensures { option_map (λ v. view v.now) result ≡ get_member key.now (table_view table.now) }
{
    table.get(key)
}

/// Returns the text at a key, or `None` if there is no text there.
pub(crate) fn text_at_key<'a>(table: &'a Table, key: &str) -> Option<&'a str>
    ensures { option_map (λ s. s.now) result ≡ text_at_key key.now (table_view table.now) }
{
    match value_at_key(table, key) {
        Some(value) => value.as_str(),
        None => None,
    }
}

/// Returns the integer at a key, or `None` if there is no integer there.
pub(crate) fn number_at_key(table: &Table, key: &str) -> Option<i64>
    ensures { result ≡ number_at_key key.now (table_view table.now) }
{
    match value_at_key(table, key) {
        Some(value) => value.as_integer(),
        None => None,
    }
}

/// Returns the integer at a key, or `None` if there is none or it is not from 0 to 2^32 - 1.
pub(crate) fn word_at_key(table: &Table, key: &str) -> Option<u32> {
    match value_at_key(table, key) {
        Some(Value::Integer(number)) => u32::try_from(*number).ok(),
        _ => None,
    }
}

/// Returns the elements of the array at a key, or no elements if there is no array.
pub(crate) fn elements_at_key<'a>(table: &'a Table, key: &str) -> &'a [Value]
    ensures { items_view result.now ≡ unwrap_or (array_at_key key.now (table_view table.now)) no_items }
{
    match value_at_key(table, key) {
        Some(Value::Array(elements)) => elements.as_slice(),
        _ => &[],
    }
}

/// Appends a text that shows a key and its value, or says that the key is missing.
pub(crate) fn push_key_and_value(message: &mut Message, table: &Table, key: &str)
    ensures { AppendsTextThat message.old message.new
        (IsKeyAndValue key.now (get_member key.now (table_view table.now))) }
{
    match value_at_key(table, key) {
        Some(value) => push_key_with_value(message, key, value),
        None => push_missing_key(message, key),
    }
}

// Appends a key and its value.
fn push_key_with_value(message: &mut Message, key: &str, value: &Value)
    ensures { AppendsTextThat message.old message.new (IsKeyAndValue key.now (Some (view value.now))) }
{
    message.push(key);
    message.push(" = ");
    message.push_value(value);
}

// Appends the message that a key is missing.
fn push_missing_key(message: &mut Message, key: &str)
    ensures { Adds message.old message.new (missing_key_text key.now) }
{
    message.push("missing key \"");
    message.push(key);
    message.push("\"");
}

/// Appends a text that shows a key and its value, or says that the key is missing, and then has the text `expected`, which says what is
/// expected.
pub(crate) fn push_expected_value(message: &mut Message, table: &Table, key: &str, expected: &str)
    ensures { AppendsTextThat message.old message.new
        (IsExpectedValue key.now (get_member key.now (table_view table.now)) expected.now) }
{
    push_key_and_value(message, table, key);
    message.push(": ");
    message.push(expected);
}
