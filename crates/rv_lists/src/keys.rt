//! The keys of a list's tables, their values, and unknown keys.

ghost use Rattle.std.specs.Prelude.{◌≡◌, option_map};
ghost use Rattle.std.specs.List.{list_any};
ghost use Rattle.std.specs.Str.{bytes_eq};
ghost use Rattle.toml.specs.Data.{get_member};
ghost use Rattle.toml.specs.View.{view, table_view, array_view};
ghost use Rattle.rv_lists.specs.Keys.{text_at_key, number_at_key, boolean_at_key, array_at_key};
ghost use Rattle.rv_lists.specs.Keys.{is_job_key, is_region_key, is_list_key, any_unknown_key};

use toml::value::Array;
use toml::{Table, Value};

/// The TOML type of the value of a job's key.
#[derive(Clone, Copy)]
pub enum ValueType {
    Text,
    Number,
    /// An array of texts.
    Texts,
    /// An array of tables, each with the keys of a region.
    Regions,
}

/// The keys of a job, each with the type of its value.
pub const JOB_KEYS: [(&str, ValueType); 16] = [
    ("name", ValueType::Text),
    ("image", ValueType::Text),
    ("budget", ValueType::Number),
    ("input", ValueType::Text),
    ("input_hex", ValueType::Text),
    ("region", ValueType::Regions),
    ("load", ValueType::Text),
    ("signature", ValueType::Texts),
    ("expect_exit", ValueType::Number),
    ("expect_signature", ValueType::Text),
    ("expect_console", ValueType::Text),
    ("expect_console_file", ValueType::Text),
    ("expect_end", ValueType::Text),
    ("same_as", ValueType::Text),
    ("isa", ValueType::Text),
    ("misaligned", ValueType::Text),
];

/// Returns the value at a key, or `None` if there is no such key.
pub(crate) fn value_at_key<'a>(table: &'a Table, key: &str) -> Option<&'a Value>
    ensures { option_map (λ v. view v.now) result ≡ get_member key.now (table_view table.now) }
{
    table.get(key)
}

/// Returns the text at a key, or `None` if there is no text there.
pub(crate) fn text_at_key<'a>(table: &'a Table, key: &str) -> Option<&'a str>
    ensures { option_map (λ s. s.now) result ≡ text_at_key key.now (table_view table.now) }
{
    match value_at_key(table, key) {
        Some(value) => value.as_str(),
        None => None,
    }
}

/// Returns the integer at a key, or `None` if there is no integer there.
pub(crate) fn number_at_key(table: &Table, key: &str) -> Option<i64>
    ensures { result ≡ number_at_key key.now (table_view table.now) }
{
    match value_at_key(table, key) {
        Some(value) => value.as_integer(),
        None => None,
    }
}

/// Returns the Boolean at a key, or `None` if there is no Boolean there.
pub(crate) fn boolean_at_key(table: &Table, key: &str) -> Option<bool>
    ensures { result ≡ boolean_at_key key.now (table_view table.now) }
{
    match value_at_key(table, key) {
        Some(value) => value.as_bool(),
        None => None,
    }
}

/// Returns the array at a key, or `None` if there is no array there.
pub(crate) fn array_at_key<'a>(table: &'a Table, key: &str) -> Option<&'a Array>
    ensures { option_map (λ a. array_view a.now) result ≡ array_at_key key.now (table_view table.now) }
{
    match value_at_key(table, key) {
        Some(value) => value.as_array(),
        None => None,
    }
}

/// Whether a job's table has a key that jobs may not have.
pub(crate) fn has_unknown_job_key(table: &Table) -> bool
    ensures { result ≡ any_unknown_key is_job_key (table_view table.now) }
{
    table.keys().any(|key| !is_job_key(key.as_str()))
}

/// Whether a region's table has a key that regions may not have.
pub(crate) fn has_unknown_region_key(table: &Table) -> bool
    ensures { result ≡ any_unknown_key is_region_key (table_view table.now) }
{
    table.keys().any(|key| !is_region_key(key.as_str()))
}

/// Whether the whole list has a key other than `job`.
pub(crate) fn has_unknown_list_key(table: &Table) -> bool
    ensures { result ≡ any_unknown_key is_list_key (table_view table.now) }
{
    table.keys().any(|key| !(key.as_str() == "job"))
}

// Whether a job may have a key with this name.
fn is_job_key(name: &str) -> bool
    ensures { result ≡ is_job_key name.now }
{
    is_key_among(&JOB_KEYS, name)
}

// Whether `name` is one of these keys.
fn is_key_among(keys: &[(&str, ValueType)], name: &str) -> bool
    ensures { result ≡ list_any (λ key. bytes_eq name.now key.0.now) keys.now }
{
    keys.iter().any(|key| name == key.0)
}

// Whether a region may have a key with this name.
fn is_region_key(name: &str) -> bool
    ensures { result ≡ is_region_key name.now }
{
    if name == "base" {
        true
    } else if name == "size" {
        true
    } else if name == "write" {
        true
    } else {
        false
    }
}
