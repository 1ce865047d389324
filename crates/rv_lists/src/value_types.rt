//! Whether a table has only the keys of a job, with values of the right types.

ghost use Rattle.std.specs.Prelude.{◌≡◌, true, false};
ghost use Rattle.std.specs.List.{list_all, list_any};
ghost use Rattle.toml.specs.View.{view, table_view};
ghost use Rattle.rv_lists.specs.Keys.{is_absent_or, has_key_types, region_keys, job_keys, is_text};
ghost use Rattle.rv_lists.specs.Keys.{is_number};
ghost use Rattle.rv_lists.specs.Keys.{is_boolean, is_text_array, is_region, is_region_array, region_has_unknown_key};
ghost use Rattle.rv_lists.specs.Keys.{job_has_unknown_region_key, has_wrong_type, has_unknown_job_or_region_key};
ghost use Rattle.rv_lists.specs.KeysInside.{is_value_of_type};

use crate::keys::{
    JOB_KEYS, ValueType, array_at_key, has_unknown_job_key, has_unknown_region_key, value_at_key,
};
use toml::{Table, Value};

/// Whether a job has a key that jobs may not have, or one of its regions has a key that regions may not have.
#[tactic(auto, unfolding(crate::specs::Keys::has_unknown_job_or_region_key))]
pub(crate) fn has_unknown_job_or_region_key(table: &Table) -> bool
    ensures { result ≡ has_unknown_job_or_region_key (table_view table.now) }
{
    has_unknown_job_key(table) || job_has_unknown_region_key(table)
}

/// Whether a value of a job does not have the type that its key requires; this includes the values in regions and in a signature.
#[tactic(auto, unfolding(crate::specs::Keys::has_wrong_type))]
pub(crate) fn has_wrong_type(table: &Table) -> bool
    ensures { result ≡ has_wrong_type (table_view table.now) }
{
    !has_job_key_types(table)
}

// Whether at least one region of a job has a key that regions may not have.
fn job_has_unknown_region_key(table: &Table) -> bool
    ensures { result ≡ job_has_unknown_region_key (table_view table.now) }
{
    match array_at_key(table, "region") {
        Some(regions) => any_region_has_unknown_key(regions.as_slice()),
        None => false,
    }
}

// Whether at least one of these values is a table with a key that regions may not have.
fn any_region_has_unknown_key(regions: &[Value]) -> bool
    ensures { result ≡ list_any (λ v. region_has_unknown_key (view v)) regions.now }
{
    regions.iter().any(|region| region_has_unknown_key(region))
}

// Whether a value is a table with a key that regions may not have.
fn region_has_unknown_key(region: &Value) -> bool
    ensures { result ≡ region_has_unknown_key (view region.now) }
{
    match region.as_table() {
        Some(table) => has_unknown_region_key(table),
        None => false,
    }
}

// Whether each value of a job has the type that its key requires.
fn has_job_key_types(table: &Table) -> bool
    ensures { result ≡ has_key_types job_keys (table_view table.now) }
{
    has_key_types(table, &JOB_KEYS)
}

// Whether each of these keys is missing from a table, or its value has the required type.
fn has_key_types(table: &Table, keys: &[(&str, ValueType)]) -> bool
    ensures { result ≡ list_all
        (λ key. is_absent_or (is_value_of_type key.1) key.0.now (table_view table.now)) keys.now }
{
    keys.iter()
        .all(|key| is_absent_or_of_type(table, key.0, key.1))
}

// Whether the key is missing, or its value has this type.
fn is_absent_or_of_type(table: &Table, key: &str, kind: ValueType) -> bool
    ensures { result ≡ is_absent_or (is_value_of_type kind) key.now (table_view table.now) }
{
    match value_at_key(table, key) {
        Some(value) => is_value_of_type(kind, value),
        None => true,
    }
}

// Whether a value has this type.
fn is_value_of_type(kind: ValueType, value: &Value) -> bool
    ensures { result ≡ is_value_of_type kind (view value.now) }
{
    match kind {
        ValueType::Text => value.is_str(),
        ValueType::Number => value.is_integer(),
        ValueType::Texts => is_text_array(value),
        ValueType::Regions => is_region_array(value),
    }
}

// Whether a value is an array of texts.
fn is_text_array(value: &Value) -> bool
    ensures { result ≡ is_text_array (view value.now) }
{
    match value.as_array() {
        Some(texts) => are_all_texts(texts.as_slice()),
        None => false,
    }
}

// Whether all values are texts.
fn are_all_texts(texts: &[Value]) -> bool
    ensures { result ≡ list_all (λ v. is_text (view v)) texts.now }
{
    texts.iter().all(|text| text.is_str())
}

// Whether a value is an array of tables whose values have the types that the keys of a region require.
fn is_region_array(value: &Value) -> bool
    ensures { result ≡ is_region_array (view value.now) }
{
    match value.as_array() {
        Some(regions) => are_all_regions(regions.as_slice()),
        None => false,
    }
}

// Whether all values are tables whose values have the types that the keys of a region require.
fn are_all_regions(regions: &[Value]) -> bool
    ensures { result ≡ list_all (λ v. is_region (view v)) regions.now }
{
    regions.iter().all(|region| is_region(region))
}

// Whether a value is a table whose values have the types that the keys of a region require.
fn is_region(value: &Value) -> bool
    ensures { result ≡ is_region (view value.now) }
{
    match value.as_table() {
        Some(table) => has_region_key_types(table),
        None => false,
    }
}

// Whether each value of a region has the type that its key requires.
fn has_region_key_types(table: &Table) -> bool
    ensures { result ≡ has_key_types region_keys (table_view table.now) }
{
    is_absent_or_number(table, "base")
        && is_absent_or_number(table, "size")
        && is_absent_or_boolean(table, "write")
}

// Whether the key is missing, or its value is an integer.
fn is_absent_or_number(table: &Table, key: &str) -> bool
    ensures { result ≡ is_absent_or is_number key.now (table_view table.now) }
{
    match value_at_key(table, key) {
        Some(value) => value.is_integer(),
        None => true,
    }
}

// Whether the key is missing, or its value is a Boolean.
fn is_absent_or_boolean(table: &Table, key: &str) -> bool
    ensures { result ≡ is_absent_or is_boolean key.now (table_view table.now) }
{
    match value_at_key(table, key) {
        Some(value) => value.is_bool(),
        None => true,
    }
}
