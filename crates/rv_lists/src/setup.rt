//! The initial state of a job: its script, its regions, and the load addresses of its segments.

ghost use Rattle.std.specs.Prelude.{◌≡◌, ◌≤◌, ◌==◌, IfOk, length};
ghost use Rattle.hex.specs.Hex.{decode_of};
ghost use Rattle.toml.specs.View.{table_view};
ghost use Rattle.rv_lists.specs.declared.error.What.TheVariants.{OutOfMemory};
ghost use Rattle.rv_base.specs.Limits.{max_script_len};
ghost use Rattle.rv_lists.specs.JobList.{script_from_bytes, script_from_decoded, script_from_table, load_from_text, load_from_table};
ghost use Rattle.rv_lists.specs.JobSteps.{setup_from_table};
ghost use Rattle.rv_lists.specs.Parsing.{MatchesUnlessOutOfMemory};

use crate::error::What;
use crate::keys::text_at_key;
use crate::regions::map_from_table;
use hex::FromHexError;
use rv_base::Bytes;
use rv_base::limits::MAX_SCRIPT_LEN;
use rv_elf::LoadAt;
use rv_machine::Map;
use std::alloc::Global;
use toml::Table;

/// The initial state of a job: its script, its regions, and whether its segments are loaded at their physical or virtual addresses.
#[derive(Drop)]
pub(crate) struct Setup {
    pub(crate) script: Bytes,
    pub(crate) regions: Map,
    pub(crate) load: LoadAt,
}

/// Returns the script and the regions of a job, and whether its segments are loaded at their physical or virtual addresses; or the first
/// error.
#[tactic(auto, unfolding(crate::specs::JobSteps::setup_from_table))]
pub(crate) fn setup_from_table(alloc: Global, table: &Table) -> Result<Setup, What>
    ensures value { MatchesUnlessOutOfMemory result (setup_from_table (table_view table.now)) }
    ensures at_most_max { IfOk result (λ setup. length setup.script ≤ max_script_len) }
{
    let script = script_from_table(alloc, table)?;
    let regions = map_from_table(alloc, table)?;
    let load = load_from_table(table)?;
    Ok(Setup {
        script,
        regions,
        load,
    })
}

// Returns the script of a job from `input` or `input_hex`, or an error if both are set or the script is invalid. It is empty if neither is
// set.
#[tactic(auto, unfolding(crate::specs::JobList::script_from_table))]
fn script_from_table(alloc: Global, table: &Table) -> Result<Bytes, What>
    ensures value { MatchesUnlessOutOfMemory result (script_from_table (table_view table.now)) }
    ensures at_most_max { IfOk result (λ s. length s ≤ max_script_len) }
{
    match (text_at_key(table, "input"), text_at_key(table, "input_hex")) {
        (None, None) => Ok(Bytes::new(Vec::new(alloc))),
        (Some(text), None) => script_from_bytes(alloc, text.as_bytes()),
        (None, Some(digits)) => script_from_hex(alloc, digits),
        (Some(_), Some(_)) => Err(What::Input),
    }
}

// Returns the script that consists of these bytes, or an error if it is too long.
fn script_from_bytes(alloc: Global, bytes: &[u8]) -> Result<Bytes, What>
    ensures value { MatchesUnlessOutOfMemory result (script_from_bytes bytes.now) }
    ensures at_most_max { IfOk result (λ s. length s ≤ max_script_len) }
{
    if bytes.len() <= MAX_SCRIPT_LEN {
        Ok(Bytes::new(bytes.to_vec(alloc)?))
    } else {
        Err(What::Input)
    }
}

// Returns the script that hexadecimal digits encode, or an error if the digits are invalid or the script is too long.
fn script_from_hex(alloc: Global, digits: &str) -> Result<Bytes, What>
    ensures value { MatchesUnlessOutOfMemory result (script_from_decoded (decode_of digits.now)) }
    ensures at_most_max { IfOk result (λ s. length s ≤ max_script_len) }
{
    match hex::decode(alloc, digits) {
        Ok(bytes) => {
            if bytes.len() <= MAX_SCRIPT_LEN {
                Ok(Bytes::new(bytes))
            } else {
                Err(What::Input)
            }
        }
        Err(FromHexError::OutOfMemory) => Err(What::OutOfMemory),
        Err(_) => Err(What::Input),
    }
}

// Returns whether a job's segments are loaded at their physical or virtual addresses, or an error if `load` has another value. The default
// is physical.
#[tactic(auto, unfolding(crate::specs::JobList::load_from_table))]
fn load_from_table(table: &Table) -> Result<LoadAt, What>
    ensures { result ≡ load_from_table (table_view table.now) }
{
    match text_at_key(table, "load") {
        Some(text) => load_from_text(text),
        None => Ok(LoadAt::Physical),
    }
}

// Returns the load addresses that a value of `load` selects: `physical` or `virtual`. Any other text is an error.
fn load_from_text(text: &str) -> Result<LoadAt, What>
    ensures { result ≡ load_from_text text.now }
{
    if text == "physical" {
        Ok(LoadAt::Physical)
    } else if text == "virtual" {
        Ok(LoadAt::Virtual)
    } else {
        Err(What::Load)
    }
}
