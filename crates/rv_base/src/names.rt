//! The names of jobs and of runs.

ghost use Rattle.std.specs.Prelude.{◌≡◌};
ghost use Rattle.std.specs.List.{list_all};
ghost use Rattle.rv_base.specs.Names.{is_name, is_name_byte};

use crate::limits::MAX_NAME_LEN;

/// Whether `text` is a valid name for a job or a run: 1 to 64 ASCII letters, digits, `.`, `_` and `-`.
#[tactic(auto, unfolding(crate::specs::Names::is_name))]
pub fn is_name(text: &[u8]) -> bool
    ensures { result ≡ is_name text.now }
{
    1 <= text.len() && text.len() <= MAX_NAME_LEN && has_name_bytes(text)
}

// Whether each byte may be in a name.
fn has_name_bytes(text: &[u8]) -> bool
    ensures { result ≡ list_all is_name_byte text.now }
{
    text.iter().all(|byte| is_name_byte(*byte))
}

// Whether a byte may be in a name: an ASCII letter or digit, or one of `.`, `_` and `-`.
#[tactic(auto, unfolding(crate::specs::Names::is_name_byte))]
fn is_name_byte(byte: u8) -> bool
    ensures { result ≡ is_name_byte byte }
{
    byte.is_ascii_alphanumeric() || byte == b'.' || byte == b'_' || byte == b'-'
}
