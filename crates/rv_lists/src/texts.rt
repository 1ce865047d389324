//! Which texts are valid paths in a list.

ghost use Rattle.std.specs.Prelude.{◌≡◌};
ghost use Rattle.rv_lists.specs.JobList.{is_valid_path};
ghost use Rattle.rv_base.specs.Names.{is_name, is_name_byte};
ghost use Rattle.rv_base.specs.Limits.{is_within};

use rv_base::limits::MAX_PATH_LEN;

/// Whether `n` is from `low` to `high`, both included.
pub(crate) fn is_in_bounds(low: usize, high: usize, n: usize) -> bool
    ensures { result ≡ is_within low high n }
{
    low <= n && n <= high
}

/// Whether a text may be a path of a list: it is 1 to 4,096 bytes long.
pub(crate) fn is_valid_path(text: &str) -> bool
    ensures { result ≡ is_valid_path text.now }
{
    is_in_bounds(1, MAX_PATH_LEN, text.len())
}
