//! Byte order.

ghost use Rattle.std.specs.Prelude.{◌≡◌};
ghost use Rattle.rv_count_tables.specs.Table.{is_before, min_text};

/// Whether `a` comes before `b` in lexicographic byte order.
pub(crate) fn is_before(a: &[u8], b: &[u8]) -> bool
    ensures { result ≡ is_before a.now b.now }
{
    for (at, other) in b.iter().enumerate() {
        if at == a.len() || a[at] < *other {
            return true;
        }
        if *other < a[at] {
            return false;
        }
    }
    false
}

/// Returns whichever of two texts comes first in byte order.
pub(crate) fn min_text<'a>(path: &'a str, other: &'a str) -> &'a str
    ensures { result.now ≡ min_text path.now other.now }
{
    if is_before(other.as_bytes(), path.as_bytes()) {
        other
    } else {
        path
    }
}
