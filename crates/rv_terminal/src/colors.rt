//! Whether results are colored.

/// Whether results are colored.
#[derive(Clone, Copy, Debug, PartialEq, Eq)]
pub enum Colors {
    Plain,
    Colored,
}
