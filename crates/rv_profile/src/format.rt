//! The options of a profile report.

/// How a profile report shows the functions of images.
#[derive(Clone, Copy, Debug, PartialEq, Eq)]
pub struct ProfileFormat {
    /// Whether to write CSV rows for tools instead of a table for people.
    pub csv: bool,
    /// How many functions of each image to show, or `None` for all.
    pub top: Option<u32>,
}
