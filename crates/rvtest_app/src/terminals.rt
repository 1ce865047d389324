//! The standard streams that are terminals.

/// Which of the standard streams are terminals, and where the progress line is written.
#[derive(Drop)]
pub struct Terminals<P: Drop> {
    pub is_out_terminal: bool,
    pub is_errors_terminal: bool,
    /// Whether standard output is a terminal that supports colors.
    pub is_out_colored: bool,
    /// A second handle of standard error, on which the progress line is drawn.
    pub progress: P,
}
