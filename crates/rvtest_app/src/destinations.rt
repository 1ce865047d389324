//! Where the texts of a command go.

/// Where a command writes: the files, standard output and standard error.
#[derive(Drop)]
pub struct Destinations<F: Drop, O: Drop, E: Drop> {
    pub files: F,
    pub out: O,
    pub errors: E,
}
