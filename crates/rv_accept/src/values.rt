//! The values in a list that accepting a run replaces.

ghost use Rattle.std.specs.Prelude.{◌≡◌, ◌++◌, OnOk};
ghost use Rattle.rv_accept.specs.Values.{has_expected_text, is_value_changed, new_value_text, value_key_name};

use crate::basic_string::push_basic_string;
use rv_rows::{
    ExpectedConsole, Job, Row, RowEnd, has_expected_end, has_expected_exit, push_number,
};
use std::alloc::{AllocError, Global};

/// A key of a job whose value accepting a run can replace.
#[derive(Clone, Copy, Debug, PartialEq, Eq)]
pub enum ValueKey {
    Exit,
    End,
    Console,
}

impl ValueKey {
    /// The keys, in the order in which they are reported.
    pub const ALL: [ValueKey; 3] = [ValueKey::Exit, ValueKey::End, ValueKey::Console];

    /// Returns the name of the key in a list.
    pub fn name(self) -> &'static str
        ensures { result.now ≡ value_key_name self }
    {
        match self {
            ValueKey::Exit => "expect_exit",
            ValueKey::End => "expect_end",
            ValueKey::Console => "expect_console",
        }
    }
}

/// Whether accepting this row changes the value of this key.
pub fn is_value_changed(key: ValueKey, job: &Job, row: &Row) -> bool
    ensures { result ≡ is_value_changed key job.now row.now }
{
    match key {
        ValueKey::Exit => !has_expected_exit(job.expect_exit, row.ending),
        ValueKey::End => !has_expected_end(job.expect_end, row.ending),
        ValueKey::Console => !has_expected_text(&job.expect_console, row.console.as_slice()),
    }
}

// Whether the console output equals the expected text in the list; true if there is none.
fn has_expected_text(expected: &Option<ExpectedConsole>, console: &[u8]) -> bool
    ensures { result ≡ has_expected_text expected.now console.now }
{
    match expected {
        Some(ExpectedConsole::Text(text)) => text.as_slice() == console,
        Some(ExpectedConsole::File(_)) | None => true,
    }
}

/// Appends the new value of this key in TOML. Appends nothing if the run has no value for it.
#[tactic(auto, unfolding(crate::specs::Values::new_value_text))]
pub fn push_new_value(
    alloc: Global,
    out: &mut Vec<u8>,
    key: ValueKey,
    row: &Row,
) -> Result<(), AllocError>
    ensures { OnOk result (out.new.items ≡ out.old.items ++ new_value_text key row.now.ending row.now.console) }
{
    match (key, row.ending) {
        (ValueKey::Exit, RowEnd::Exit(code)) => push_number(out, code as u64),
        (ValueKey::End, RowEnd::Fault(kind, ..)) => push_basic_string(
            alloc,
            out,
            kind.name().as_bytes(),
        ),
        (ValueKey::Console, _) => push_basic_string(alloc, out, row.console.as_slice()),
        _ => Ok(()),
    }
}
