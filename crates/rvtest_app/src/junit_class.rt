//! The suite and the class of a list's jobs in JUnit XML.

ghost use Rattle.std.specs.Prelude.{◌≡◌};
ghost use Rattle.rv_command.specs.Texts.{optional_text};
ghost use Rattle.rvtest_app.specs.JunitTexts.{junit_class, suite_name};

use std::path::Path;

/// Returns the name of the JUnit suite: the requested name, or else the last component of the path without its extension.
pub(crate) fn suite_name<'a>(requested: Option<&'a str>, path: &'a str) -> &'a str
    ensures { result.now ≡ suite_name (optional_text requested.entry) path.entry.now }
{
    match requested {
        Some(name) => name,
        None => junit_class(path),
    }
}

/// Returns the class of a list's jobs in JUnit XML: the last component of the list's path, without its extension.
pub(crate) fn junit_class(path: &str) -> &str
    ensures { result.now ≡ junit_class path.now }
{
    match Path::new(path).file_stem() {
        Some(stem) => stem,
        None => path,
    }
}
