//! Whether results are colored.

ghost use Rattle.std.specs.Prelude.{◌≡◌};
ghost use Rattle.rv_command.specs.Texts.{optional_text};
ghost use Rattle.rvtest_app.specs.Colors.{requested_colors, colors_unless_stdout_used, colors_of_value, terminal_colors};

use crate::into_report::uses_run_stdout;
use crate::outlets::is_stdout_at;
use rv_terminal::Colors;
use rvtest_cli::Request;

/// Returns whether the results of a command are colored, given whether standard output is a terminal that supports colors.
pub(crate) fn requested_colors(request: &Request<'_>, is_terminal: bool) -> Colors
    ensures { result ≡ requested_colors request.now is_terminal }
{
    match request {
        Request::Run(args) => colors_unless_stdout_used(
            uses_run_stdout(args),
            colors_of_value(args.color, is_terminal),
        ),
        Request::Explain(args) => colors_of_value(args.color, is_terminal),
        Request::Diff(args) => colors_of_value(args.color, is_terminal),
        Request::Show(args) => {
            colors_unless_stdout_used(
                is_stdout_at(args.junit),
                colors_of_value(args.color, is_terminal),
            )
        }
        Request::List(_)
        | Request::Console(_)
        | Request::Gdb(_)
        | Request::Check(_)
        | Request::Accept(_)
        | Request::Merge(_)
        | Request::Counts(_)
        | Request::Cover(_)
        | Request::Profile(_)
        | Request::Help(_) => Colors::Plain,
    }
}

// Returns `Colors::Plain` if an output file goes to standard output, and otherwise the given value.
fn colors_unless_stdout_used(uses_stdout: bool, colors: Colors) -> Colors
    ensures { result ≡ colors_unless_stdout_used uses_stdout colors }
{
    if uses_stdout { Colors::Plain } else { colors }
}

// Returns whether results are colored, as the value of `--color` says: always, never, or otherwise only on a terminal.
fn colors_of_value(value: Option<&str>, is_terminal: bool) -> Colors
    ensures { result ≡ colors_of_value (optional_text value.entry) is_terminal }
{
    match value {
        Some("always") => Colors::Colored,
        Some("never") => Colors::Plain,
        _ => terminal_colors(is_terminal),
    }
}

// Returns whether results are colored if `--color` does not say so: only on a terminal.
fn terminal_colors(is_terminal: bool) -> Colors
    ensures { result ≡ terminal_colors is_terminal }
{
    if is_terminal {
        Colors::Colored
    } else {
        Colors::Plain
    }
}
