//! The `monitor` commands.

ghost use Rattle.std.specs.Prelude.{◌≡◌, ◌++◌, IfOk, codes};
ghost use Rattle.std.specs.Fmt.{decimal};
ghost use Rattle.rv_session.specs.SessionReplies.{IsCommandHandled, command_text, is_reset, script_bytes_consumed};

use crate::reading::are_equal;
use crate::reply::Reply;
use crate::session::Session;
use std::alloc::{AllocError, Global};

/// The output of `monitor help`, and of every unknown command.
const HELP: &str =
    "when: how many steps were executed\nconsole: the output up to here\ninput: how much of the script was read\nreset, reset halt: go back to the start of the run\n";

impl Session {
    /// Handles `qRcmd,`: runs a `monitor` command, and returns its output followed by `OK`. A reset has no output.
    pub(crate) fn run_command(&mut self, alloc: Global, text: &[u8]) -> Result<Reply, AllocError>
        ensures { IfOk result (λ reply. IsCommandHandled self.old text.now reply self.new) }
    {
        if is_reset(text) {
            self.go_to_start(alloc)?;
            return Reply::ok_reply(alloc);
        }
        let printed = self.command_text(alloc, text)?;
        Reply::with_console(alloc, printed)
    }

    // Returns the output of a `monitor` command that is not a reset.
    fn command_text(&self, alloc: Global, text: &[u8]) -> Result<Vec<u8>, AllocError>
        ensures { IfOk result (λ printed. printed.items ≡ command_text self.now text.now) }
    {
        if are_equal(text, b"when") {
            self.steps_text(alloc)
        } else if are_equal(text, b"console") {
            Vec::from_slice(alloc, self.history.machine().bus().console())
        } else if are_equal(text, b"input") {
            self.input_text(alloc)
        } else {
            Vec::from_slice(alloc, HELP.as_bytes())
        }
    }

    // Returns the output of `monitor when`: the number of executed steps.
    fn steps_text(&self, alloc: Global) -> Result<Vec<u8>, AllocError>
        ensures { IfOk result (λ text. text.items ≡ decimal self.now.history.step ++ codes " steps executed\n") }
    {
        let text = format!(in alloc; "{} steps executed\n", self.history.current_step())?;
        Ok(text.into_bytes())
    }

    // Returns the output of `monitor input`: how many bytes of the input script the program has consumed.
    fn input_text(&self, alloc: Global) -> Result<Vec<u8>, AllocError>
        ensures { IfOk result (λ text. text.items
            ≡ decimal (script_bytes_consumed self.now) ++ codes " of " ++ decimal self.now.script ++ codes " bytes read\n") }
    {
        let taken = self.script_bytes_consumed();
        let text = format!(in alloc; "{taken} of {} bytes read\n", self.script)?;
        Ok(text.into_bytes())
    }
}

// Whether a `monitor` command moves to the start of the run: `reset` or `reset halt`.
fn is_reset(text: &[u8]) -> bool
    ensures { result ≡ is_reset text.now }
{
    are_equal(text, b"reset") || are_equal(text, b"reset halt")
}
