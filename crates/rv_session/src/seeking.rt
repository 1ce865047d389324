//! Seeks: gdb writes a value to one of the run's counts, and the session moves to the first step with this value.

ghost use Rattle.std.specs.Prelude.{◌≡◌, IfOk, OnOk};
ghost use Rattle.rv_session.specs.SessionReplies.{IsStepSeekHandled, IsSeekHandled};
ghost use Rattle.rv_session.specs.Sessions.{at_step};

use crate::reply::Reply;
use crate::session::Session;
use rv_gdb_protocol::Refusal;
use rv_history::Count;
use std::alloc::{AllocError, Global};

impl Session {
    /// Moves to the start of the run.
    pub(crate) fn go_to_start(&mut self, alloc: Global) -> Result<(), AllocError>
        ensures { OnOk result (self.new ≡ at_step self.old 0) }
    {
        let _is_granted = self.history.seek(alloc, 0)?;
        Ok(())
    }

    /// Handles `P21=`: moves to the step with this number, and returns `OK`. If the run does not reach it, returns a refusal and does not
    /// move.
    pub(crate) fn seek_step(&mut self, alloc: Global, step: u32) -> Result<Reply, AllocError>
        ensures { IfOk result (λ reply. IsStepSeekHandled self.old step reply self.new) }
    {
        let is_reached = self.history.seek(alloc, step)?;
        Reply::ok_if(alloc, is_reached, Refusal::NotReached)
    }

    /// Handles `P22=` and `P23=`: moves to the first step at which a count has this value, and returns `OK`. If there is no such step,
    /// returns a refusal and does not move.
    pub(crate) fn seek_count(
        &mut self,
        alloc: Global,
        count: Count,
        value: u32,
    ) -> Result<Reply, AllocError>
        ensures { IfOk result (λ reply. IsSeekHandled self.old count value reply self.new) }
    {
        let is_reached = self.history.seek_count(alloc, count, value)?;
        Reply::ok_if(alloc, is_reached, Refusal::NotReached)
    }
}
