//! A session's replies to requests.

ghost use Rattle.std.specs.Prelude.{◌≡◌, IfOk, Some, false, true};
ghost use Rattle.rv_gdb_protocol.specs.Replies.{part_text};
ghost use Rattle.rv_gdb_protocol.specs.Stops.{stop_text};
ghost use Rattle.rv_gdb_protocol.specs.declared.stop.Stop.TheVariants as stop;
ghost use Rattle.rv_session.specs.SessionReplies.{IsReply, IsStoppointSet, common_reply, read_only_reply};
ghost use Rattle.rv_session.specs.Replies.{ok_reply, with_body, empty_reply};
ghost use Rattle.rv_session.specs.Sessions.{at_step};
ghost use Rattle.rv_session.specs.Stoppoints.{without_stoppoint};

use crate::reply::Reply;
use crate::session::Session;
use crate::stoppoints::{with_stoppoint, without_stoppoint};
use rv_gdb_protocol::{
    Move, Part, Request, Stop, Stoppoint, TARGET, fixed_reply, push_part, push_stop,
};
use std::alloc::{AllocError, Global};

impl Session {
    /// Returns the reply to a request. A requested move is only recorded; its reply follows when [`Session::work`] makes it.
    pub(crate) fn reply_to(&mut self, alloc: Global, request: &Request) -> Result<Reply, AllocError>
        ensures { IfOk result (λ reply. IsReply self.old request.now reply self.new) }
    {
        match request {
            Request::WriteRegister(register, value) => {
                self.write_register(alloc, *register, *value)
            }
            Request::Set(stoppoint) => self.set_stoppoint(alloc, *stoppoint),
            Request::Clear(stoppoint) => self.clear_stoppoint(alloc, *stoppoint),
            Request::Move(requested) => Ok(self.record_move(alloc, *requested)),
            Request::Command(text) => self.run_command(alloc, text.as_slice()),
            Request::Restart => self.restart(alloc),
            Request::NoAcknowledgements => self.end_acknowledgements(alloc),
            Request::Detach => self.detach(alloc),
            Request::Kill => Ok(self.kill(alloc)),
            _ => self.read_only_reply(alloc, request),
        }
    }

    // Returns the reply to a request that does not change the session.
    fn read_only_reply(&self, alloc: Global, request: &Request) -> Result<Reply, AllocError>
        ensures { IfOk result (λ reply. reply ≡ read_only_reply self.now request.now) }
    {
        match request {
            Request::LastStop => self.last_stop_reply(alloc),
            Request::Registers => self.registers(alloc),
            Request::Register(register) => self.register(alloc, *register),
            Request::ReadMemory(range) => self.memory(alloc, *range),
            Request::WriteRegisters(bytes) => self.write_registers(alloc, bytes.as_slice()),
            Request::WriteMemory(address, bytes) => {
                self.write_memory(alloc, *address, bytes.as_slice())
            }
            Request::Description(part) => part_reply(alloc, TARGET.as_bytes(), *part),
            Request::ImagePath(part) => part_reply(alloc, self.program.path.as_slice(), *part),
            Request::OpenFile(path) => self.open_file(alloc, path.as_slice()),
            Request::FileSize => self.file_size(alloc),
            Request::ReadFile(part) => self.read_file(alloc, *part),
            _ => common_reply(alloc, request),
        }
    }

    // Handles `?`: returns the reply with the stop that was reported last.
    fn last_stop_reply(&self, alloc: Global) -> Result<Reply, AllocError>
        ensures { IfOk result (λ reply. reply ≡ with_body (stop_text self.now.last_stop)) }
    {
        let mut body = Vec::new(alloc);
        push_stop(&mut body, self.last_stop)?;
        Ok(Reply::with_body(alloc, body))
    }

    // Handles `Z`: sets a breakpoint or watchpoint, and returns `OK` or a refusal.
    fn set_stoppoint(&mut self, alloc: Global, stoppoint: Stoppoint) -> Result<Reply, AllocError>
        ensures { IfOk result (λ reply. IsStoppointSet self.old stoppoint reply self.new) }
    {
        match with_stoppoint(alloc, &self.stops, self.history.machine().bus(), stoppoint)? {
            Ok(stops) => {
                let reply = Reply::ok_reply(alloc)?;
                self.stops = stops;
                Ok(reply)
            }
            Err(refusal) => Reply::error_reply(alloc, refusal),
        }
    }

    // Handles `z`: clears a breakpoint or watchpoint, if it is set, and returns `OK`.
    fn clear_stoppoint(&mut self, alloc: Global, stoppoint: Stoppoint) -> Result<Reply, AllocError>
        ensures { IfOk result (λ reply. (reply ≡ ok_reply)
            × (self.new ≡ record self.old { stops = without_stoppoint self.old.stops stoppoint })) }
    {
        let reply = Reply::ok_reply(alloc)?;
        self.stops = without_stoppoint(alloc, &self.stops, stoppoint)?;
        Ok(reply)
    }

    // Handles `vRun`: moves to the start of the run, and returns the reply with a stop there.
    fn restart(&mut self, alloc: Global) -> Result<Reply, AllocError>
        ensures { IfOk result (λ reply. (reply ≡ with_body (stop_text stop.Trap))
            × (self.new ≡ record (at_step self.old 0) { last_stop = stop.Trap })) }
    {
        self.go_to_start(alloc)?;
        self.last_stop = Stop::Trap;
        self.last_stop_reply(alloc)
    }

    // Handles `QStartNoAckMode`: returns `OK`. Later packets are not acknowledged.
    fn end_acknowledgements(&mut self, alloc: Global) -> Result<Reply, AllocError>
        ensures { IfOk result (λ reply. (reply ≡ ok_reply) × (self.new ≡ record self.old { acknowledges = false })) }
    {
        let reply = Reply::ok_reply(alloc)?;
        self.acknowledges = false;
        Ok(reply)
    }

    // Handles `D`: ends the session, and returns `OK`.
    fn detach(&mut self, alloc: Global) -> Result<Reply, AllocError>
        ensures { IfOk result (λ reply. (reply ≡ ok_reply) × (self.new ≡ record self.old { is_over = true })) }
    {
        let reply = Reply::ok_reply(alloc)?;
        self.is_over = true;
        Ok(reply)
    }

    // Handles `vCont;`, `c`, `s`, `bc` and `bs`: records the move, which must be made before the next byte is received, and returns an
    // empty reply.
    fn record_move(&mut self, alloc: Global, requested: Move) -> Reply
        ensures reply { result ≡ empty_reply }
        ensures next { self.new ≡ record self.old { requested = Some requested } }
    {
        self.requested = Some(requested);
        Reply::empty_reply(alloc)
    }

    // Handles `k`: ends the session, and returns an empty reply.
    fn kill(&mut self, alloc: Global) -> Reply
        ensures reply { result ≡ empty_reply }
        ensures next { self.new ≡ record self.old { is_over = true } }
    {
        self.is_over = true;
        Reply::empty_reply(alloc)
    }
}

// Returns the reply to a request if it is the same in every session, and a reply with an empty body to any other request.
fn common_reply(alloc: Global, request: &Request) -> Result<Reply, AllocError>
    ensures { IfOk result (λ reply. reply ≡ common_reply request.now) }
{
    Reply::with_text(alloc, fixed_reply(request).unwrap_or(""))
}

// Returns the reply with a part of a text.
fn part_reply(alloc: Global, text: &[u8], part: Part) -> Result<Reply, AllocError>
    ensures { IfOk result (λ reply. reply ≡ with_body (part_text text.now part)) }
{
    let mut body = Vec::new(alloc);
    push_part(&mut body, text, part)?;
    Ok(Reply::with_body(alloc, body))
}
