//! Stop reasons, and the bodies of their replies.

ghost use Rattle.std.specs.Prelude.{◌≡◌, ◌++◌, OnOk};
ghost use Rattle.rv_gdb_protocol.specs.Stops.{fault_text, stop_text, watch_text};
ghost use Rattle.rv_gdb_protocol.specs.declared.stop.Stop.TheVariants as stop;

use crate::request::WatchKind;
use rv_machine::FaultKind;
use std::alloc::AllocError;

/// Why the run stopped.
#[derive(Clone, Copy)]
pub enum Stop {
    /// A breakpoint, a step or the end of a range.
    Trap,
    /// The watchpoint at this address was triggered.
    Watch(WatchKind, u32),
    /// Ctrl-C.
    Interrupt,
    /// The start of the run, reached by moving backwards.
    RunStart,
    /// The exit call.
    Exit,
    /// The budget was used up.
    Budget,
    /// A fault.
    Fault(FaultKind),
}

/// Appends the body of the reply for this stop.
#[tactic(auto, unfolding(crate::specs::Stops::stop_text))]
pub fn push_stop(out: &mut Vec<u8>, stop: Stop) -> Result<(), AllocError>
    ensures { OnOk result (out.new.items ≡ out.old.items ++ stop_text stop) }
{
    match stop {
        Stop::Trap => out.extend_from_slice(b"T05"),
        Stop::Watch(kind, address) => push_watch(out, kind, address),
        Stop::Interrupt => out.extend_from_slice(b"T02"),
        Stop::RunStart => out.extend_from_slice(b"T05replaylog:begin;"),
        Stop::Exit => out.extend_from_slice(b"T05replaylog:end;"),
        Stop::Budget => out.extend_from_slice(b"T18"),
        Stop::Fault(kind) => out.extend_from_slice(fault_text(kind).as_bytes()),
    }
}

// Appends the body of the stop reply for a watchpoint of this kind that an access at this address triggered.
#[tactic(auto, unfolding(crate::specs::Stops::stop_text))]
fn push_watch(out: &mut Vec<u8>, kind: WatchKind, address: u32) -> Result<(), AllocError>
    ensures { OnOk result (out.new.items ≡ out.old.items ++ stop_text (stop.Watch kind address)) }
{
    let mut digits = [0u8; 8];
    hex::encode_to_slice(address.to_be_bytes().as_slice(), &mut digits).unwrap();
    out.extend_from_slice(watch_text(kind).as_bytes())?;
    out.extend_from_slice(&digits)?;
    out.push(b';')?;
    Ok(())
}

// Returns the beginning of the stop reply for a watchpoint of this kind, up to the address.
fn watch_text(kind: WatchKind) -> &'static str
    ensures { result.now ≡ watch_text kind }
{
    match kind {
        WatchKind::Writes => "T05watch:",
        WatchKind::Reads => "T05rwatch:",
        WatchKind::Accesses => "T05awatch:",
    }
}

// Returns the body of the stop reply for a fault of this kind.
fn fault_text(kind: FaultKind) -> &'static str
    ensures { result.now ≡ fault_text kind }
{
    match kind {
        FaultKind::FetchAccess | FaultKind::LoadAccess | FaultKind::StoreAccess => "T0b",
        FaultKind::FetchMisaligned | FaultKind::LoadMisaligned | FaultKind::StoreMisaligned => {
            "T0a"
        }
        FaultKind::Illegal | FaultKind::StaleCode => "T04",
        FaultKind::Breakpoint => "T06",
        FaultKind::UnknownCall => "T0c",
        FaultKind::ConsoleFull => "T19",
    }
}
