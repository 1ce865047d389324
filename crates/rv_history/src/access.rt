//! The bytes that an instruction reads or writes.

ghost use Rattle.std.specs.Prelude.{◌≡◌, ◌+◌};
ghost use Rattle.rv_trace.specs.IsaWords.{IsWellFormed};
ghost use Rattle.rv_trace.specs.Effect.{address};
ghost use Rattle.rv_trace.specs.Machine.{state_of};
ghost use Rattle.rv_history.specs.Accesses.{access_at, access_by, is_hit, access_kind_of};

use crate::stops::Watch;
use rv_trace::{Instr, Machine, Op, accessed_address, code_at, instr_of};

/// How an instruction accesses memory.
#[derive(Clone, Copy)]
pub(crate) struct AccessKind {
    pub is_read: bool,
    /// The number of bytes.
    pub count: u32,
}

/// The bytes that an instruction reads, or those that it writes.
#[derive(Clone, Copy)]
pub(crate) struct Access {
    pub is_read: bool,
    pub address: u32,
    pub count: u32,
}

/// Returns the bytes that the instruction at a machine's pc reads or writes, or `None` if it does not access memory, or if there is no
/// instruction.
pub(crate) fn access_at(machine: &Machine) -> Option<Access>
    ensures { result ≡ access_at (state_of machine.now) }
{
    let code = code_at(machine.bus(), machine.pc())?;
    let instr = instr_of(code)?;
    access_by(machine, instr)
}

// Returns the bytes that an instruction, executed in the machine's state, reads or writes, or `None` if it does not access memory.
fn access_by(machine: &Machine, instr: Instr) -> Option<Access>
    requires { IsWellFormed instr }
    ensures { result ≡ access_by (state_of machine.now) instr }
{
    let kind = access_kind_of(instr.op)?;
    Some(Access {
        is_read: kind.is_read,
        address: accessed_address(machine, instr),
        count: kind.count,
    })
}

// Returns whether an instruction reads or writes, and how many bytes, or `None` if it does not access memory.
fn access_kind_of(op: Op) -> Option<AccessKind>
    ensures { result ≡ access_kind_of op }
{
    let (is_read, count) = match op {
        Op::Lb | Op::Lbu => (true, 1),
        Op::Lh | Op::Lhu => (true, 2),
        Op::Lw => (true, 4),
        Op::Sb => (false, 1),
        Op::Sh => (false, 2),
        Op::Sw => (false, 4),
        _ => return None,
    };
    Some(AccessKind { is_read, count })
}

impl Access {
    /// Whether the access overlaps the range of a watchpoint.
    pub(crate) fn is_hit(self, watch: &Watch) -> bool
        ensures { result ≡ is_hit self watch.now }
    {
        let (begin, end) = bounds(self.address, self.count);
        let (first, behind) = bounds(watch.address, watch.count);
        begin < behind && first < end
    }
}

// Returns the first address of a range, and the address after its last one.
fn bounds(address: u32, count: u32) -> (u64, u64)
    ensures { (result.0 ≡ address) × (result.1 ≡ address + count) }
{
    let begin = u64::from(address);
    (begin, begin + u64::from(count))
}
