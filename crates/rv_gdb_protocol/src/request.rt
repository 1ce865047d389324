//! Requests from gdb.

use rv_base::Bytes;

/// The request that a packet makes.
#[derive(Debug, Drop)]
pub enum Request {
    /// `qSupported`: the features that the stub supports.
    Features,
    /// `QStartNoAckMode`: stop acknowledging packets after the reply.
    NoAcknowledgements,
    /// `?`: why the run last stopped.
    LastStop,
    /// `qXfer:features:read:target.xml:`: a part of the target description.
    Description(Part),
    /// `qXfer:exec-file:read:`: a part of the image's path.
    ImagePath(Part),
    /// `vFile:setfs:0`: the files of the stub's own system.
    FileSystem,
    /// `vFile:open:` for reading: the file with this path.
    OpenFile(Bytes),
    /// `vFile:fstat:5`: the size of the file.
    FileSize,
    /// `vFile:pread:5,`: a part of the file.
    ReadFile(Part),
    /// `vFile:close:5`: close the file.
    CloseFile,
    /// `g`: x0 to x31 and the pc.
    Registers,
    /// `p`: one register.
    Register(Register),
    /// `G`: write x0 to x31 and the pc, which are these bytes.
    WriteRegisters(Bytes),
    /// `P`: write a value to one register.
    WriteRegister(Register, u32),
    /// `m`: read memory.
    ReadMemory(Range),
    /// `M` and `X`: write these bytes to memory from this address on.
    WriteMemory(u32, Bytes),
    /// `Z`: set a breakpoint or watchpoint.
    Set(Stoppoint),
    /// `z`: clear a breakpoint or watchpoint.
    Clear(Stoppoint),
    /// `vCont?`: the moves that the stub supports.
    Actions,
    /// `vCont;`, `c`, `C`, `s`, `S`, `bc`, `bs`: move in the run.
    Move(Move),
    /// `qC`: the current thread.
    Thread,
    /// `qfThreadInfo`: the first threads.
    FirstThreads,
    /// `qsThreadInfo`: the further threads.
    MoreThreads,
    /// `qAttached`: whether the stub attached to a process that was running already.
    Attached,
    /// Packets that are accepted and have no effect: `H`, `T`, `!`, `vKill`.
    Accepted,
    /// `qRcmd,`: the text of a `monitor` command.
    Command(Bytes),
    /// `D`: detach.
    Detach,
    /// `k`: kill the program.
    Kill,
    /// `vRun`: restart from step 0.
    Restart,
    /// A request that is refused. The refusal determines the reply.
    Refused(Refusal),
}

/// A part of a text: the offset of its first byte, and its maximum length.
#[derive(Clone, Copy, Debug)]
pub struct Part {
    pub offset: u32,
    pub count: u32,
}

/// A range of memory, which can extend past the end of the address space.
#[derive(Clone, Copy, Debug)]
pub struct Range {
    pub address: u32,
    pub count: u32,
}

/// A register of the target description.
#[derive(Clone, Copy, Debug)]
pub enum Register {
    /// 0 to 31: x0 to x31; 32: the pc.
    Hart(u32),
    /// 33: the number of completed steps.
    Steps,
    /// 34: the number of console bytes that the program has printed.
    Printed,
    /// 35: the number of bytes consumed from the input script.
    Taken,
}

/// Which accesses trigger a watchpoint.
#[derive(Clone, Copy, Debug)]
pub enum WatchKind {
    /// Changes to the bytes.
    Writes,
    /// Reads of the bytes.
    Reads,
    /// Reads and writes of the bytes.
    Accesses,
}

/// A breakpoint or a watchpoint.
#[derive(Clone, Copy, Debug)]
pub enum Stoppoint {
    /// A breakpoint: stops before the instruction at this address.
    Break(u32),
    /// A watchpoint: stops at an access of this kind to one of these 1 to 65,536 bytes, which are all in the address space.
    Watch(WatchKind, Range),
}

/// A move of a session forwards or backwards in its run.
#[derive(Clone, Copy, Debug)]
pub enum Move {
    /// To the next stop.
    Continue,
    Step,
    /// Steps while the pc is at or above the first address and below the second.
    StepWithin(u32, u32),
    /// To the previous stop.
    ContinueBack,
    StepBack,
}

/// Why a request is refused, which determines the reply.
#[derive(Clone, Copy, Debug)]
pub enum Refusal {
    /// A packet that the stub does not know: the empty reply.
    Unknown,
    /// The arguments are not valid for the packet: `E01`.
    Failed,
    /// The part belongs to an unknown annex, not to `target.xml`: `E00`.
    OtherAnnex,
    /// A file other than the image, or a call on one that is not supported: `F-1,2`.
    OtherFile,
    /// Malformed arguments: `E.malformed`.
    Malformed,
    /// A request that would change the run: `E.the run is read-only: the debugger cannot change it`.
    WouldChange,
    /// A seek to a point that the run does not reach: `E.the run does not reach that point`.
    NotReached,
    /// There are as many breakpoints and watchpoints as can be stored: `E.too many breakpoints`.
    TooManyStoppoints,
    /// The packet is too long to be stored: `E.packet too long`.
    TooLong,
}
