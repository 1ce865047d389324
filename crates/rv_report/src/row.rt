//! A row: the result of one job.

ghost use Rattle.std.specs.Prelude.{◌≡◌, option_map};
ghost use Rattle.std.specs.List.{find};
ghost use Rattle.std.specs.Str.{bytes_eq};
ghost use Rattle.rv_report.specs.Report.{refusal_name, refusal_named, verdict_name};

use rv_base::{Bytes, Sequence, Text};
use rv_elf::ImageError;
use rv_machine::FaultKind;

/// 32-bit words, seen by contracts as a list.
pub type Words = Sequence<u32>;

/// Why a job did not run.
#[derive(Clone, Copy, Debug, PartialEq, Eq)]
pub enum Refusal {
    /// The image's file could not be read.
    ImageUnreadable,
    /// A flat image is larger than its room in memory, or the image's file is larger than 16,777,216 bytes.
    ImageTooLong,
    /// The reference file could not be read.
    ReferenceUnreadable,
    /// The reference file is larger than 16,777,216 bytes.
    ReferenceTooLong,
    /// The file is not an image, the image does not fit the map, or the requested signature does not exist. No row has OutOfMemory here.
    Image(ImageError),
}

// All refusals that a row can have.
const REFUSALS: [Refusal; 27] = [
    Refusal::ImageUnreadable,
    Refusal::ImageTooLong,
    Refusal::ReferenceUnreadable,
    Refusal::ReferenceTooLong,
    Refusal::Image(ImageError::ShortHeader),
    Refusal::Image(ImageError::BadMagic),
    Refusal::Image(ImageError::Not32Bit),
    Refusal::Image(ImageError::NotLittleEndian),
    Refusal::Image(ImageError::BadVersion),
    Refusal::Image(ImageError::NotExecutable),
    Refusal::Image(ImageError::NotRiscv),
    Refusal::Image(ImageError::ProgramTable),
    Refusal::Image(ImageError::Dynamic),
    Refusal::Image(ImageError::SegmentSizes),
    Refusal::Image(ImageError::SegmentFile),
    Refusal::Image(ImageError::NoSegment),
    Refusal::Image(ImageError::EntryOdd),
    Refusal::Image(ImageError::EntryAlign),
    Refusal::Image(ImageError::SegmentMap),
    Refusal::Image(ImageError::SegmentOverlap),
    Refusal::Image(ImageError::SectionTable),
    Refusal::Image(ImageError::NoSymbols),
    Refusal::Image(ImageError::SymbolTable),
    Refusal::Image(ImageError::StringTable),
    Refusal::Image(ImageError::NoBegin),
    Refusal::Image(ImageError::NoEnd),
    Refusal::Image(ImageError::SignatureRange),
];

impl Refusal {
    /// Returns the refusal with this [`name`](Refusal::name), or `None` if there is none. The name need not be UTF-8.
    pub fn from_name(name: &[u8]) -> Option<Refusal>
        ensures { result ≡ refusal_named name.now }
    {
        match find_refusal(&REFUSALS, name) {
            Some(refusal) => Some(*refusal),
            None => None,
        }
    }

    /// Returns the name of the refusal in a report.
    pub fn name(self) -> &'static str
        ensures { result.now ≡ refusal_name self }
    {
        match self {
            Refusal::ImageUnreadable => "image-unreadable",
            Refusal::ImageTooLong => "image-too-long",
            Refusal::ReferenceUnreadable => "reference-unreadable",
            Refusal::ReferenceTooLong => "reference-too-long",
            Refusal::Image(error) => error.name(),
        }
    }
}

// Returns the first of these refusals with this name, or `None` if none has it.
fn find_refusal<'a>(refusals: &'a [Refusal], name: &[u8]) -> Option<&'a Refusal>
    ensures { option_map (λ refusal. refusal.now) result
        ≡ find (λ refusal. bytes_eq name.now (refusal_name refusal)) refusals.now }
{
    refusals
        .iter()
        .find(|refusal| name == refusal.name().as_bytes())
}

/// How a job ended.
#[derive(Clone, Copy, Debug, PartialEq, Eq)]
pub enum RowEnd {
    /// The exit call, with its code.
    Exit(u32),
    /// A fault, with the address of its instruction and the fault's value.
    Fault(FaultKind, u32, u32),
    /// The budget was used up.
    Budget,
    /// The job did not run.
    Refused(Refusal),
}

/// Whether a job meets its expectations.
#[derive(Clone, Copy, Debug, PartialEq, Eq)]
pub enum Verdict {
    /// The job has no expectations.
    Unasked,
    /// All expectations are met.
    Pass,
    /// Some expectation is not met.
    Fail,
}

impl Verdict {
    /// Returns the name of the verdict in a report.
    pub fn name(self) -> &'static str
        ensures { result.now ≡ verdict_name self }
    {
        match self {
            Verdict::Unasked => "none",
            Verdict::Pass => "pass",
            Verdict::Fail => "fail",
        }
    }
}

/// The result of one job. The row of a refused job has 0 steps, no console bytes and no signature.
#[derive(Debug, Drop)]
pub struct Row {
    pub name: Text,
    pub ending: RowEnd,
    /// The number of completed instructions. The one that ended the run is not counted.
    pub steps: u32,
    /// The console output of the run.
    pub console: Bytes,
    /// The words between the two symbols of the signature, if a signature is requested.
    pub signature: Option<Words>,
    pub verdict: Verdict,
}
