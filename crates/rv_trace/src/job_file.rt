//! The file of a job's image.

ghost use Rattle.std.specs.Prelude.{◌≡◌, ◌<◌, IfOk, IfSome, Ok, Some, length, option_map};
ghost use Rattle.rv_rows.specs.Image.{image_of};
ghost use Rattle.rv_rows.specs.declared_job.Job.{Job as AJob};
ghost use Rattle.rv_rows.specs.Rows.{image_if_read};
ghost use Rattle.rv_trace.specs.Trace.{image_bytes, job_at};

use rv_machine::Isa;
use rv_rows::{Image, ImageError, Kept, Plan, read_image};
use std::alloc::{AllocError, Global};

/// Returns the contents of the image file of the job at an index, or `None` if the file was unreadable or too long.
pub fn image_bytes(plan: &Plan, index: usize) -> Option<&[u8]>
    requires { index < length plan.now.jobs }
    ensures { (d : AJob) → option_map (λ bytes. bytes.now) result
        ≡ image_bytes plan.now.results (job_at plan.now index d) }
{
    match plan.image(index) {
        Kept::Content(bytes) => Some(bytes.as_slice()),
        Kept::Unreadable | Kept::TooLong => None,
    }
}

/// Parses bytes as an image for an instruction set. Returns `None` if they are not a valid image for it.
pub fn image_of_bytes(alloc: Global, isa: Isa, bytes: &[u8]) -> Result<Option<Image>, AllocError>
    ensures value { IfOk result (λ image. image ≡ image_if_read isa (Some bytes.now)) }
    ensures image { IfOk result (λ parsed. IfSome parsed (λ image. image_of isa bytes.now ≡ Ok image)) }
{
    match read_image(alloc, bytes, isa) {
        Ok(image) => Ok(Some(image)),
        Err(ImageError::OutOfMemory) => Err(AllocError),
        Err(_) => Ok(None),
    }
}
