//! The images of jobs, one for each file.

ghost use Rattle.std.specs.Prelude.{◌≡◌, ◌<◌, IfOk, IfSome, Ok, OnOk, Some, length, option_map};
ghost use Rattle.std.specs.List.{list_any};
ghost use Rattle.std.specs.Str.{bytes_eq};
ghost use Rattle.rv_counting.specs.JobTables.{jobs_at};
ghost use Rattle.rv_counting.specs.JobIndices.{AreJobIndices};
ghost use Rattle.rv_counting.specs.declared_job.Job.{Job as AJob};
ghost use Rattle.rv_counting.specs.Trace.{job_at};
ghost use Rattle.rv_cover_view.specs.JobImages.{AreSmall, image_of_file, image_of_job, images_of, images_of_files, with_image, with_image_of};

use crate::image_file::ImageFile;
use rv_counting::{Plan, image_bytes, image_of_bytes};
use std::alloc::{AllocError, Global};

/// Returns the images of the jobs at these indices, in order. Of images with equal bytes only the first is returned, with the path in its
/// job. Jobs whose file was not read or is not a valid image are left out.
pub fn images_of_jobs<'a>(
    alloc: Global,
    plan: &'a Plan,
    indices: &[usize],
) -> Result<Vec<ImageFile<'a>>, AllocError>
    requires within { AreJobIndices plan.now indices.now }
    requires small { AreSmall plan.now.results }
    ensures { IfOk result (λ files. images_of_files files.items
        ≡ images_of plan.now.results (jobs_at plan.now indices.now)) }
{
    let mut files = Vec::new(alloc);
    for index in indices {
        push_image_at(alloc, &mut files, plan, *index)?;
    }
    Ok(files)
}

// Appends the image of the job at an index, unless the job has no image or the list has one with equal bytes.
fn push_image_at<'a>(
    alloc: Global,
    files: &mut Vec<ImageFile<'a>>,
    plan: &'a Plan,
    index: usize,
) -> Result<(), AllocError>
    requires within { index < length plan.now.jobs }
    requires small { AreSmall plan.now.results }
    ensures { OnOk result ((d : AJob) → images_of_files files.new.items
        ≡ with_image_of plan.now.results (images_of_files files.old.items) (job_at plan.now index d)) }
{
    let found = image_at(alloc, plan, index)?;
    match found {
        Some(file) => push_image(files, file),
        None => Ok(()),
    }
}

// Appends an image, unless the list has one with equal bytes.
fn push_image<'a>(files: &mut Vec<ImageFile<'a>>, file: ImageFile<'a>) -> Result<(), AllocError>
    ensures { OnOk result (images_of_files files.new.items ≡ with_image (images_of_files files.old.items) (image_of_file file.entry)) }
{
    if has_bytes(files.as_slice(), file.bytes) {
        return Ok(());
    }
    files.push(file)?;
    Ok(())
}

// Whether one of the files has these bytes.
fn has_bytes(files: &[ImageFile<'_>], bytes: &[u8]) -> bool
    ensures { result ≡ list_any (λ file. bytes_eq bytes.now file.bytes.now) files.now }
{
    files.iter().any(|file| bytes == file.bytes)
}

// Returns the image of the job at an index, or `None` if its file was not read or is not a valid image.
fn image_at(alloc: Global, plan: &Plan, index: usize) -> Result<Option<ImageFile<'_>>, AllocError>
    requires within { index < length plan.now.jobs }
    requires small { AreSmall plan.now.results }
    ensures { IfOk result (λ file. (d : AJob) → option_map image_of_file file
        ≡ image_of_job plan.now.results (job_at plan.now index d)) }
{
    let Some(bytes) = image_bytes(plan, index) else {
        return Ok(None);
    };
    let job = plan.job(index);
    let Some(image) = image_of_bytes(alloc, job.isa, bytes)? else {
        return Ok(None);
    };
    Ok(Some(ImageFile {
        path: job.image.as_str(),
        bytes,
        image,
        isa: job.isa,
    }))
}
