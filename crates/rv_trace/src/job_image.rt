//! The image of a plan's job.

ghost use Rattle.std.specs.Prelude.{◌≡◌, ◌<◌, Some, length, slice_index_or};
ghost use Rattle.rv_rows.specs.declared_job.Job.{Job as AJob};
ghost use Rattle.rv_rows.specs.Rows.{image_in};

use rv_rows::{Image, Plan};

/// A job of a plan, with the image that was parsed from its file.
#[derive(Clone, Copy)]
pub struct JobImage<'a> {
    pub plan: &'a Plan,
    /// The job's index, counted from 0.
    pub index: usize,
    pub image: &'a Image,
    pub ghost within: { index < length plan.now.jobs },
    pub ghost read: { (d : AJob) → image_in plan.now.results (slice_index_or plan.now.jobs index d)
        ≡ Some image.now },
}
