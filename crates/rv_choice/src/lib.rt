//! The jobs of a list that the arguments choose: by names, by a pattern, by the failures of a report, or as a shard of the list.
//!
//! [`Chooser::choose`] returns the chosen jobs, and [`requested_shard`] the requested shard.
#![tactic(auto)]

mod bad_value;
mod chooser;
mod failed_jobs;
mod selection;
mod shard;
mod unknown_name;

pub use chooser::{Choice, Chooser};
pub use shard::requested_shard;
pub use unknown_name::unknown_name_stop;
