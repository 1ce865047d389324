//! Merging the parts of one run into the rows of the whole list.
//!
//! [`merge_parts`] takes the texts of parts, as `rv_report` reads them, in any order and with repeats, and returns the rows of the list
//! that they are the parts of, or which text is rejected and why ([`MergeError`]). Each shard has the jobs that [`shard_selection`]
//! selects.
//!
//! There are three laws, with no code to run: [`shards_give_the_parts_of_the_whole`], on rows of a list; [`rows_form_a_list`], on a
//! list that was read; and, combining both, [`shards_give_the_whole`], from the list's text to the report that its shards are merged into.
#![tactic(auto)]

mod error;
mod list_rows_law;
mod merge;
mod merge_state;
mod names;
mod part;
mod parts_law;
mod shards;
mod whole_list_law;

pub use error::{Flaw, MergeError};
pub use list_rows_law::rows_form_a_list;
pub use merge::merge_parts;
pub use parts_law::shards_give_the_parts_of_the_whole;
pub use shards::shard_selection;
pub use whole_list_law::shards_give_the_whole;
