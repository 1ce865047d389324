//! Tests of draws, of cached outcomes, of fleets and of streams (`rv_fleet`, `rv_rows` and `rv_stream`), and of what no program shows of
//! plans and lists: which paths are read, in which order and how often, and where jobs begin in a text that is not TOML. Everything else in
//! `rv_elf`, `rv_lists` and `rv_jobs` is tested by `checks/tables` on the built programs. The tests have a crate of their own, so that no
//! code is proved twice.
#![tactic(auto)]

#[cfg(test)]
mod lines;
#[cfg(test)]
mod plans;
#[cfg(test)]
mod tests;
