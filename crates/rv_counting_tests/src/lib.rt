//! Tests of `rv_counting`: small programs whose counts were determined by hand, and lists of jobs.
#![tactic(auto)]

#[cfg(test)]
mod runs;
#[cfg(test)]
mod tables;
