//! Tests of `rv_history`: moves in runs of small programs.
#![tactic(auto)]

#[cfg(test)]
mod alarm;
#[cfg(test)]
mod interrupted_moves;
#[cfg(test)]
mod moves;
