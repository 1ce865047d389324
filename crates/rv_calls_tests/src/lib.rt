//! Tests of `rv_calls`: small programs whose call frames were determined by hand.
#![tactic(auto)]

#[cfg(test)]
mod runs;
