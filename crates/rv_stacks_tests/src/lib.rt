//! Tests of `rv_stacks`: small programs whose call trees were determined by hand.
#![tactic(auto)]

#[cfg(test)]
mod runs;
