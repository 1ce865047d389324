//! Tests of `rv_session`: packets about the run of a small program, and the replies.
#![tactic(auto)]

#[cfg(test)]
mod answers;
