//! Tests of what no program shows of a machine: which instructions it caches, single steps, and whether code is clean. Everything else in
//! `rv_isa`, `rv_memory` and `rv_machine` is tested by `checks/tables` on the built programs.
#![tactic(auto)]

#[cfg(test)]
mod cached_instructions;
