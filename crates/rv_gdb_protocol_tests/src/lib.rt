//! Tests of `rv_gdb_protocol` with packets that gdb and LLDB sent, and with invalid input.
#![tactic(auto)]

#[cfg(test)]
mod frames;
#[cfg(test)]
mod requests;
