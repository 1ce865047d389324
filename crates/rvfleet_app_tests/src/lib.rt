//! Tests of the program with stores, readers and sinks in memory, and with files. They have a crate of their own, so that no code of the
//! program is proved twice.
#![tactic(auto)]

#[cfg(test)]
mod argument_tests;
#[cfg(test)]
mod cases;
#[cfg(test)]
mod expectation_tests;
#[cfg(test)]
mod failing_tests;
#[cfg(test)]
mod file_tests;
#[cfg(test)]
mod forms;
#[cfg(test)]
mod hostile_tests;
#[cfg(test)]
mod image_tests;
#[cfg(test)]
mod known_tests;
#[cfg(test)]
mod limit_tests;
#[cfg(test)]
mod list_tests;
#[cfg(test)]
mod report_tests;
#[cfg(test)]
mod row_tests;
#[cfg(test)]
mod sample_store;
#[cfg(test)]
mod stream_tests;
#[cfg(test)]
mod testing;
#[cfg(test)]
mod verdict_tests;
