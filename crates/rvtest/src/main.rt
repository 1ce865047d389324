//! The program `rvtest`: passes the arguments, files and streams of the process to the library, and exits with the status that it returns.
#![tactic(auto)]

use rvtest_app::{
    Destinations, Host, PipeSink, StreamSink, SystemInputs, SystemOutputs, Terminals,
    reject_unreadable_args, run_rvtest,
};
use std::env::{Env, VarError};
use std::io::IsTerminal;
use std::process::ExitCode;
use std::{env, io};

// Runs the program with the arguments, streams and files of the process.
fn main(rt: HostRuntime) -> ExitCode {
    let (out, mut errors) = (PipeSink::new(rt.stdout()), StreamSink::new(rt.stderr()));
    let texts = match process_args(&rt) {
        Ok(texts) => texts,
        Err(error) => return ExitCode::from(reject_unreadable_args(&error, &mut errors)),
    };
    let inputs = SystemInputs::new(&rt);
    let host = Host {
        rt: &rt,
        alloc: rt.alloc(),
        inputs: &inputs,
    };
    let files = SystemOutputs::new(&rt, rt.alloc());
    let terminals = Terminals {
        is_out_terminal: rt.stdout().is_terminal(),
        is_errors_terminal: rt.stderr().is_terminal() && !is_terminal_dumb(&rt),
        is_out_colored: rt.stdout().is_terminal()
            && !is_terminal_dumb(&rt)
            && !is_set(&rt, "NO_COLOR"),
        progress: rt.stderr(),
    };
    let to = Destinations { files, out, errors };
    let (_, status) = run_rvtest(&host, texts.as_slice(), to, terminals, &mut rt.stdin());
    ExitCode::from(status)
}

// Whether an environment variable is set and not empty.
fn is_set(rt: &(impl Env + AllocGlobal), name: &str) -> bool {
    match env::var(rt, name) {
        Ok(text) => !text.is_empty(),
        Err(error) => error != VarError::NotPresent,
    }
}

// Whether the terminal has no colors and no cursor movement (`TERM` is `dumb`).
fn is_terminal_dumb(rt: &(impl Env + AllocGlobal)) -> bool {
    match env::var(rt, "TERM") {
        Ok(text) => text.as_str() == "dumb",
        Err(_) => false,
    }
}

// Returns the arguments of the process.
fn process_args(rt: &(impl Env + AllocGlobal)) -> io::Result<Vec<String>> {
    let mut texts = Vec::new(rt.alloc());
    for text in env::args(rt)? {
        texts.push(text)?;
    }
    Ok(texts)
}
