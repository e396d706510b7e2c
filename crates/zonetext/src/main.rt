//! The program `zonetext`: it checks, formats, lists, lays out, reads, compares, digests and cuts zone files.
#![tactic(auto)]

mod baseline_file;
mod check;
mod codes;
mod command;
mod cut_args;
mod expand;
mod many_zones;
mod record_args;
mod run_order;
mod serial_args;
mod unread;

use std::process::ExitCode;
use std::{env, io};
use zonetext_files::stop;

/// Runs the program on its arguments, and returns the exit status.
fn run_arguments(rt: &HostRuntime) -> io::Result<u8> {
    let alloc = rt.alloc();
    let mut arguments: Vec<String> = Vec::new(alloc);
    for argument in env::args(rt)? {
        arguments.push(argument)?;
    }
    let mut words: Vec<&str> = Vec::new(alloc);
    for argument in &arguments {
        words.push(argument.as_str())?;
    }
    command::run(rt, alloc, words.as_slice())
}

fn main(rt: HostRuntime) -> ExitCode {
    match run_arguments(&rt) {
        Ok(status) => ExitCode::from(status),
        Err(error) => {
            let _ = eprintln!(&rt; "zonetext: {error}");
            ExitCode::from(stop::EXIT_IO)
        }
    }
}
