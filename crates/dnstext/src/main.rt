//! The program `dnstext`: it runs `dnstext_lib::program::run` over its arguments, or prints its version.
#![tactic(auto)]

mod streams;

use std::io::{BufWriter, ErrorKind};
use std::process::ExitCode;
use std::{env, io};

/// Runs the program on its arguments, and returns the exit status. Fails only if an allocation
/// fails.
fn run_arguments(rt: &HostRuntime) -> io::Result<u8> {
    let alloc = rt.alloc();
    let all = match env::args(rt) {
        Ok(all) => all,
        Err(error) if error.kind() == ErrorKind::OutOfMemory => return Err(error),
        Err(_) => return Ok(streams::refuse_usage(&mut rt.stderr())),
    };
    let mut arguments: Vec<String> = Vec::new(alloc);
    for argument in all.skip(1) {
        arguments.push(argument)?;
    }
    let mut words: Vec<&str> = Vec::new(alloc);
    for argument in &arguments {
        words.push(argument.as_str())?;
    }
    let mut out = BufWriter::new(alloc, rt.stdout())?;
    if words.len() == 1 && words[0] == "--version" {
        return Ok(streams::print_version(&mut out, &mut rt.stderr()));
    }
    Ok(streams::run(alloc, &words, &mut out, &mut rt.stderr()))
}

fn main(rt: HostRuntime) -> ExitCode {
    let status = match run_arguments(&rt) {
        Ok(status) => status,
        Err(_) => streams::refuse(&mut rt.stderr(), "short buffer"),
    };
    ExitCode::from(status)
}
