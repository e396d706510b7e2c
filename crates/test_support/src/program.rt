//! A program over the rows of its standard input.
use crate::call::Calls;
use crate::table::report;
use std::io;
use std::io::Write;
use std::process::ExitCode;

/// Runs the rows of standard input, and reports their number on standard error. Returns whether
/// there are rows, all agree, and the input is whole.
fn run_input<C: Calls>(rt: &HostRuntime, calls: &C) -> io::Result<bool> {
    let text = io::read_to_string(rt.alloc(), rt.stdin())?;
    let mut out = String::new(rt.alloc());
    let tally = report(calls, rt.alloc(), text.as_str(), &mut out)?;
    rt.stdout().write_all(out.as_str().as_bytes())?;
    let counts = format!(in rt.alloc(); "{tally}\n")?;
    rt.stderr().write_all(counts.as_str().as_bytes())?;
    Ok(tally.passes())
}

/// Runs the rows of standard input, and prints the [`report`] on them. Standard error has the
/// number of rows, of those that agree, and of failed allocations. The exit status is 0 if there
/// are rows, each agrees and the input is whole, 1 if not, and 2 if the input can't be read or the
/// output not written.
pub fn check_input<C: Calls>(rt: &HostRuntime, calls: &C) -> ExitCode {
    match run_input(rt, calls) {
        Ok(true) => ExitCode::from(0),
        Ok(false) => ExitCode::from(1),
        Err(_) => ExitCode::from(2),
    }
}
