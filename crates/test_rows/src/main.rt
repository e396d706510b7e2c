//! A program over rows: calls of the library with their inputs and expected results.
//!
//! Standard input has the rows, in the format of `test_support`. For each row that differs it prints a
//! line with the result, and at the end the number of rows.
#![tactic(auto)]

mod calls;

use self::calls::Library;
use std::process::ExitCode;
use test_support::check_input;

fn main(rt: HostRuntime) -> ExitCode {
    check_input(&rt, &Library)
}
