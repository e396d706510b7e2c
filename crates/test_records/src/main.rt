//! A test program over rows: fields of record data and their expected results.
//!
//! Standard input has the rows, in the format of `test_support`. For each row whose result differs, a
//! line with the actual result is printed.
#![tactic(auto)]

mod calls;

use self::calls::Records;
use std::process::ExitCode;
use test_support::check_input;

fn main(rt: HostRuntime) -> ExitCode {
    check_input(&rt, &Records)
}
