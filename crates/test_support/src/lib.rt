//! Rows of test data: calls with their inputs and expected results, one a line.
//!
//! A row is the name of a call, its inputs and the expected result, separated by tabs. A line that
//! is empty or begins with `#` isn't a row, and the last line is `# end`. `%` and two upper-case
//! hexadecimal digits are an octet, and all else is plain. Here wide spaces are tabs:
//!
//! ```text
//! # character strings that are read or refused
//! charstr.read     foo\112   foop
//! charstr.read     0\2       !unexpected end of input
//! charstr.quoted   f%0Aoo    "f\010oo"
//! # end
//! ```
//!
//! A program of rows defines the result of each call by a [`Calls`], which it passes to
//! [`check_input`]. Each result has only one spelling in an [`Answer`], so that it is compared with
//! the expected one as text. Each row is run again with each allocation failing in turn; its result
//! is then the expected one or an error for lack of memory.
#![tactic(auto)]

pub mod answer;
pub mod call;
pub mod heap;
pub mod input;
pub mod program;
mod refusal;
pub mod table;

pub use answer::{Answer, Failure, Heap};
pub use call::Calls;
pub use input::Inputs;
pub use program::check_input;
pub use table::{Tally, report};
