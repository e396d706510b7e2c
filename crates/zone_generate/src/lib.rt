//! The entries of a `$GENERATE` directive, one by one.
#![tactic(auto)]

pub mod directive;
pub mod error;
pub mod format;
mod number;
mod numeral;
pub mod part;
pub mod range;
pub mod side;
pub mod tokens;

pub use directive::Generate;
pub use error::{GenerateError, GenerateErrorKind};
pub use format::{NumberBase, NumberFormat, read_format};
pub use part::{Part, ReadPart, append_part, offset_after, read_part};
pub use range::{GenerateRange, read_range};
pub use side::{Side, SideError};
pub use tokens::{DIRECTIVE_TOKENS, DirectiveTokens};
