//! The service parameters of SVCB and HTTPS records (RFC 9460 sections 2.1, 7 and 8, RFC 9461
//! section 5): parses the tokens of an entry to wire format, and prints wire format.
#![tactic(auto)]

mod items;
pub mod keys;
pub mod laws;
pub mod list_laws;
pub mod params;
pub mod parsing;
pub mod shown;
mod strings;
mod template;
pub mod texts;
pub mod value_checks;
mod values;

pub use params::{Param, Params, settle_last};
pub use parsing::parse_params;
pub use shown::{KeyText, ParamText};
pub use texts::{append_list, append_list_text};
pub use value_checks::{check_params, wrong_value};
