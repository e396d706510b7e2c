//! The grammars of texts for mail that TXT records hold.
#![tactic(auto)]

mod dkim;
mod dmarc;
mod macros;
pub mod parts;
mod spf;
mod spf_use;
mod strings;
mod tags;

pub use dkim::{has_any_bad_dkim, has_bad_dkim};
pub use dmarc::{begins_dmarc, has_bad_dmarc, has_version};
pub use spf::{are_spf_terms, has_bad_spf_term, is_spf_term, is_spf_text};
pub use spf_use::{has_repeated_modifier, has_unused_term};
pub use strings::{MOST, joined, joint_index};
