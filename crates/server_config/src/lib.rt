//! The zones of a name server's configuration: BIND's `named.conf` and NSD's `nsd.conf`.
//!
//! The crate reads texts that the caller has opened, and opens no file itself.
#![tactic(auto)]

pub mod clause;
pub mod error;
mod keyword;
mod lexeme;
pub mod nsd;
pub mod omitted;
pub mod path_pattern;
mod scan;
pub mod settings;
pub mod state;
mod statement;
pub mod step;
pub mod string;
pub mod token;
pub mod zone_list;
pub mod zone_name;
pub mod zone_path;

pub use clause::{Clause, ClauseEnd, next_clause};
pub use error::{ConfigError, ConfigErrorKind};
pub use nsd::{NsdEvent, NsdSection, NsdStep, is_nsd_config, next_nsd_step, nsd_zone_outcome};
pub use omitted::OmittedCounts;
pub use path_pattern::{fits_path_pattern, is_path_pattern};
pub use settings::{
    FileFormat, OmitReason, Settings, Severity, ZoneOutcome, ZoneSettings, ZoneType, zone_outcome,
};
pub use state::{BlockName, ConfigBlock, ConfigEvent, ConfigState, ConfigStep, LastClause};
pub use step::next_step;
pub use string::append_named_string;
pub use token::{ConfigToken, TokenKind, next_nsd_token, next_token};
pub use zone_list::{ListLine, list_line};
pub use zone_name::{
    TextSpan, is_doubtful_zone, is_name_form, is_side_file, zone_in_name, zone_in_path,
};
pub use zone_path::append_zone_path;
