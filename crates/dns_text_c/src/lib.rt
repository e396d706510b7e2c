//! The C library: the functions that C calls, as a static library.
//!
//! `c/include/dnstext.h` declares them. Each calls the function of [`c_calls`] with its name without
//! `dnstext_`, and has the same contract. `dnstext_position` calls `line_and_column`, and
//! `dnstext_status_text` calls `status_print`.
#![tactic(auto)]

pub mod data;
pub mod status;
pub mod values;
pub mod zone_files;
