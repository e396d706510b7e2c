//! Edits of a file: spans of octets are replaced, and all other octets are copied.
//!
//! - [`edit::append_edited`] appends a text with a list of edits applied.
//! - [`editor::Editor`] applies them to a text that arrives in chunks, and stores none of it.
//! - [`tokens::push_token_edits`] pushes the edits that replace several tokens by one, and keep the
//!   comments between them.
//! - [`lines::push_line_after`] appends the octets to insert for a line of its own, and
//!   [`insertion::push_entry_after`] pushes the edit that inserts it after an entry.
//! - [`zonemd::push_zonemd_edits`] pushes the edits that give ZONEMD records other RDATA, and
//!   [`serial::push_serial_edits`] those that replace the serial of each SOA.
//! - [`stale::signs_soa`] and [`stale::is_of_signed_zone`] return which records are stale then.
//! - [`place::soa_place`] and [`serial::check_soas`] return why the records of a zone can't be edited.
//! - [`laws`] has facts about edited texts: the octets outside the spans stay the same, and so do
//!   the entries and the other tokens if each token is replaced by a token.
#![tactic(auto)]

mod change;
pub mod edit;
pub mod editor;
pub mod insertion;
pub mod laws;
pub mod lines;
pub mod mark;
pub mod place;
pub mod serial;
pub mod stale;
pub mod tokens;
pub mod zonemd;

pub use edit::{Edit, EditError, append_edited};
pub use editor::Editor;
pub use insertion::push_entry_after;
pub use lines::push_line_after;
pub use place::{RecordPlace, soa_place};
pub use serial::{
    SerialSpelling, SerialToken, SoaEdit, SoaError, check_soas, push_serial_edits, serial_token,
};
pub use stale::{is_of_signed_zone, signs_soa};
pub use tokens::{TokenError, push_token_edits};
pub use zonemd::{ZonemdEdit, is_same_zonemd, push_zonemd_edits};
