//! Serials of zones (RFC 1982): that of an SOA, which of two is greater, and the next one, by the date,
//! by the time, the one after it, or a number that is set. A next serial never goes back.
#![tactic(auto)]

pub mod arithmetic;
pub mod laws;
pub mod mode;
pub mod next;
pub mod serial;

pub use arithmetic::is_after;
pub use mode::{SerialMode, usual_mode};
pub use next::{NextSerial, SerialError, farthest_serial, next_serial};
pub use serial::serial_of;
