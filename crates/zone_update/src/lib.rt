//! Plans a dynamic update (RFC 2136) that changes one zone into another: which records are deleted
//! and added, in which order, and in how many messages.
#![tactic(auto)]

pub mod laws;
pub mod messages;
pub mod operation;
pub mod operations;
pub mod order;
pub mod parts;
pub mod serial;
pub mod servers;

pub use messages::{UpdateError, messages_of};
pub use operation::{Operation, is_at};
pub use operations::{is_sent, push_operations};
pub use parts::wire_size;
pub use serial::allows_messages;
pub use servers::push_server_names;
