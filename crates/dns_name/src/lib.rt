//! Domain names that may be absolute or relative, and chains of names.
//!
//! An [`UncertainName`] is absolute or relative. It is made from octets in wire format (RFC 1035
//! section 3.1) or parsed from presentation format (section 5.1), in which it also prints.
//!
//! A [`Chain`] is a relative name followed by another name, without a copy of either: its labels
//! are the left name's and then the right one's. An [`UncertainChain`] begins with an uncertain
//! name; if that is absolute, nothing follows it. [`ChainIter`] and [`UncertainChainIter`] iterate
//! over the labels from both ends.
//!
//! [`UncertainName`]: name::UncertainName
//! [`Chain`]: chain::Chain
//! [`UncertainChain`]: chain::UncertainChain
//! [`ChainIter`]: chain::ChainIter
//! [`UncertainChainIter`]: chain::UncertainChainIter
#![tactic(auto)]

pub mod chain;
pub mod laws;
pub mod name;
