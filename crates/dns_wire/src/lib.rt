//! Labels and domain names in wire format (RFC 1035 sections 2.3.4 and 3.1).
//!
//! A [`Label`] has 0 to 63 octets; the label of length 0 is the root. A name is a list of labels,
//! and its octets are each label's length octet and octets, one after another. A [`Name`] ends in
//! the root and has at most 255 octets. A [`RelativeName`] has no root and at most 254 octets. Both
//! are made from octets, or by a [`NameBuilder`] octet by octet.
//!
//! [`ToLabelIter`] is what all kinds of names have in common: the number of labels, the label at an
//! index, and the octets. [`ToName`] adds that the last label is the root, [`ToRelativeName`] that
//! no label is the root. [`FlattenInto`] copies the labels into a name over octets of another type.
//!
//! Names are equal, and have equal hashes, if their labels are the same without regard to the case
//! of ASCII letters (RFC 4343).
//!
//! This crate re-exports the items of `dns_octets`.
#![tactic(auto)]

mod compare;
pub mod display;
pub mod error;
pub mod flatten;
pub mod label;
pub mod laws;
pub mod name;
pub mod name_builder;
pub mod name_iter;
pub mod relative;
pub mod split;
pub mod to_label_iter;
pub mod zone_label;

pub use display::{DisplayWithDot, DisplayWithoutDot, Form, ZoneName, labels_in};
pub use dns_octets::{
    AsOctets, AsOctetsMut, CanonicalOrd, Compose, EmptyBuilder, FreezeBuilder, FromBuilder,
    IntoBuilder, OctetsBuilder, OctetsFrom, ParseError, Parser, ShortBuf, Str, Truncate, Ttl,
};
pub use error::{LabelTypeError, LongLabelError, NameError, PushError, SplitLabelError};
pub use flatten::FlattenInto;
pub use label::{Label, MAX_LABEL};
pub use name::{MAX_NAME, Name};
pub use name_builder::NameBuilder;
pub use name_iter::NameIter;
pub use relative::{MAX_RELATIVE, RelativeName};
pub use to_label_iter::{ToLabelIter, ToName, ToRelativeName};
pub use zone_label::write_zone_label;
