//! Splits octets into labels, and classifies what follows the labels.

ghost use Rattle.dns_wire.specs.FromOctets.{HasRest};

use crate::error::SplitLabelError;
use crate::label::Label;

/// What follows the labels at the beginning of octets.
#[derive(Clone, Copy)]
pub enum Rest {
    /// Nothing.
    End,
    /// The root, without octets after it.
    Root,
    /// The root, with octets after it.
    RootAndMore,
    /// Octets that begin with no whole label, by the error.
    Refused(SplitLabelError),
}

/// Returns what follows the labels other than the root at the beginning of the octets.
pub fn rest_of(octets: &[u8]) -> Rest
    ensures { HasRest octets.now result }
{
    let mut rest = octets;
    while !rest.is_empty() {
        match Label::split_from(rest) {
            Ok((label, after)) => {
                if label.is_root() {
                    return if after.is_empty() {
                        Rest::Root
                    } else {
                        Rest::RootAndMore
                    };
                }
                rest = after;
            }
            Err(e) => return Rest::Refused(e),
        }
    }
    Rest::End
}
