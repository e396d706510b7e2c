//! Labels (RFC 1035 section 2.3.1).
ghost use Rattle.std.specs.Prelude.{length, ◌≤◌};
ghost use Rattle.dns_wire.specs.Limits.{max_label};

use crate::error::{LabelTypeError, LongLabelError, SplitLabelError};

/// Maximum length of a label in octets, without its length octet (RFC 1035 section 2.3.4).
pub const MAX_LABEL: usize = 63;

/// A label of at most 63 octets. The label of length 0 is the root.
#[derive(Clone, Copy)]
pub struct Label<'a> {
    octets: &'a [u8],
    ghost short: { length octets.now ≤ max_label },
}

impl<'a> Label<'a> {
    ghost use Rattle.std.specs.Prelude.{◌≡◌, ◌↔◌, ◌+◌, ◌++◌, length, ◌≤◌, IsOk, IfOk, IsTrue, MatchResult, []};
    ghost use Rattle.dns_wire.specs.Wire.{wire_label};
    ghost use Rattle.dns_wire.specs.Label.{label_octets};
    ghost use Rattle.dns_wire.specs.Split.{RefusesLabel};

    /// Returns the label of the octets. Fails with [`LongLabelError`] if there are more than 63.
    pub fn from_slice(octets: &'a [u8]) -> Result<Self, LongLabelError>
        ensures ok { IsOk result ↔ (length octets.now ≤ max_label) }
        ensures value { IfOk result (λ l. label_octets l ≡ octets.now) }
    {
        if octets.len() > MAX_LABEL {
            return Err(LongLabelError);
        }
        Ok(Label { octets })
    }

    /// Parses the label at the beginning of the octets, in wire format, and returns it with the
    /// octets after it.
    ///
    /// A lead octet from 0 to 0x3F is the label's length. Fails with [`SplitLabelError::BadType`]
    /// if the lead octet is from 0x40 to 0xBF. Fails with [`SplitLabelError::Pointer`] if it is
    /// greater; the pointer is its low six bits and the next octet. Fails with
    /// [`SplitLabelError::ShortInput`] if there are too few octets.
    pub fn split_from(octets: &'a [u8]) -> Result<(Label<'a>, &'a [u8]), SplitLabelError>
        ensures { MatchResult result (λ p. octets.now ≡ wire_label (label_octets p.0) ++ p.1.now) (λ e. RefusesLabel e octets.now) }
    {
        let Some((lead, rest)) = octets.split_first() else {
            return Err(SplitLabelError::ShortInput);
        };
        let lead = *lead;
        if lead <= 63 {
            let len = lead as usize;
            if rest.len() < len {
                return Err(SplitLabelError::ShortInput);
            }
            let (label, rest) = rest.split_at(len);
            return Ok((Label { octets: label }, rest));
        }
        if lead < 192 {
            return Err(SplitLabelError::BadType(LabelTypeError(lead)));
        }
        match rest.first() {
            Some(next) => Err(SplitLabelError::Pointer((lead as u16 % 64) * 256 + *next as u16)),
            None => Err(SplitLabelError::ShortInput),
        }
    }

    /// Returns the octets of the label, without its length octet.
    pub fn as_slice(&self) -> &'a [u8]
        ensures value { result.now ≡ label_octets self.now }
        ensures short { length result.now ≤ max_label }
    {
        self.octets
    }

    /// Returns the length of the label in octets, without its length octet.
    pub fn len(&self) -> usize
        ensures value { result ≡ length (label_octets self.now) }
        ensures short { result ≤ max_label }
    {
        self.octets.len()
    }

    /// Returns whether this is the root, the label of length 0.
    pub fn is_root(&self) -> bool
        ensures { IsTrue result ↔ (label_octets self.now ≡ []) }
    {
        self.octets.is_empty()
    }

    /// Returns the length of the wire format in octets: the length octet and the label's octets.
    pub fn compose_len(&self) -> u16
        ensures { result ≡ length (label_octets self.now) + 1 }
    {
        self.octets.len() as u16 + 1
    }
}
