//! Prints one field as its token.
ghost use Rattle.std.specs.Prelude.{None, Some};
ghost use Rattle.rdata_fields.specs.Fields.{field_form};
ghost use Rattle.rdata_fields.specs.Forms.{token_text};

use dns_octets::AsOctets;
use rdata_fields::{Field, write_field};
use std::fmt;

/// The octets of a field, which print as its token.
#[derive(Clone, Copy)]
pub struct FieldText<'a> {
    pub field: Field,
    pub octets: &'a [u8],
    pub ghost is_wire: { ∥ (field_form None field).is_wire octets.now ∥₁ },
}

impl fmt::Display for FieldText<'_> {
    ghost output = { λ t. Some (token_text (field_form None t.field) t.octets.now) };

    fn fmt<W: fmt::Write>(&self, f: &mut fmt::Formatter<W>) -> fmt::Result {
        let octets = self.octets.as_slice();
        write_field(self.field, octets, f)
    }
}
