//! The fields of RDATA.
ghost use Rattle.std.specs.Prelude.{◌≡◌, Some, None, MatchOption};
ghost use Rattle.zone_record.specs.FieldForms.{StartsWithFields};
ghost use Rattle.zone_record.specs.Parts.{data_part, field_part};

use crate::data::Data;
use crate::first_field::first_width;
use dns_octets::AsOctets;
use rdata::type_row;
use rdata_fields::Field;

/// Returns the octets of the field at an index among those that octets begin with.
fn leading_part<'a>(fields: &[Field], place: usize, octets: &'a [u8]) -> Option<&'a [u8]>
    requires { StartsWithFields fields.now octets.now }
    ensures { MatchOption result (field_part fields.now place octets.now ≡ None) (λ part. field_part fields.now place octets.now ≡ Some part.now) }
{
    let mut rest = octets;
    let mut count = place;
    for field in fields {
        let width = first_width(*field, rest);
        if count == 0 {
            return Some(&rest[..width]);
        }
        rest = &rest[width..];
        count -= 1;
    }
    None
}

impl<Octets: AsOctets> Data<Octets> {
    /// Returns the octets of the field at an index, which counts from 0: in RDATA of MX the
    /// preference at 0, and the exchange at 1. Returns `None` after the fields of one token each,
    /// and for a type without a presentation format of its own.
    pub fn part(&self, place: usize) -> Option<&[u8]>
        ensures { MatchOption result (data_part self.now place ≡ None) (λ part. data_part self.now place ≡ Some part.now) }
    {
        let row = type_row(self.rtype())?;
        leading_part(row.shape().fields, place, self.as_slice())
    }
}
