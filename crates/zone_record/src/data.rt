//! RDATA of a type.
ghost use Rattle.std.specs.Prelude.{◌≡◌, ◌↔◌, ◌-◌, ◌≤◌, ◌++◌, ℕ, length, IsOk, IfOk, IfErr, OnOk, OnErr, MatchResult};
ghost use Rattle.rdata_tokens.specs.Spelling.{AreOctetValues};
ghost use Rattle.zone_record.specs.TypeData.{IsTypeData};
ghost use Rattle.zone_record.specs.WireErrors.{RefusesWire};

use crate::error::WireError;
use dns_octets::{AsOctets, OctetsBuilder, ShortBuf};
use rdata::{MAX_DATA, check_data, is_data_type, type_row};
use rdata_values::RecordType;
use std::marker::Model;

/// The RDATA of a record: its type and its octets in wire format.
///
/// There are at most 65,535 octets. If the type has a presentation format of its own, they are the
/// wire format of the type. If not, they are any octets (RFC 3597).
#[derive(Drop)]
pub struct Data<Octets: AsOctets> {
    rtype: RecordType,
    octets: Octets,
}

impl<Octets: AsOctets> Model for Data<Octets> {
    ghost use Rattle.zone_record.specs.TypeData.{IsTypeData, TypeData};

    ghost Value = { TypeData };

    ghost view = { λ d. record { rtype = d.rtype; octets = Octets.octets d.octets } };

    ghost invariant = { λ d. IsTypeData d.rtype (Octets.octets d.octets) };
}

/// Checks that octets are RDATA of a type.
fn check_octets(rtype: RecordType, octets: &[u8]) -> Result<(), WireError>
    ensures { MatchResult result (λ _. IsTypeData rtype octets.now) (RefusesWire rtype octets.now) }
{
    if !is_data_type(rtype) {
        return Err(WireError::NoDataType);
    }
    if octets.len() > MAX_DATA {
        return Err(WireError::LongData);
    }
    let Some(row) = type_row(rtype) else {
        return Ok(());
    };
    if !check_data(&row.shape(), octets) {
        return Err(WireError::NotOfType);
    }
    Ok(())
}

impl<Octets: AsOctets> Data<Octets> {
    /// Returns the RDATA of a type with these octets in wire format, without compression pointers
    /// in names.
    ///
    /// Fails with [`WireError::NoDataType`] if records of the type cannot be in a zone, with
    /// [`WireError::LongData`] if there are more than 65,535 octets, and with
    /// [`WireError::NotOfType`] if the octets are not the wire format of the type. The first of
    /// these errors is returned.
    pub fn from_octets(rtype: RecordType, octets: Octets) -> Result<Self, WireError>
    where
        Octets: Drop,
        ensures ok { IfOk result (λ d. d ≡ record { rtype = rtype; octets = Octets.octets octets }) }
        ensures accepts { IsOk result ↔ IsTypeData rtype (Octets.octets octets) }
        ensures err { IfErr result (RefusesWire rtype (Octets.octets octets)) }
    {
        match check_octets(rtype, octets.as_slice()) {
            Ok(()) => Ok(Data { rtype, octets }),
            Err(why) => Err(why),
        }
    }

    /// Returns the RDATA of a type with these octets, which are valid and are not checked again.
    pub fn from_valid_octets(rtype: RecordType, octets: Octets) -> Self
        requires { IsTypeData rtype (Octets.octets octets) }
        ensures { result ≡ record { rtype = rtype; octets = Octets.octets octets } }
    {
        Data { rtype, octets }
    }

    /// Returns the type.
    pub fn rtype(&self) -> RecordType
        ensures { result ≡ self.now.rtype }
    {
        self.rtype
    }

    /// Returns the octets in wire format.
    pub fn as_slice(&self) -> &[u8]
        ensures value { result.now ≡ self.now.octets }
        ensures bytes { AreOctetValues self.now.octets }
        ensures is_data { IsTypeData self.now.rtype self.now.octets }
    {
        self.octets.as_slice()
    }

    /// Returns the octets, in the type that holds them.
    pub fn into_octets(self) -> Octets
        ensures { Octets.octets result ≡ self.octets }
    {
        self.octets
    }

    /// Appends the octets. On an error, the target is unchanged.
    pub fn compose<B: OctetsBuilder>(&self, target: &mut B) -> Result<(), ShortBuf>
        ensures ok { OnOk result (B.octets target.new ≡ B.octets target.old ++ self.now.octets) }
        ensures err { OnErr result (B.octets target.new ≡ B.octets target.old) }
        ensures fits { length self.now.octets ≤ B.room.fits - length (B.octets target.old) → IsOk result }
        ensures within { OnOk result (length (B.octets target.new) ≤ B.room.capacity) }
    {
        target.append_slice(self.as_slice())
    }
}
