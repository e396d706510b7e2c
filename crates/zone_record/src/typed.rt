//! RDATA whose type a program knows.
ghost use Rattle.std.specs.Prelude.{◌≡◌, ◌↔◌, Some, IsOk, IfOk, IfErr};
ghost use Rattle.std.specs.Int.{to_be_bytes, w16};
ghost use Rattle.rdata_values.specs.Rtype.{mx};
ghost use Rattle.rdata_tokens.specs.NameSpelling.{IsWireName};
ghost use Rattle.zone_record.specs.Parts.{data_part};

use crate::codes;
use crate::data::Data;
use dns_octets::AsOctets;
use std::marker::Model;

/// RDATA of the type that has this code.
#[derive(Drop)]
pub struct TypedData<const CODE: u16, Octets: AsOctets> {
    data: Data<Octets>,
}

impl<const CODE: u16, Octets: AsOctets> Model for TypedData<CODE, Octets> {
    ghost use Rattle.std.specs.Prelude.{◌≡◌};
    ghost use Rattle.zone_record.specs.TypeData.{TypeData};

    ghost Value = { TypeData };

    ghost view = { λ t. t.«data» };

    ghost invariant = { λ t. t.«data».rtype ≡ CODE };
}

impl<const CODE: u16, Octets: AsOctets> TypedData<CODE, Octets> {
    /// Returns the RDATA as RDATA of the type. Fails with the RDATA itself if it has another type.
    pub fn new(data: Data<Octets>) -> Result<Self, Data<Octets>>
        ensures ok { IfOk result (λ t. t ≡ «data») }
        ensures accepts { IsOk result ↔ («data».rtype ≡ CODE) }
        ensures err { IfErr result (λ d. d ≡ «data») }
    {
        if data.rtype().0 != CODE {
            return Err(data);
        }
        Ok(TypedData { data })
    }

    /// Returns the RDATA.
    pub fn as_data(&self) -> &Data<Octets>
        ensures value { result.now ≡ self.now }
        ensures rtype { self.now.rtype ≡ CODE }
    {
        &self.data
    }

    /// Returns the RDATA, and consumes the value.
    pub fn into_data(self) -> Data<Octets>
        ensures { result ≡ self }
    {
        self.data
    }
}

/// RDATA of A (RFC 1035 section 3.4.1).
pub type A<Octets> = TypedData<{ codes::A }, Octets>;

/// RDATA of NS (RFC 1035 section 3.3.11).
pub type Ns<Octets> = TypedData<{ codes::NS }, Octets>;

/// RDATA of CNAME (RFC 1035 section 3.3.1).
pub type Cname<Octets> = TypedData<{ codes::CNAME }, Octets>;

/// RDATA of SOA (RFC 1035 section 3.3.13).
pub type Soa<Octets> = TypedData<{ codes::SOA }, Octets>;

/// RDATA of PTR (RFC 1035 section 3.3.12).
pub type Ptr<Octets> = TypedData<{ codes::PTR }, Octets>;

/// RDATA of MX (RFC 1035 section 3.3.9).
pub type Mx<Octets> = TypedData<{ codes::MX }, Octets>;

/// Returns the preference in RDATA of MX.
fn preference_of<Octets: AsOctets>(mail: &Data<Octets>) -> u16
    requires { mail.now.rtype ≡ mx }
    ensures { data_part mail.now 0 ≡ Some (to_be_bytes w16 result) }
{
    // No effect at run time: the proof reads that the octets are RDATA of the type.
    let _octets = mail.as_slice();
    match mail.part(0) {
        Some(octets) => u16::from_be_bytes([octets[0], octets[1]]),
        None => unreachable!(),
    }
}

/// Returns the exchange in RDATA of MX.
fn exchange_of<Octets: AsOctets>(mail: &Data<Octets>) -> &[u8]
    requires { mail.now.rtype ≡ mx }
    ensures part { data_part mail.now 1 ≡ Some result.now }
    ensures name { IsWireName result.now }
{
    let _octets = mail.as_slice();
    match mail.part(1) {
        Some(octets) => octets,
        None => unreachable!(),
    }
}

impl<Octets: AsOctets> Mx<Octets> {
    /// Returns the preference among mail exchanges. The lowest comes first.
    pub fn preference(&self) -> u16
        ensures { data_part self.now 0 ≡ Some (to_be_bytes w16 result) }
    {
        preference_of(&self.data)
    }

    /// Returns the mail exchange, as a name in wire format.
    pub fn exchange(&self) -> &[u8]
        ensures part { data_part self.now 1 ≡ Some result.now }
        ensures name { IsWireName result.now }
    {
        exchange_of(&self.data)
    }
}

/// RDATA of TXT (RFC 1035 section 3.3.14).
pub type Txt<Octets> = TypedData<{ codes::TXT }, Octets>;

/// RDATA of AAAA (RFC 3596 section 2.2).
pub type Aaaa<Octets> = TypedData<{ codes::AAAA }, Octets>;

/// RDATA of SRV (RFC 2782).
pub type Srv<Octets> = TypedData<{ codes::SRV }, Octets>;

/// RDATA of DNAME (RFC 6672 section 2.1).
pub type Dname<Octets> = TypedData<{ codes::DNAME }, Octets>;

/// RDATA of DS (RFC 4034 section 5.1).
pub type Ds<Octets> = TypedData<{ codes::DS }, Octets>;

/// RDATA of RRSIG (RFC 4034 section 3.1).
pub type Rrsig<Octets> = TypedData<{ codes::RRSIG }, Octets>;

/// RDATA of NSEC (RFC 4034 section 4.1).
pub type Nsec<Octets> = TypedData<{ codes::NSEC }, Octets>;

/// RDATA of DNSKEY (RFC 4034 section 2.1).
pub type Dnskey<Octets> = TypedData<{ codes::DNSKEY }, Octets>;

/// RDATA of NSEC3 (RFC 5155 section 3.2).
pub type Nsec3<Octets> = TypedData<{ codes::NSEC3 }, Octets>;

/// RDATA of CAA (RFC 8659 section 4.1).
pub type Caa<Octets> = TypedData<{ codes::CAA }, Octets>;
