//! The fields that are one word.
ghost use Rattle.std.specs.Prelude.{◌≡◌, ◌<◌, ◌^◌, ◌∷◌, [], Some, decimal, slice_index, length};
ghost use Rattle.std.specs.Int.{to_be_bytes, from_be_bytes, w16, w32};
ghost use Rattle.std.specs.Net.Addr.{ipv4_octets, ipv6_octets, segments_of, IsIpv4Addr, IsIpv6Addr};
ghost use Rattle.std.specs.Net.Grammar.{IsIpv4Text, IsIpv6Text};
ghost use Rattle.std.specs.Net.Text.{ipv4_text};
ghost use Rattle.rdata_values.specs.Addresses.{shown_ipv6};
ghost use Rattle.rdata_values.specs.Algorithms.{SpellsAlgorithm, SpellsCertificate, certificate_text};
ghost use Rattle.rdata_values.specs.Eui.{AreEuiOctets, SpellsEui48, SpellsEui64, dashed_text};
ghost use Rattle.rdata_values.specs.Locator.{SpellsLocator, locator_text};
ghost use Rattle.rdata_values.specs.Schemes.{SpellsScheme, scheme_text};
ghost use Rattle.rdata_values.specs.Time.{IsDate, SpellsDate, seconds_at, date_at, date_text};
ghost use Rattle.rdata_values.specs.Ttl.{SpellsInterval};
ghost use Rattle.rdata_values.specs.Types.{SpellsPortable, portable_text, SpellsSigType, sig_type_text};
ghost use Rattle.rdata_values.specs.declared.error.ErrorKind.TheVariants.{ExpectedIpv4, ExpectedIpv6, ExpectedInterval, UnknownType, UnknownAlgorithm, UnknownCertificate, UnknownScheme, ExpectedEui48, ExpectedEui64, ExpectedTime, ExpectedLocator};
ghost use Rattle.rdata_fields.specs.Words.{SpellsBelow, NumberReason};
ghost use Rattle.rdata_fields.specs.WordLaws.{number8_is_kind, number16_is_kind, number32_is_kind, interval_is_kind, ipv4_is_word, ipv6_is_word, type_is_word, sig_type_is_word, algorithm_is_word, certificate_is_word, scheme_is_word, eui48_is_word, eui64_is_word, date_is_word, locator_is_word};

use crate::addresses::{ipv4_from_text, ipv6_from_text};
use crate::word::Word;
use dns_octets::{OctetsBuilder, ShortBuf};
use rdata_values::numbers::{u8_from_text, u16_from_text, u32_from_text};
use rdata_values::{
    Algorithm, CertificateType, Date, ErrorKind, Eui48, Eui64, Ipv6Shown, Locator, PortableType,
    RecordType, SigType, SyncScheme, interval_from_text,
};
use std::fmt;
use std::net::{Ipv4Addr, Ipv6Addr};

/// A number of seconds below 2^32, which may be written with units (the timers of SOA). It prints
/// in decimal.
#[derive(Clone, Copy)]
pub struct Interval(pub u32);

impl fmt::Display for Interval {
    ghost output = { λ n. Some (decimal n.0) };

    fn fmt<W: fmt::Write>(&self, f: &mut fmt::Formatter<W>) -> fmt::Result {
        write!(f, "{}", self.0)
    }
}

/// Returns `N` octets as an array.
fn array_of<const N: usize>(octets: &[u8]) -> [u8; N]
    requires { length octets.now ≡ N }
    ensures { result ≡ octets.now }
{
    let mut array = [0; N];
    array.copy_from_slice(octets);
    array
}

impl Word for u8 {
    ghost width = { 1 };

    ghost valid = { λ n. n < 2 ^ 8 };

    ghost spells = { SpellsBelow (2 ^ 8) };

    ghost reason = { NumberReason (2 ^ 8) };

    ghost wire = { λ n. n ∷ [] };

    ghost printed = { λ octets. decimal (slice_index octets 0) };

    fn width() -> usize {
        1
    }

    fn from_text(text: &[u8]) -> Result<Self, ErrorKind> {
        u8_from_text(text)
    }

    fn from_wire(octets: &[u8]) -> Self {
        octets[0]
    }

    fn append<B: OctetsBuilder>(&self, target: &mut B) -> Result<(), ShortBuf> {
        target.append_slice(&[*self])
    }

    ghost is_kind = { number8_is_kind };
}

impl Word for u16 {
    ghost width = { 2 };

    ghost valid = { λ n. n < 2 ^ 16 };

    ghost spells = { SpellsBelow (2 ^ 16) };

    ghost reason = { NumberReason (2 ^ 16) };

    ghost wire = { to_be_bytes w16 };

    ghost printed = { λ octets. decimal (from_be_bytes w16 octets) };

    fn width() -> usize {
        2
    }

    fn from_text(text: &[u8]) -> Result<Self, ErrorKind> {
        u16_from_text(text)
    }

    fn from_wire(octets: &[u8]) -> Self {
        u16::from_be_bytes(array_of(octets))
    }

    fn append<B: OctetsBuilder>(&self, target: &mut B) -> Result<(), ShortBuf> {
        target.append_slice(&self.to_be_bytes())
    }

    ghost is_kind = { number16_is_kind };
}

impl Word for u32 {
    ghost width = { 4 };

    ghost valid = { λ n. n < 2 ^ 32 };

    ghost spells = { SpellsBelow (2 ^ 32) };

    ghost reason = { NumberReason (2 ^ 32) };

    ghost wire = { to_be_bytes w32 };

    ghost printed = { λ octets. decimal (from_be_bytes w32 octets) };

    fn width() -> usize {
        4
    }

    fn from_text(text: &[u8]) -> Result<Self, ErrorKind> {
        u32_from_text(text)
    }

    fn from_wire(octets: &[u8]) -> Self {
        u32::from_be_bytes(array_of(octets))
    }

    fn append<B: OctetsBuilder>(&self, target: &mut B) -> Result<(), ShortBuf> {
        target.append_slice(&self.to_be_bytes())
    }

    ghost is_kind = { number32_is_kind };
}

impl Word for Interval {
    ghost width = { 4 };

    ghost valid = { λ n. n.0 < 2 ^ 32 };

    ghost spells = { λ text n. SpellsInterval text n.0 };

    ghost reason = { λ _ e. e ≡ ExpectedInterval };

    ghost wire = { λ n. to_be_bytes w32 n.0 };

    ghost printed = { λ octets. decimal (from_be_bytes w32 octets) };

    fn width() -> usize {
        4
    }

    fn from_text(text: &[u8]) -> Result<Self, ErrorKind> {
        match interval_from_text(text) {
            Ok(value) => Ok(Interval(value)),
            Err(why) => Err(why),
        }
    }

    fn from_wire(octets: &[u8]) -> Self {
        Interval(u32::from_be_bytes(array_of(octets)))
    }

    fn append<B: OctetsBuilder>(&self, target: &mut B) -> Result<(), ShortBuf> {
        target.append_slice(&self.0.to_be_bytes())
    }

    ghost is_kind = { interval_is_kind };
}

impl Word for Ipv4Addr {
    ghost width = { 4 };

    ghost valid = { IsIpv4Addr };

    ghost spells = { IsIpv4Text };

    ghost reason = { λ _ e. e ≡ ExpectedIpv4 };

    ghost wire = { ipv4_octets };

    ghost printed = { ipv4_text };

    fn width() -> usize {
        4
    }

    fn from_text(text: &[u8]) -> Result<Self, ErrorKind> {
        ipv4_from_text(text)
    }

    fn from_wire(octets: &[u8]) -> Self {
        Ipv4Addr::from_octets(array_of(octets))
    }

    fn append<B: OctetsBuilder>(&self, target: &mut B) -> Result<(), ShortBuf> {
        target.append_slice(&self.octets())
    }

    ghost is_kind = { ipv4_is_word };
}

impl Word for Ipv6Shown {
    ghost width = { 16 };

    ghost valid = { λ a. IsIpv6Addr a.0 };

    ghost spells = { λ text a. IsIpv6Text text a.0 };

    ghost reason = { λ _ e. e ≡ ExpectedIpv6 };

    ghost wire = { λ a. ipv6_octets a.0 };

    ghost printed = { λ octets. shown_ipv6 (segments_of octets) };

    fn width() -> usize {
        16
    }

    fn from_text(text: &[u8]) -> Result<Self, ErrorKind> {
        match ipv6_from_text(text) {
            Ok(address) => {
                let _segments = address.segments();
                Ok(Ipv6Shown(address))
            }
            Err(why) => Err(why),
        }
    }

    fn from_wire(octets: &[u8]) -> Self {
        Ipv6Shown(Ipv6Addr::from_octets(array_of(octets)))
    }

    fn append<B: OctetsBuilder>(&self, target: &mut B) -> Result<(), ShortBuf> {
        target.append_slice(&self.0.octets())
    }

    ghost is_kind = { ipv6_is_word };
}

impl Word for PortableType {
    ghost width = { 2 };

    ghost valid = { λ t. t.0 < 2 ^ 16 };

    ghost spells = { SpellsPortable };

    ghost reason = { λ _ e. e ≡ UnknownType };

    ghost wire = { λ t. to_be_bytes w16 t.0 };

    ghost printed = { λ octets. portable_text (from_be_bytes w16 octets) };

    fn width() -> usize {
        2
    }

    fn from_text(text: &[u8]) -> Result<Self, ErrorKind> {
        match RecordType::from_text(text) {
            Ok(value) => Ok(PortableType(value)),
            Err(why) => Err(why),
        }
    }

    fn from_wire(octets: &[u8]) -> Self {
        PortableType(RecordType(u16::from_be_bytes(array_of(octets))))
    }

    fn append<B: OctetsBuilder>(&self, target: &mut B) -> Result<(), ShortBuf> {
        target.append_slice(&self.0.0.to_be_bytes())
    }

    ghost is_kind = { type_is_word };
}

impl Word for SigType {
    ghost width = { 2 };

    ghost valid = { λ t. t.0 < 2 ^ 16 };

    ghost spells = { SpellsSigType };

    ghost reason = { λ _ e. e ≡ UnknownType };

    ghost wire = { λ t. to_be_bytes w16 t.0 };

    ghost printed = { λ octets. sig_type_text (from_be_bytes w16 octets) };

    fn width() -> usize {
        2
    }

    fn from_text(text: &[u8]) -> Result<Self, ErrorKind> {
        SigType::from_text(text)
    }

    fn from_wire(octets: &[u8]) -> Self {
        SigType(RecordType(u16::from_be_bytes(array_of(octets))))
    }

    fn append<B: OctetsBuilder>(&self, target: &mut B) -> Result<(), ShortBuf> {
        target.append_slice(&self.0.0.to_be_bytes())
    }

    ghost is_kind = { sig_type_is_word };
}

impl Word for CertificateType {
    ghost width = { 2 };

    ghost valid = { λ t. t.0 < 2 ^ 16 };

    ghost spells = { SpellsCertificate };

    ghost reason = { λ _ e. e ≡ UnknownCertificate };

    ghost wire = { λ t. to_be_bytes w16 t.0 };

    ghost printed = { λ octets. certificate_text (record { 0 = from_be_bytes w16 octets }) };

    fn width() -> usize {
        2
    }

    fn from_text(text: &[u8]) -> Result<Self, ErrorKind> {
        CertificateType::from_text(text)
    }

    fn from_wire(octets: &[u8]) -> Self {
        CertificateType(u16::from_be_bytes(array_of(octets)))
    }

    fn append<B: OctetsBuilder>(&self, target: &mut B) -> Result<(), ShortBuf> {
        target.append_slice(&self.0.to_be_bytes())
    }

    ghost is_kind = { certificate_is_word };
}

impl Word for Algorithm {
    ghost width = { 1 };

    ghost valid = { λ a. a.0 < 2 ^ 8 };

    ghost spells = { SpellsAlgorithm };

    ghost reason = { λ _ e. e ≡ UnknownAlgorithm };

    ghost wire = { λ a. a.0 ∷ [] };

    ghost printed = { λ octets. decimal (slice_index octets 0) };

    fn width() -> usize {
        1
    }

    fn from_text(text: &[u8]) -> Result<Self, ErrorKind> {
        Algorithm::from_text(text)
    }

    fn from_wire(octets: &[u8]) -> Self {
        Algorithm(octets[0])
    }

    fn append<B: OctetsBuilder>(&self, target: &mut B) -> Result<(), ShortBuf> {
        target.append_slice(&[self.0])
    }

    ghost is_kind = { algorithm_is_word };
}

impl Word for SyncScheme {
    ghost width = { 1 };

    ghost valid = { λ s. s.0 < 2 ^ 8 };

    ghost spells = { SpellsScheme };

    ghost reason = { λ _ e. e ≡ UnknownScheme };

    ghost wire = { λ s. s.0 ∷ [] };

    ghost printed = { λ octets. scheme_text (record { 0 = slice_index octets 0 }) };

    fn width() -> usize {
        1
    }

    fn from_text(text: &[u8]) -> Result<Self, ErrorKind> {
        SyncScheme::from_text(text)
    }

    fn from_wire(octets: &[u8]) -> Self {
        SyncScheme(octets[0])
    }

    fn append<B: OctetsBuilder>(&self, target: &mut B) -> Result<(), ShortBuf> {
        target.append_slice(&[self.0])
    }

    ghost is_kind = { scheme_is_word };
}

impl Word for Eui48 {
    ghost width = { 6 };

    ghost valid = { λ e. AreEuiOctets 6 e.0 };

    ghost spells = { SpellsEui48 };

    ghost reason = { λ _ e. e ≡ ExpectedEui48 };

    ghost wire = { λ e. e.0 };

    ghost printed = { dashed_text };

    fn width() -> usize {
        6
    }

    fn from_text(text: &[u8]) -> Result<Self, ErrorKind> {
        Eui48::from_text(text)
    }

    fn from_wire(octets: &[u8]) -> Self {
        Eui48(array_of(octets))
    }

    fn append<B: OctetsBuilder>(&self, target: &mut B) -> Result<(), ShortBuf> {
        target.append_slice(&self.0)
    }

    ghost is_kind = { eui48_is_word };
}

impl Word for Eui64 {
    ghost width = { 8 };

    ghost valid = { λ e. AreEuiOctets 8 e.0 };

    ghost spells = { SpellsEui64 };

    ghost reason = { λ _ e. e ≡ ExpectedEui64 };

    ghost wire = { λ e. e.0 };

    ghost printed = { dashed_text };

    fn width() -> usize {
        8
    }

    fn from_text(text: &[u8]) -> Result<Self, ErrorKind> {
        Eui64::from_text(text)
    }

    fn from_wire(octets: &[u8]) -> Self {
        Eui64(array_of(octets))
    }

    fn append<B: OctetsBuilder>(&self, target: &mut B) -> Result<(), ShortBuf> {
        target.append_slice(&self.0)
    }

    ghost is_kind = { eui64_is_word };
}

impl Word for Date {
    ghost width = { 4 };

    ghost valid = { λ d. IsDate d × (seconds_at d < 2 ^ 32) };

    ghost spells = { SpellsDate };

    ghost reason = { λ _ e. e ≡ ExpectedTime };

    ghost wire = { λ d. to_be_bytes w32 (seconds_at d) };

    ghost printed = { λ octets. date_text (date_at (from_be_bytes w32 octets)) };

    fn width() -> usize {
        4
    }

    fn from_text(text: &[u8]) -> Result<Self, ErrorKind> {
        Date::from_text(text)
    }

    fn from_wire(octets: &[u8]) -> Self {
        Date::from_seconds(u32::from_be_bytes(array_of(octets)))
    }

    fn append<B: OctetsBuilder>(&self, target: &mut B) -> Result<(), ShortBuf> {
        target.append_slice(&self.seconds().to_be_bytes())
    }

    ghost is_kind = { date_is_word };
}

impl Word for Locator {
    ghost width = { 8 };

    ghost valid = { λ l. AreEuiOctets 8 l.0 };

    ghost spells = { SpellsLocator };

    ghost reason = { λ _ e. e ≡ ExpectedLocator };

    ghost wire = { λ l. l.0 };

    ghost printed = { locator_text };

    fn width() -> usize {
        8
    }

    fn from_text(text: &[u8]) -> Result<Self, ErrorKind> {
        match Locator::from_text(text) {
            Ok(locator) => {
                let octets = locator.0;
                Ok(Locator(octets))
            }
            Err(why) => Err(why),
        }
    }

    fn from_wire(octets: &[u8]) -> Self {
        Locator(array_of(octets))
    }

    fn append<B: OctetsBuilder>(&self, target: &mut B) -> Result<(), ShortBuf> {
        target.append_slice(&self.0)
    }

    ghost is_kind = { locator_is_word };
}
