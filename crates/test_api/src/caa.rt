//! CAA (RFC 8659 section 4).
ghost use Rattle.std.specs.Prelude.{refl};
ghost use Rattle.custom_record.specs.Parts.{steps_of};
ghost use Rattle.test_api.specs.Parts.{caa_parts};
ghost use Rattle.test_api.specs.Readings.{caa_reads};

use dns_text::charstr::CharStr;
use dns_text::record::{
    FieldValue, LongText, RecordData, scan_three, write_long_text, write_unquoted,
};
use dns_text::scan::{EntryScanner, ScanOctets, ScannerError, TokenText};
use dns_text::wire::AsOctets;
use dns_text::zonefile_fmt::{self, FormatWriter, Formatter, ZonefileFmt};
use std::alloc::Allocator;

/// The certification authorities that may issue certificates for the owner.
#[derive(Drop)]
pub struct Caa<Octets: AsOctets> {
    pub flags: u8,
    pub tag: CharStr<Octets>,
    /// Text of any length (RFC 8659 section 4.1).
    pub value: LongText<Octets>,
}

impl<Octets: AsOctets> ZonefileFmt for Caa<Octets> {
    ghost document = { λ x. steps_of (caa_parts x) };

    ghost nested = { λ _. refl };

    fn fmt<F: FormatWriter>(&self, p: &mut F) -> zonefile_fmt::Result {
        p.write_token(self.flags)?;
        p.write_comment("flags")?;
        write_unquoted(p, &self.tag)?;
        p.write_comment("tag")?;
        write_long_text(p, &self.value)
    }
}

impl<Octets: ScanOctets, A: Allocator + Copy> RecordData<Octets, A> for Caa<Octets> {
    ghost parts = { caa_parts };

    ghost data_reads = { caa_reads Octets Octets.Builder.room };

    fn known(&self) {
        self.flags.known();
        self.tag.known();
        self.value.known();
    }

    fn scan_data<'a, T: TokenText, E: ScannerError>(
        _alloc: A,
        scanner: &mut EntryScanner<'a, T, Octets, E>,
    ) -> Result<Self, E> {
        let (flags, tag, value) = scan_three(scanner)?;
        Ok(Caa { flags, tag, value })
    }

    ghost shown = { λ _. refl };

    ghost laid_out = { λ _. refl };
}
