//! MX (RFC 1035 section 3.3.9).
ghost use Rattle.std.specs.Prelude.{refl};
ghost use Rattle.custom_record.specs.Parts.{steps_of};
ghost use Rattle.test_api.specs.Parts.{mx_parts};
ghost use Rattle.test_api.specs.Readings.{mx_reads};

use dns_text::record::{FieldValue, RecordData, scan_fields};
use dns_text::scan::{EntryScanner, ScanOctets, ScannerError, TokenText};
use dns_text::wire::{AsOctets, Name, ZoneName};
use dns_text::zonefile_fmt::{self, FormatWriter, Formatter, ZonefileFmt};
use std::alloc::Allocator;

/// A host that takes mail for the owner. The host with the lowest preference comes first.
#[derive(Drop)]
pub struct Mx<Octets: AsOctets> {
    pub preference: u16,
    pub exchange: Name<Octets>,
}

impl<Octets: AsOctets> ZonefileFmt for Mx<Octets> {
    ghost document = { λ x. steps_of (mx_parts x) };

    ghost nested = { λ _. refl };

    fn fmt<F: FormatWriter>(&self, p: &mut F) -> zonefile_fmt::Result {
        p.write_token(self.preference)?;
        p.write_comment("preference")?;
        p.write_token(ZoneName::new(&self.exchange))?;
        p.write_comment("exchange")?;
        Ok(())
    }
}

impl<Octets: ScanOctets, A: Allocator + Copy> RecordData<Octets, A> for Mx<Octets> {
    ghost parts = { mx_parts };

    ghost data_reads = { mx_reads Octets Octets.Builder.room };

    fn known(&self) {
        self.preference.known();
        self.exchange.known();
    }

    fn scan_data<'a, T: TokenText, E: ScannerError>(
        _alloc: A,
        scanner: &mut EntryScanner<'a, T, Octets, E>,
    ) -> Result<Self, E> {
        let (preference, exchange) = scan_fields::<_, (u16, Name<Octets>)>(scanner)?;
        Ok(Mx {
            preference,
            exchange,
        })
    }

    ghost shown = { λ _. refl };

    ghost laid_out = { λ _. refl };
}
