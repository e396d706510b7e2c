//! The example of the documentation of `dns_zone`, a record with a block and comments; and a record
//! within a record.
ghost use Rattle.std.specs.Prelude.{◌≡◌, [], ◌∷◌, ◌++◌, codes, false, refl};
ghost use Rattle.std.specs.Fmt.{decimal};
ghost use Rattle.std.specs.String.{string_bytes};
ghost use Rattle.dns_zone.specs.Layout.{token, begin, end, comment};
ghost use Rattle.dns_zone.specs.Nesting.{has_line};
ghost use Rattle.dns_zone.specs.Forming.{nested_in_block, no_line_append};

use super::prints;
use dns_zone::zonefile_fmt::{self, FormatWriter, Formatter, ZonefileFmt};
use std::alloc::{AllocError, Global};
use std::test::Fail;

/// The RDATA of an MX record (RFC 1035 section 3.3.9).
#[derive(Drop)]
pub(super) struct Mx {
    preference: u16,
    exchange: String,
}

impl Mx {
    pub(super) fn new(alloc: Global) -> Result<Mx, AllocError> {
        let exchange = String::from_str(alloc, "mail.example.com.")?;
        Ok(Mx {
            preference: 10,
            exchange,
        })
    }
}

impl ZonefileFmt for Mx {
    ghost document = { λ x. token (decimal x.preference) ∷ comment (codes "preference")
        ∷ token (string_bytes x.exchange) ∷ comment (codes "exchange") ∷ [] };

    ghost nested = { λ _. refl };

    fn fmt<F: FormatWriter>(&self, p: &mut F) -> zonefile_fmt::Result {
        p.write_token(self.preference)?;
        p.write_comment("preference")?;
        p.write_token(self.exchange.as_str())?;
        p.write_comment("exchange")?;
        Ok(())
    }
}

/// RDATA that is put in a block.
trait RecordData: ZonefileFmt {
    ghost one_line: { (x : Self) → has_line (Self.document x) ≡ false };
}

impl RecordData for Mx {
    ghost one_line = { λ _. refl };
}

/// A record: its owner, its type, and its RDATA in a block.
#[derive(Drop)]
struct Record<D> {
    owner: String,
    rtype: String,
    rdata: D,
}

impl<D: RecordData> ZonefileFmt for Record<D> {
    ghost document = { λ x. token (string_bytes x.owner) ∷ token (string_bytes x.rtype)
        ∷ begin ∷ (D.document x.rdata ++ end ∷ []) };

    ghost nested = { λ x. nested_in_block (D.document x.rdata) (D.nested x.rdata)
        (D.one_line x.rdata) };

    fn fmt<F: FormatWriter>(&self, p: &mut F) -> zonefile_fmt::Result {
        p.write_token(self.owner.as_str())?;
        p.write_token(self.rtype.as_str())?;
        p.block(&self.rdata)
    }
}

impl<D: RecordData> RecordData for Record<D> {
    ghost one_line = { λ x. no_line_append (D.document x.rdata) (end ∷ []) (D.one_line x.rdata) refl };
}

fn record_of<D: Drop>(
    alloc: Global,
    owner: &str,
    rtype: &str,
    rdata: D,
) -> Result<Record<D>, AllocError> {
    Ok(Record {
        owner: String::from_str(alloc, owner)?,
        rtype: String::from_str(alloc, rtype)?,
        rdata,
    })
}

#[test]
fn prints_records(rt: HostRuntime) -> Result<(), Fail> {
    let alloc = rt.alloc();
    let record = record_of(alloc, "example.com.", "MX", Mx::new(alloc)?)?;
    let texts = [
        "example.com. MX 10 mail.example.com.",
        "example.com.\tMX\t10 mail.example.com.",
        "example.com. MX ( 10\t; preference\n                  \
            mail.example.com.\t; exchange\n                  )",
    ];
    prints(&rt, alloc, &record, texts);
    let nested = record_of(
        alloc,
        "a",
        "b",
        record_of(alloc, "c", "d", Mx::new(alloc)?)?,
    )?;
    let texts = [
        "a b c d 10 mail.example.com.",
        "a\tb\tc d 10 mail.example.com.",
        "a b ( c d ( 10\t; preference\n            \
            mail.example.com.\t; exchange\n            ) )",
    ];
    prints(&rt, alloc, &nested, texts);
    Ok(())
}
