//! Laws about records that are printed and read.
ghost use Rattle.std.specs.List.{AllByRecursion};
ghost use Rattle.zone_record.specs.RecordLaws.{AreRecordValues};
ghost use Rattle.zone_stream.specs.PrintedTexts.{IsTextOfRecordsRead};
ghost use Rattle.zone_stream.specs.ReadBack.{IsPrintedRecordRead};

use dns_octets::AsOctets;
use zone_reader::state_laws::whole_records_are_independent;
use zone_reader::text_laws::texts_are_read_entry_by_entry;
use zone_record::Record;
use zone_record::laws::{printed_owners_are_owners, records_are_read_back, records_hold_values};

/// States that the tokens of a printed record are read as that record from every state: its owner,
/// its TTL, if it is below 2^31, its class, its type, and its data, if this surely fits. It does
/// nothing of use.
pub fn printed_records_are_read<Owner: AsOctets, Octets: AsOctets>(one: &Record<Owner, Octets>)
    ensures { IsPrintedRecordRead one.now }
{
    records_hold_values(one);
    records_are_read_back(one);
    printed_owners_are_owners();
    whole_records_are_independent();
}

/// States what the values of each of these records are. It does nothing of use.
fn all_hold_values<Owner: AsOctets, Octets: AsOctets>(records: &[Record<Owner, Octets>])
    ensures { AllByRecursion AreRecordValues records.now }
{
    for one in records {
        records_hold_values(one);
    }
}

/// States that a text that is printed from records, in any layout and with a line end after each,
/// is read as these records, in their order, and as nothing else, from every state: calls of
/// [`next_entry`](zone_reader::RecordReader::next_entry) return each with its owner, its TTL, if all
/// are below 2^31, its class, its type, and its data, if this surely fits. It does nothing of use.
pub fn printed_texts_are_read<Owner: AsOctets, Octets: AsOctets>(records: &[Record<Owner, Octets>])
    ensures { IsTextOfRecordsRead records.now }
{
    all_hold_values(records);
    whole_records_are_independent();
    texts_are_read_entry_by_entry();
}
