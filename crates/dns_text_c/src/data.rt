//! RDATA.
ghost use Rattle.std.specs.Prelude.{◌<◌, ◌≤◌, length};
ghost use Rattle.c_calls.specs.DataText.{PrintsData, ReportsCanonical, ReportsReadData};
ghost use Rattle.c_calls.specs.TextData.{FitsTexts, LacksTexts, RefusesTexts, ReportsTexts};

use c_calls::canonical::data_canonical;
use c_calls::outcome::Outcome;
use c_calls::printing::data_print;
use c_calls::reading::data_read;
use c_calls::text_data::text_data;
use rdata_values::RecordType;

/// Parses RDATA: [`data_read`].
#[unsafe(no_mangle)]
pub extern "C" fn dnstext_data_read(
    rtype: u16,
    text: &[u8],
    origin: &[u8],
    octets: &mut [u8],
    outcome: &mut Outcome,
) -> u32
    ensures { ReportsReadData rtype text.now origin.now octets.old result octets.new outcome.new }
{
    data_read(RecordType(rtype), text, origin, octets, outcome)
}

/// Prints RDATA: [`data_print`].
#[unsafe(no_mangle)]
pub extern "C" fn dnstext_data_print(
    rtype: u16,
    octets: &[u8],
    text: &mut [u8],
    outcome: &mut Outcome,
) -> u32
    ensures { PrintsData rtype octets.now text.old result text.new outcome.new }
{
    data_print(RecordType(rtype), octets, text, outcome)
}

/// Makes RDATA of TXT of any octets: [`text_data`].
#[unsafe(no_mangle)]
pub extern "C" fn dnstext_text_data(octets: &[u8], data: &mut [u8], outcome: &mut Outcome) -> u32
    ensures long { 65279 < length octets.now → RefusesTexts result data.old data.new outcome.new }
    ensures told { length octets.now ≤ 65279 → ReportsTexts (length octets.now) outcome.new }
    ensures lacks { length octets.now ≤ 65279 → LacksTexts octets.now data.old result data.new }
    ensures fits { FitsTexts octets.now data.old result data.new outcome.new }
{
    text_data(octets, data, outcome)
}

/// Converts RDATA to canonical form: [`data_canonical`].
#[unsafe(no_mangle)]
pub extern "C" fn dnstext_data_canonical(
    rtype: u16,
    octets: &[u8],
    form: &mut [u8],
    outcome: &mut Outcome,
) -> u32
    ensures { ReportsCanonical rtype octets.now form.old result form.new outcome.new }
{
    data_canonical(RecordType(rtype), octets, form, outcome)
}
