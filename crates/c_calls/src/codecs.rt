//! Parses and prints the encodings of RFC 4648: base 16, base32hex and base 64 (sections 8, 7 and
//! 4).
ghost use Rattle.std.specs.Prelude.{◌≡◌, ◌≤◌, ◌^◌, length, IfOk, IfErr, IfSome, IfNone};
ghost use Rattle.dns_codec.specs.Base.{base16, base32hex, base64};
ghost use Rattle.dns_codec.specs.Outcome.{pad_count};
ghost use Rattle.c_calls.specs.Codecs.{PrintsOctets, DecodesText};
ghost use Rattle.c_calls.specs.Reports.{number_of, ReportsFault, ReportsLength, at_start};
ghost use Rattle.c_calls.specs.declared.outcome.Refusal.TheVariants.{NoRoom, TooLong, BadEncoding};

use crate::outcome::{Fault, OK, Outcome, Refusal, number_of, refuse};
use dns_codec::{base16, base32, base64};
use dns_octets::ShortBuf;

/// Greatest number of octets that are printed; no memory holds more.
const MOST: usize = 1 << 60;

/// Reports whether a text was written, and its number of characters.
fn report_written(written: Result<usize, ShortBuf>, length: usize, outcome: &mut Outcome) -> u32
    ensures ok { IfOk written (λ _. result ≡ 0) }
    ensures short { IfErr written (λ _. result ≡ number_of NoRoom) }
    ensures told { outcome.new ≡ record { length = length; place = 0 } }
{
    *outcome = Outcome { length, place: 0 };
    match written {
        Ok(_) => OK,
        Err(_) => number_of(Refusal::NoRoom),
    }
}

/// Rejects octets that no memory holds.
fn refuse_length(outcome: &mut Outcome) -> u32
    ensures { ReportsFault (record { refusal = TooLong; place = 2 ^ 60 }) result outcome.new }
{
    let fault = Fault {
        refusal: Refusal::TooLong,
        place: MOST,
    };
    refuse(fault, outcome)
}

/// Prints octets in base 16, with capitals.
pub fn base16_print(octets: &[u8], text: &mut [u8], outcome: &mut Outcome) -> u32
    ensures { PrintsOctets base16 octets.now text.old result text.new outcome.new }
{
    if octets.len() > MOST {
        return refuse_length(outcome);
    }
    let length = 2 * octets.len();
    report_written(base16::encode_slice(octets, text), length, outcome)
}

/// Prints octets in base32hex, with capitals and without padding.
pub fn base32hex_print(octets: &[u8], text: &mut [u8], outcome: &mut Outcome) -> u32
    ensures { PrintsOctets base32hex octets.now text.old result text.new outcome.new }
{
    if octets.len() > MOST {
        return refuse_length(outcome);
    }
    let length = (8 * octets.len() + 4) / 5;
    report_written(base32::encode_slice_hex(octets, text), length, outcome)
}

/// Prints octets in base 64, with padding.
pub fn base64_print(octets: &[u8], text: &mut [u8], outcome: &mut Outcome) -> u32
    ensures { PrintsOctets base64 octets.now text.old result text.new outcome.new }
{
    if octets.len() > MOST {
        return refuse_length(outcome);
    }
    let length = (octets.len() + 2) / 3 * 4;
    report_written(base64::encode_slice(octets, text), length, outcome)
}

/// Reports that `length` octets don't fit.
fn refuse_room(length: usize, outcome: &mut Outcome) -> u32
    ensures { (result ≡ number_of NoRoom) × (outcome.new ≡ record { length = length; place = 0 }) }
{
    *outcome = Outcome { length, place: 0 };
    number_of(Refusal::NoRoom)
}

/// Reports whether the text was one of the encoding.
fn report_read(read: Option<usize>, length: usize, outcome: &mut Outcome) -> u32
    ensures some { IfSome read (λ _. ReportsLength length result outcome.new) }
    ensures none { IfNone read (ReportsFault (at_start BadEncoding) result outcome.new) }
{
    match read {
        Some(_) => {
            *outcome = Outcome { length, place: 0 };
            OK
        }
        None => {
            let fault = Fault {
                refusal: Refusal::BadEncoding,
                place: 0,
            };
            refuse(fault, outcome)
        }
    }
}

/// Returns the number of `=` in a text.
fn count_marks(text: &[u8]) -> usize
    ensures value { result ≡ pad_count base64 text.now }
    ensures few { result ≤ length text.now }
{
    let mut count = 0;
    for octet in text {
        if *octet == b'=' {
            count += 1;
        }
    }
    count
}

/// Parses a text of base 16, in either case.
pub fn base16_read(text: &[u8], octets: &mut [u8], outcome: &mut Outcome) -> u32
    ensures { DecodesText base16 text.now octets.old result octets.new outcome.new }
{
    let length = text.len() / 2;
    if octets.len() < length {
        return refuse_room(length, outcome);
    }
    let read = base16::decode_slice(text, &mut octets[..length]);
    report_read(read, length, outcome)
}

/// Parses a text of base32hex, in either case and without padding.
pub fn base32hex_read(text: &[u8], octets: &mut [u8], outcome: &mut Outcome) -> u32
    ensures { DecodesText base32hex text.now octets.old result octets.new outcome.new }
{
    let length = text.len() / 8 * 5 + text.len() % 8 * 5 / 8;
    if octets.len() < length {
        return refuse_room(length, outcome);
    }
    let read = base32::decode_slice_hex(text, &mut octets[..length]);
    report_read(read, length, outcome)
}

/// Parses a text of base 64, with its padding.
pub fn base64_read(text: &[u8], octets: &mut [u8], outcome: &mut Outcome) -> u32
    ensures { DecodesText base64 text.now octets.old result octets.new outcome.new }
{
    let chars = text.len() - count_marks(text);
    let length = chars / 4 * 3 + chars % 4 * 6 / 8;
    if octets.len() < length {
        return refuse_room(length, outcome);
    }
    let read = base64::decode_slice(text, &mut octets[..length]);
    report_read(read, length, outcome)
}
