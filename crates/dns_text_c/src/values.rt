//! Strings, names, numbers, TTLs, types, classes and encodings.
ghost use Rattle.c_calls.specs.Codecs.{DecodesText, PrintsOctets};
ghost use Rattle.c_calls.specs.Kinds.{ReportsCode};
ghost use Rattle.c_calls.specs.NameForms.{ComparesNames, ReportsEndsWith};
ghost use Rattle.c_calls.specs.NameWords.{ReportsWordName};
ghost use Rattle.c_calls.specs.Names.{NameAnswer, PrintsName, ReadsNameText, ReportsName, dotted_octets, undotted_octets};
ghost use Rattle.c_calls.specs.Numbers.{ReportsNumber};
ghost use Rattle.c_calls.specs.Reports.{CopiesWhole};
ghost use Rattle.c_calls.specs.Strings.{PrintsString, ReportsOctetString, ReportsString, plain_text, unquoted_text};
ghost use Rattle.c_calls.specs.declared.outcome.Refusal.TheVariants.{BadTtl, UnknownClass, UnknownType};
ghost use Rattle.dns_charstr.specs.Printed.{quoted_text};
ghost use Rattle.dns_codec.specs.Base.{base16, base32hex, base64};
ghost use Rattle.dns_wire.specs.Order.{lowered_wire};
ghost use Rattle.dns_wire.specs.ZoneText.{zone_text};
ghost use Rattle.rdata_values.specs.Classes.{SpellsClass, class_text};
ghost use Rattle.rdata_values.specs.Ttl.{SpellsTtl};
ghost use Rattle.rdata_values.specs.Types.{SpellsType, type_text};

use c_calls::codecs::{
    base16_print, base16_read, base32hex_print, base32hex_read, base64_print, base64_read,
};
use c_calls::kinds::{class_print, class_read, ttl_read, type_print, type_read};
use c_calls::name_forms::{name_canonical, name_compare, name_ends_with};
use c_calls::name_words::name_read_octets;
use c_calls::names::{name_print, name_print_dotted, name_print_zone, name_read};
use c_calls::numbers::number_read;
use c_calls::outcome::Outcome;
use c_calls::strings::{
    charstr_print, charstr_print_quoted, charstr_print_unquoted, charstr_read, charstr_read_octets,
};
use rdata_values::{Class, RecordType};

/// Parses the characters of a character string: [`charstr_read`].
#[unsafe(no_mangle)]
pub extern "C" fn dnstext_charstr_read(text: &[u8], octets: &mut [u8], outcome: &mut Outcome) -> u32
    ensures { ReportsString text.now octets.old result octets.new outcome.new }
{
    charstr_read(text, octets, outcome)
}

/// Parses the octets of a character string: [`charstr_read_octets`].
#[unsafe(no_mangle)]
pub extern "C" fn dnstext_charstr_read_octets(
    text: &[u8],
    octets: &mut [u8],
    outcome: &mut Outcome,
) -> u32
    ensures { ReportsOctetString text.now octets.old result octets.new outcome.new }
{
    charstr_read_octets(text, octets, outcome)
}

/// Prints a character string: [`charstr_print`].
#[unsafe(no_mangle)]
pub extern "C" fn dnstext_charstr_print(
    octets: &[u8],
    text: &mut [u8],
    outcome: &mut Outcome,
) -> u32
    ensures { PrintsString plain_text octets.now text.old result text.new outcome.new }
{
    charstr_print(octets, text, outcome)
}

/// Prints a character string between double quotes: [`charstr_print_quoted`].
#[unsafe(no_mangle)]
pub extern "C" fn dnstext_charstr_print_quoted(
    octets: &[u8],
    text: &mut [u8],
    outcome: &mut Outcome,
) -> u32
    ensures { PrintsString quoted_text octets.now text.old result text.new outcome.new }
{
    charstr_print_quoted(octets, text, outcome)
}

/// Prints a character string as a word: [`charstr_print_unquoted`].
#[unsafe(no_mangle)]
pub extern "C" fn dnstext_charstr_print_unquoted(
    octets: &[u8],
    text: &mut [u8],
    outcome: &mut Outcome,
) -> u32
    ensures { PrintsString unquoted_text octets.now text.old result text.new outcome.new }
{
    charstr_print_unquoted(octets, text, outcome)
}

/// Parses a name: [`name_read`].
#[unsafe(no_mangle)]
pub extern "C" fn dnstext_name_read(
    text: &[u8],
    name: &mut [u8],
    is_absolute: &mut u8,
    outcome: &mut Outcome,
) -> u32
    ensures { (answer : NameAnswer) × ReadsNameText text.now answer
        × ReportsName answer name.old is_absolute.old result name.new is_absolute.new outcome.new }
{
    name_read(text, name, is_absolute, outcome)
}

/// Prints a name without a dot at the end: [`name_print`].
#[unsafe(no_mangle)]
pub extern "C" fn dnstext_name_print(name: &[u8], text: &mut [u8], outcome: &mut Outcome) -> u32
    ensures { PrintsName undotted_octets name.now text.old result text.new outcome.new }
{
    name_print(name, text, outcome)
}

/// Prints a name with its dot at the end: [`name_print_dotted`].
#[unsafe(no_mangle)]
pub extern "C" fn dnstext_name_print_dotted(
    name: &[u8],
    text: &mut [u8],
    outcome: &mut Outcome,
) -> u32
    ensures { PrintsName dotted_octets name.now text.old result text.new outcome.new }
{
    name_print_dotted(name, text, outcome)
}

/// Prints a name as in zone files: [`name_print_zone`].
#[unsafe(no_mangle)]
pub extern "C" fn dnstext_name_print_zone(
    name: &[u8],
    text: &mut [u8],
    outcome: &mut Outcome,
) -> u32
    ensures { PrintsName zone_text name.now text.old result text.new outcome.new }
{
    name_print_zone(name, text, outcome)
}

/// Parses a word of a zone file as a name: [`name_read_octets`].
#[unsafe(no_mangle)]
pub extern "C" fn dnstext_name_read_octets(
    text: &[u8],
    origin: &[u8],
    name: &mut [u8],
    outcome: &mut Outcome,
) -> u32
    ensures { ReportsWordName text.now origin.now name.old result name.new outcome.new }
{
    name_read_octets(text, origin, name, outcome)
}

/// Converts a name to canonical form: [`name_canonical`].
#[unsafe(no_mangle)]
pub extern "C" fn dnstext_name_canonical(name: &[u8], form: &mut [u8], outcome: &mut Outcome) -> u32
    ensures { PrintsName lowered_wire name.now form.old result form.new outcome.new }
{
    name_canonical(name, form, outcome)
}

/// Compares names in canonical order: [`name_compare`].
#[unsafe(no_mangle)]
pub extern "C" fn dnstext_name_compare(
    a: &[u8],
    b: &[u8],
    order: &mut i32,
    outcome: &mut Outcome,
) -> u32
    ensures { ComparesNames a.now b.now order.old result order.new outcome.new }
{
    name_compare(a, b, order, outcome)
}

/// Compares the last labels of a name: [`name_ends_with`].
#[unsafe(no_mangle)]
pub extern "C" fn dnstext_name_ends_with(
    name: &[u8],
    zone: &[u8],
    does: &mut u8,
    outcome: &mut Outcome,
) -> u32
    ensures { ReportsEndsWith name.now zone.now does.old result does.new outcome.new }
{
    name_ends_with(name, zone, does, outcome)
}

/// Parses a number: [`number_read`].
#[unsafe(no_mangle)]
pub extern "C" fn dnstext_number_read(
    text: &[u8],
    greatest: u64,
    number: &mut u64,
    outcome: &mut Outcome,
) -> u32
    ensures { ReportsNumber greatest text.now number.old result number.new outcome.new }
{
    number_read(text, greatest, number, outcome)
}

/// Parses a TTL: [`ttl_read`].
#[unsafe(no_mangle)]
pub extern "C" fn dnstext_ttl_read(text: &[u8], seconds: &mut u32, outcome: &mut Outcome) -> u32
    ensures { ReportsCode SpellsTtl BadTtl text.now seconds.old result seconds.new outcome.new }
{
    ttl_read(text, seconds, outcome)
}

/// Parses a type: [`type_read`].
#[unsafe(no_mangle)]
pub extern "C" fn dnstext_type_read(text: &[u8], code: &mut u16, outcome: &mut Outcome) -> u32
    ensures { ReportsCode SpellsType UnknownType text.now code.old result code.new outcome.new }
{
    type_read(text, code, outcome)
}

/// Prints a type: [`type_print`].
#[unsafe(no_mangle)]
pub extern "C" fn dnstext_type_print(rtype: u16, text: &mut [u8], outcome: &mut Outcome) -> u32
    ensures { CopiesWhole (type_text rtype) text.old result text.new outcome.new }
{
    type_print(RecordType(rtype), text, outcome)
}

/// Parses a class: [`class_read`].
#[unsafe(no_mangle)]
pub extern "C" fn dnstext_class_read(text: &[u8], code: &mut u16, outcome: &mut Outcome) -> u32
    ensures { ReportsCode SpellsClass UnknownClass text.now code.old result code.new outcome.new }
{
    class_read(text, code, outcome)
}

/// Prints a class: [`class_print`].
#[unsafe(no_mangle)]
pub extern "C" fn dnstext_class_print(class: u16, text: &mut [u8], outcome: &mut Outcome) -> u32
    ensures { CopiesWhole (class_text class) text.old result text.new outcome.new }
{
    class_print(Class(class), text, outcome)
}

/// Prints base 16: [`base16_print`].
#[unsafe(no_mangle)]
pub extern "C" fn dnstext_base16_print(octets: &[u8], text: &mut [u8], outcome: &mut Outcome) -> u32
    ensures { PrintsOctets base16 octets.now text.old result text.new outcome.new }
{
    base16_print(octets, text, outcome)
}

/// Parses base 16: [`base16_read`].
#[unsafe(no_mangle)]
pub extern "C" fn dnstext_base16_read(text: &[u8], octets: &mut [u8], outcome: &mut Outcome) -> u32
    ensures { DecodesText base16 text.now octets.old result octets.new outcome.new }
{
    base16_read(text, octets, outcome)
}

/// Prints base32hex: [`base32hex_print`].
#[unsafe(no_mangle)]
pub extern "C" fn dnstext_base32hex_print(
    octets: &[u8],
    text: &mut [u8],
    outcome: &mut Outcome,
) -> u32
    ensures { PrintsOctets base32hex octets.now text.old result text.new outcome.new }
{
    base32hex_print(octets, text, outcome)
}

/// Parses base32hex: [`base32hex_read`].
#[unsafe(no_mangle)]
pub extern "C" fn dnstext_base32hex_read(
    text: &[u8],
    octets: &mut [u8],
    outcome: &mut Outcome,
) -> u32
    ensures { DecodesText base32hex text.now octets.old result octets.new outcome.new }
{
    base32hex_read(text, octets, outcome)
}

/// Prints base 64: [`base64_print`].
#[unsafe(no_mangle)]
pub extern "C" fn dnstext_base64_print(octets: &[u8], text: &mut [u8], outcome: &mut Outcome) -> u32
    ensures { PrintsOctets base64 octets.now text.old result text.new outcome.new }
{
    base64_print(octets, text, outcome)
}

/// Parses base 64: [`base64_read`].
#[unsafe(no_mangle)]
pub extern "C" fn dnstext_base64_read(text: &[u8], octets: &mut [u8], outcome: &mut Outcome) -> u32
    ensures { DecodesText base64 text.now octets.old result octets.new outcome.new }
{
    base64_read(text, octets, outcome)
}
