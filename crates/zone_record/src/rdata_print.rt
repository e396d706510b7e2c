//! Prints RDATA in presentation format.
ghost use Rattle.std.specs.Prelude.{◌≡◌, ◌≤◌, ℕ, List, [], ◌∷◌, None, length, take, OnOk, OnErr};
ghost use Rattle.rdata_fields.specs.Fields.{field_form};
ghost use Rattle.rdata_tokens.specs.NameSpelling.{IsWireName};
ghost use Rattle.rdata.specs.Data.{IsDataOf, IsTextData};
ghost use Rattle.rdata.specs.Digits.{digits_form};
ghost use Rattle.rdata.specs.GatewayKeys.{gateway_form, gateway_key_form};
ghost use Rattle.rdata.specs.Generic.{generic_form};
ghost use Rattle.rdata.specs.HostIdentities.{hit_form, host_identity_form, server_form, IsHit};
ghost use Rattle.rdata.specs.LocationRest.{location_form};
ghost use Rattle.rdata.specs.MaybeStrings.{printed_maybe_string};
ghost use Rattle.rdata.specs.NsapRest.{nsap_form};
ghost use Rattle.rdata.specs.ParamsRest.{params_form};
ghost use Rattle.rdata.specs.PrefixLists.{prefixes_form};
ghost use Rattle.rdata.specs.Printing.{field_size, printed_data, printed_parts};
ghost use Rattle.zone_record.specs.RdataPrinting.{FailsInTokens, PrintsTokens, token_step};
ghost use Rattle.rdata.specs.RestKinds.{rest_form, strings_form};
ghost use Rattle.rdata.specs.TokenForms.{AreParts, each_form};
ghost use Rattle.rdata.specs.TypeLists.{types_form};
ghost use Rattle.rdata.specs.Wire.{BeginsWithFields};

use dns_codec::{base16, base64};
use dns_zone::zonefile_fmt::{self, FormatWriter, Formatter};
use rdata::gateways::{NAME, key_gateway_width};
use rdata::host_identities::servers_offset;
use rdata::{FieldText, Rest, Shape, has_no_text};
use rdata_fields::{Field, field_width};
use rdata_svcb::{ParamText, Params};
use rdata_tails::{Gateway, NsapText, Prefix, item_width, location_words};
use rdata_tokens::{DigitsKind, NameText, QuotedOctets, name_width};
use rdata_values::{BitmapTypes, PortableType, Salt};

/// Returns the length in octets of the field that octets begin with.
fn first_width(field: Field, octets: &[u8]) -> usize
    requires { (rest : List ℕ) × BeginsWithFields (field ∷ []) octets.now rest }
    ensures size { result ≡ field_size field octets.now }
    ensures wire { (field_form None field).is_wire (take result octets.now) }
    ensures fits { result ≤ length octets.now }
{
    match field_width(field, octets) {
        Some(width) => width,
        None => unreachable!(),
    }
}

/// Prints character strings, each of which follows its length, between double quotes.
fn write_strings<F: FormatWriter>(octets: &[u8], p: &mut F) -> zonefile_fmt::Result
    ensures gives { PrintsTokens F.blocks F.step_gives p.old
        ((strings_form None).printed octets.now) result p.new }
    ensures fails { FailsInTokens F.blocks F.step_gives F.step_fails p.old
        ((strings_form None).printed octets.now) result }
{
    let mut rest = octets;
    while !rest.is_empty() {
        let count = usize::from(rest[0]).min(rest.len() - 1);
        p.write_token(QuotedOctets(&rest[1..1 + count]))?;
        rest = &rest[1 + count..];
    }
    Ok(())
}

/// Prints a character string between double quotes, or nothing if there are no octets.
fn write_maybe_string<F: FormatWriter>(octets: &[u8], p: &mut F) -> zonefile_fmt::Result
    ensures gives { PrintsTokens F.blocks F.step_gives p.old
        (printed_maybe_string octets.now) result p.new }
    ensures fails { FailsInTokens F.blocks F.step_gives F.step_fails p.old
        (printed_maybe_string octets.now) result }
{
    if octets.is_empty() {
        return Ok(());
    }
    p.write_token(QuotedOctets(&octets[1..]))
}

/// Prints octets in digits as one word, or as no word if there are none.
fn write_digits<F: FormatWriter>(kind: DigitsKind, octets: &[u8], p: &mut F) -> zonefile_fmt::Result
    ensures gives { PrintsTokens F.blocks F.step_gives p.old
        ((digits_form kind).printed octets.now) result p.new }
    ensures fails { FailsInTokens F.blocks F.step_gives F.step_fails p.old
        ((digits_form kind).printed octets.now) result }
{
    if octets.is_empty() {
        return Ok(());
    }
    match kind {
        DigitsKind::Hex => p.write_token(base16::encode_display(octets)),
        DigitsKind::Base64 => p.write_token(base64::encode_display(octets)),
    }
}

/// Prints the types of a bitmap, each as a word.
fn write_types<F: FormatWriter>(octets: &[u8], p: &mut F) -> zonefile_fmt::Result
    ensures gives { PrintsTokens F.blocks F.step_gives p.old
        (types_form.printed octets.now) result p.new }
    ensures fails { FailsInTokens F.blocks F.step_gives F.step_fails p.old
        (types_form.printed octets.now) result }
{
    for rtype in BitmapTypes::new(octets) {
        p.write_token(PortableType(rtype))?;
    }
    Ok(())
}

/// Prints RDATA in the generic format (RFC 3597 section 5): `\#`, the number of octets, and the octets
/// in hexadecimal as one word, or no word if there are none. Fails only if the writer does.
pub fn write_generic<F: FormatWriter>(octets: &[u8], p: &mut F) -> zonefile_fmt::Result
    ensures gives { PrintsTokens F.blocks F.step_gives p.old
        (generic_form.printed octets.now) result p.new }
    ensures fails { FailsInTokens F.blocks F.step_gives F.step_fails p.old
        (generic_form.printed octets.now) result }
{
    p.write_token("\\#")?;
    p.write_token(octets.len())?;
    write_digits(DigitsKind::Hex, octets, p)
}

/// Prints the items of an address prefix list, each as a word.
fn write_prefixes<F: FormatWriter>(octets: &[u8], p: &mut F) -> zonefile_fmt::Result
    requires { prefixes_form.is_wire octets.now }
    ensures gives { PrintsTokens F.blocks F.step_gives p.old
        (prefixes_form.printed octets.now) result p.new }
    ensures fails { FailsInTokens F.blocks F.step_gives F.step_fails p.old
        (prefixes_form.printed octets.now) result }
{
    let mut rest = octets;
    while !rest.is_empty() {
        let Some(width) = item_width(rest) else {
            unreachable!()
        };
        let Some(item) = Prefix::from_octets(rest) else {
            unreachable!()
        };
        p.write_token(item)?;
        rest = &rest[width..];
    }
    Ok(())
}

/// Prints the words of a location.
fn write_location<F: FormatWriter>(octets: &[u8], p: &mut F) -> zonefile_fmt::Result
    requires { location_form.is_wire octets.now }
    ensures gives { PrintsTokens F.blocks F.step_gives p.old
        (location_form.printed octets.now) result p.new }
    ensures fails { FailsInTokens F.blocks F.step_gives F.step_fails p.old
        (location_form.printed octets.now) result }
{
    let Some(words) = location_words(octets) else {
        unreachable!()
    };
    for word in words.iter() {
        p.write_token(*word)?;
    }
    Ok(())
}

/// Prints a gateway of a type as a word.
fn write_gateway<F: FormatWriter>(number: u8, octets: &[u8], p: &mut F) -> zonefile_fmt::Result
    requires { (gateway_form None number).is_wire octets.now }
    ensures blocks { OnOk result (F.blocks p.new ≡ F.blocks p.old) }
    ensures gives { OnOk result (F.step_gives p.old
        (token_step ((gateway_form None number).printed octets.now)) p.new) }
    ensures fails { OnErr result (F.step_fails p.old
        (token_step ((gateway_form None number).printed octets.now))) }
{
    if number == NAME {
        return p.write_token(NameText(octets));
    }
    match Gateway::from_octets(number, octets) {
        Some(gateway) => p.write_token(gateway),
        None => unreachable!(),
    }
}

/// Prints the type of a gateway, an algorithm, the gateway, and the key as one word.
fn write_gateway_key<F: FormatWriter>(octets: &[u8], p: &mut F) -> zonefile_fmt::Result
    requires { (gateway_key_form None).is_wire octets.now }
    ensures gives { PrintsTokens F.blocks F.step_gives p.old
        ((gateway_key_form None).printed octets.now) result p.new }
    ensures fails { FailsInTokens F.blocks F.step_gives F.step_fails p.old
        ((gateway_key_form None).printed octets.now) result }
{
    let width = key_gateway_width(octets);
    let number = octets[0];
    let rest = &octets[2..];
    p.write_token(number)?;
    p.write_token(octets[1])?;
    write_gateway(number, &rest[..width], p)?;
    write_digits(DigitsKind::Base64, &rest[width..], p)
}

/// Prints names, each as a word.
fn write_servers<F: FormatWriter>(octets: &[u8], p: &mut F) -> zonefile_fmt::Result
    requires { AreParts IsWireName octets.now }
    ensures gives { PrintsTokens F.blocks F.step_gives p.old
        ((each_form (server_form None)).printed octets.now) result p.new }
    ensures fails { FailsInTokens F.blocks F.step_gives F.step_fails p.old
        ((each_form (server_form None)).printed octets.now) result }
{
    let mut rest = octets;
    while !rest.is_empty() {
        let Some(width) = name_width(rest) else {
            unreachable!()
        };
        p.write_token(NameText(&rest[..width]))?;
        rest = &rest[width..];
    }
    Ok(())
}

/// Prints a host identity tag as a word.
fn write_hit<F: FormatWriter>(octets: &[u8], p: &mut F) -> zonefile_fmt::Result
    requires { IsHit octets.now }
    ensures blocks { OnOk result (F.blocks p.new ≡ F.blocks p.old) }
    ensures gives { OnOk result (F.step_gives p.old
        (token_step (hit_form.printed octets.now)) p.new) }
    ensures fails { OnErr result (F.step_fails p.old
        (token_step (hit_form.printed octets.now))) }
{
    match Salt::from_octets(octets) {
        Some(hit) => p.write_token(hit),
        None => unreachable!(),
    }
}

/// Prints an algorithm, a host identity tag, a public key as one word, and the names of servers.
fn write_host_identity<F: FormatWriter>(octets: &[u8], p: &mut F) -> zonefile_fmt::Result
    requires { (host_identity_form None).is_wire octets.now }
    ensures gives { PrintsTokens F.blocks F.step_gives p.old
        ((host_identity_form None).printed octets.now) result p.new }
    ensures fails { FailsInTokens F.blocks F.step_gives F.step_fails p.old
        ((host_identity_form None).printed octets.now) result }
{
    let Some(end) = servers_offset(octets) else {
        unreachable!()
    };
    let start = 4 + usize::from(octets[0]);
    p.write_token(octets[1])?;
    write_hit(&octets[4..start], p)?;
    p.write_token(base64::encode_display(&octets[start..end]))?;
    write_servers(&octets[end..], p)
}

/// Prints service parameters, each as a word.
fn write_params<F: FormatWriter>(octets: &[u8], p: &mut F) -> zonefile_fmt::Result
    ensures gives { PrintsTokens F.blocks F.step_gives p.old
        (params_form.printed octets.now) result p.new }
    ensures fails { FailsInTokens F.blocks F.step_gives F.step_fails p.old
        (params_form.printed octets.now) result }
{
    for param in Params::new(octets) {
        p.write_token(ParamText {
            key: param.key,
            value: param.value,
        })?;
    }
    Ok(())
}

/// Prints the address of a network service as a word.
fn write_nsap<F: FormatWriter>(octets: &[u8], p: &mut F) -> zonefile_fmt::Result
    ensures gives { PrintsTokens F.blocks F.step_gives p.old
        (nsap_form.printed octets.now) result p.new }
    ensures fails { FailsInTokens F.blocks F.step_gives F.step_fails p.old
        (nsap_form.printed octets.now) result }
{
    p.write_token(NsapText(octets))
}

/// Prints a tail.
fn write_rest<F: FormatWriter>(rest: Rest, octets: &[u8], p: &mut F) -> zonefile_fmt::Result
    requires { (rest_form None rest).is_wire octets.now }
    ensures gives { PrintsTokens F.blocks F.step_gives p.old
        ((rest_form None rest).printed octets.now) result p.new }
    ensures fails { FailsInTokens F.blocks F.step_gives F.step_fails p.old
        ((rest_form None rest).printed octets.now) result }
{
    match rest {
        Rest::Nothing => Ok(()),
        Rest::Strings => write_strings(octets, p),
        Rest::MaybeString => write_maybe_string(octets, p),
        Rest::Hex => write_digits(DigitsKind::Hex, octets, p),
        Rest::Base64 => write_digits(DigitsKind::Base64, octets, p),
        Rest::Nsap => write_nsap(octets, p),
        Rest::Types | Rest::SomeTypes => write_types(octets, p),
        Rest::Text | Rest::QuotedText => p.write_token(QuotedOctets(octets)),
        Rest::Location => write_location(octets, p),
        Rest::Prefixes => write_prefixes(octets, p),
        Rest::GatewayKey => write_gateway_key(octets, p),
        Rest::HostIdentity => write_host_identity(octets, p),
        Rest::Params => write_params(octets, p),
    }
}

/// Prints RDATA of a shape in the presentation format of its type: a token for each of the fields,
/// and then the tokens of the tail.
fn write_parts<F: FormatWriter>(shape: &Shape, octets: &[u8], p: &mut F) -> zonefile_fmt::Result
    requires { IsTextData shape.now octets.now }
    ensures gives { PrintsTokens F.blocks F.step_gives p.old
        (printed_parts shape.now.fields.now shape.now.rest octets.now) result p.new }
    ensures fails { FailsInTokens F.blocks F.step_gives F.step_fails p.old
        (printed_parts shape.now.fields.now shape.now.rest octets.now) result }
{
    let mut rest = octets;
    for field in shape.fields {
        let width = first_width(*field, rest);
        p.write_token(FieldText {
            field: *field,
            octets: &rest[..width],
        })?;
        rest = &rest[width..];
    }
    write_rest(shape.rest, rest, p)
}

/// Prints RDATA of a shape, which is its fields and its tail: in the presentation format of its type,
/// or in the generic format ([`write_generic`]) if it has none.
///
/// The presentation format is a token for each field, and then the tokens of the tail. Names print
/// absolute, character strings and text between double quotes, octets in digits as one word, and
/// types in ascending order.
///
/// Fails only if the writer does, at one of these tokens, after the tokens before it were printed.
pub fn write_data<F: FormatWriter>(shape: &Shape, octets: &[u8], p: &mut F) -> zonefile_fmt::Result
    requires { IsDataOf shape.now octets.now }
    ensures gives { PrintsTokens F.blocks F.step_gives p.old
        (printed_data shape.now octets.now) result p.new }
    ensures fails { FailsInTokens F.blocks F.step_gives F.step_fails p.old
        (printed_data shape.now octets.now) result }
{
    if has_no_text(shape, octets) {
        write_generic(octets, p)
    } else {
        write_parts(shape, octets, p)
    }
}
