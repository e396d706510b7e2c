//! Checks that octets are RDATA of a shape.
ghost use Rattle.std.specs.Prelude.{◌≡◌, ◌↔◌, IsTrue, None, MatchOption, List, ℕ};
ghost use Rattle.rdata_values.specs.Bitmap.{has, types_of, IsBitmap};
ghost use Rattle.rdata.specs.Data.{IsDataOf};
ghost use Rattle.rdata.specs.Printing.{after_fields};
ghost use Rattle.rdata.specs.RestKinds.{has_no_text, rest_form, AreCharacterStrings, IsRestOf, IsTextless};
ghost use Rattle.rdata.specs.TypeLists.{types_form};
ghost use Rattle.rdata.specs.Wire.{BeginsWithFields};

use crate::gateways::is_gateway_key;
use crate::host_identities::is_host_identity;
use crate::locations::is_other_version;
use crate::maybe_strings::is_maybe_string;
use crate::params::are_params;
use crate::prefixes::{are_items, are_prefixes, has_other_family};
use crate::rest::Rest;
use crate::shape::{Shape, has_length};
use rdata_fields::{Field, field_width};
use rdata_tails::is_location;
use rdata_tokens::string_width;
use rdata_values::{BitmapTypes, check_bitmap};

/// Returns the octets after the fields that octets begin with. Returns `None` if they don't begin
/// with these fields.
pub(crate) fn split_fields<'a>(fields: &[Field], octets: &'a [u8]) -> Option<&'a [u8]>
    ensures { MatchOption result ((rest : List ℕ) → BeginsWithFields fields.now octets.now rest → ⊥)
        (λ rest. BeginsWithFields fields.now octets.now rest.now) }
{
    let mut left = octets;
    for field in fields {
        let width = field_width(*field, left)?;
        left = &left[width..];
    }
    Some(left)
}

/// Returns whether octets are character strings, one after another.
fn are_strings(octets: &[u8]) -> bool
    ensures { IsTrue result ↔ AreCharacterStrings octets.now }
{
    let mut left = octets;
    while !left.is_empty() {
        let Some(width) = string_width(left) else {
            return false;
        };
        left = &left[width..];
    }
    true
}

/// Returns whether a bitmap has type 0, which would be the first of its types.
fn has_type_zero(octets: &[u8]) -> bool
    requires { IsBitmap octets.now }
    ensures { result ≡ has (types_of octets.now) 0 }
{
    let mut types = BitmapTypes::new(octets);
    match types.next() {
        Some(first) => first.0 == 0,
        None => false,
    }
}

/// Returns whether octets are the bitmap of types other than 0.
fn are_types(octets: &[u8]) -> bool
    ensures { IsTrue result ↔ types_form.is_wire octets.now }
{
    check_bitmap(octets).is_ok() && !has_type_zero(octets)
}

/// Returns whether octets are a tail in its own form.
pub(crate) fn is_rest(rest: Rest, octets: &[u8]) -> bool
    ensures { IsTrue result ↔ (rest_form None rest).is_wire octets.now }
{
    match rest {
        Rest::Nothing => octets.is_empty(),
        Rest::Strings => are_strings(octets) && !octets.is_empty(),
        Rest::MaybeString => is_maybe_string(octets),
        Rest::Hex => !octets.is_empty(),
        Rest::Base64 => !octets.is_empty(),
        Rest::Nsap => !octets.is_empty(),
        Rest::Types => are_types(octets),
        Rest::SomeTypes => are_types(octets) && !octets.is_empty(),
        Rest::Text => true,
        Rest::QuotedText => true,
        Rest::Location => is_location(octets),
        Rest::Prefixes => are_prefixes(octets),
        Rest::GatewayKey => is_gateway_key(octets),
        Rest::HostIdentity => is_host_identity(octets),
        Rest::Params => are_params(octets),
    }
}

/// Returns whether octets are a tail with only the generic form: a location of a version other than
/// 0, or an address prefix list with an item of a family other than 1 and 2.
fn is_textless(rest: Rest, octets: &[u8]) -> bool
    ensures { IsTrue result ↔ IsTextless rest octets.now }
{
    match rest {
        Rest::Location => is_other_version(octets),
        Rest::Prefixes => are_items(octets) && has_other_family(octets),
        _ => false,
    }
}

/// Returns whether octets are a tail, in its own form or with only the generic one.
fn is_any_rest(rest: Rest, octets: &[u8]) -> bool
    ensures { IsTrue result ↔ IsRestOf rest octets.now }
{
    is_rest(rest, octets) || is_textless(rest, octets)
}

/// Returns whether octets are RDATA of a shape, in its own form or with only the generic one.
pub fn check_data(shape: &Shape, octets: &[u8]) -> bool
    ensures { IsTrue result ↔ IsDataOf shape.now octets.now }
{
    match split_fields(shape.fields, octets) {
        Some(rest) => is_any_rest(shape.rest, rest) && has_length(shape.length, octets),
        None => false,
    }
}

/// Returns the octets after the fields that octets begin with.
fn after_fields<'a>(fields: &[Field], octets: &'a [u8]) -> &'a [u8]
    requires { (back : List ℕ) × BeginsWithFields fields.now octets.now back }
    ensures { result.now ≡ after_fields fields.now octets.now }
{
    match split_fields(fields, octets) {
        Some(back) => back,
        None => unreachable!(),
    }
}

/// Returns whether RDATA of a shape has only the generic form.
pub fn has_no_text(shape: &Shape, octets: &[u8]) -> bool
    requires { IsDataOf shape.now octets.now }
    ensures { result
        ≡ has_no_text shape.now.rest (after_fields shape.now.fields.now octets.now) }
{
    match shape.rest {
        Rest::Location => is_other_version(after_fields(shape.fields, octets)),
        Rest::Prefixes => has_other_family(after_fields(shape.fields, octets)),
        _ => false,
    }
}
