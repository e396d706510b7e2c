//! Encodings, one character or symbol after another.
use super::encoding::{Base, Octets};
use arrayvec::ArrayVec;
use dns_codec::base::Encoding;
use dns_codec::base64::DecodeError;
use dns_codec::decoder::Decoder;
use dns_codec::{base16, base32, base64};
use dns_octets::{AsOctets, FreezeBuilder, OctetsBuilder};
use dns_scan::{ConvertSymbols, StrError};
use dns_symbol::symbol::{EntrySymbol, Symbol};
use dns_symbol::symbols::Symbols;
use std::alloc::AllocError;
use std::str;
use test_support::{Answer, Failure};

/// Returns the result of a converter for a symbol; `|` is the end of a token, and `$` the end of
/// all.
fn step<C: ConvertSymbols<EntrySymbol, StrError>>(
    converter: &mut C,
    symbol: Symbol,
) -> Result<(), StrError> {
    match symbol {
        Symbol::Char('$') => converter.take_tail(),
        Symbol::Char('|') => converter.take_symbol(EntrySymbol::EndOfToken),
        _ => converter.take_symbol(EntrySymbol::Symbol(symbol)),
    }
}

/// Makes the same step by the call that returns the octets.
fn lending_step<C: ConvertSymbols<EntrySymbol, StrError>>(
    converter: &mut C,
    symbol: Symbol,
) -> Result<Option<&[u8]>, StrError> {
    match symbol {
        Symbol::Char('$') => converter.process_tail(),
        Symbol::Char('|') => converter.process_symbol(EntrySymbol::EndOfToken),
        _ => converter.process_symbol(EntrySymbol::Symbol(symbol)),
    }
}

/// Returns whether two steps have the same result.
fn are_alike(
    one: Result<Option<&[u8]>, StrError>,
    other: &Result<(), StrError>,
    octets: &[u8],
) -> bool {
    match (one, other) {
        (Ok(lent), Ok(())) => *lent.unwrap_or_default() == *octets,
        (Err(one), Err(other)) => one.as_str() == other.as_str(),
        _ => false,
    }
}

/// Makes the same step, and checks that a clone of the converter returns the same.
fn step_alike<C: ConvertSymbols<EntrySymbol, StrError> + Clone>(
    converter: &mut C,
    symbol: Symbol,
    answer: &mut Answer,
) {
    let copy: Result<C, AllocError> = converter.clone();
    let made = step(converter, symbol);
    match copy {
        Ok(mut copy) => {
            let lent = lending_step(&mut copy, symbol);
            answer.check(are_alike(lent, &made, converter.lent()));
            answer.check(*copy.lent() == *converter.lent());
        }
        Err(_) => answer.fail_for_memory(),
    }
    match made {
        Ok(()) => answer.add(converter.lent()),
        Err(error) => answer.refuse_text(error.as_str()),
    }
}

/// Adds the result of a converter for each symbol of a text, with a comma after each.
fn convert_by<C: ConvertSymbols<EntrySymbol, StrError> + Clone>(
    mut converter: C,
    text: &str,
    answer: &mut Answer,
) {
    let mut symbols = Symbols::new(text.chars());
    for symbol in &mut symbols {
        step_alike(&mut converter, symbol, answer);
        answer.add_text(",");
    }
    answer.check(symbols.ok().is_ok());
}

/// Does the same with a new converter and with a default one.
fn convert_alike<C: ConvertSymbols<EntrySymbol, StrError> + Clone + Default>(
    converter: C,
    text: &str,
    answer: &mut Answer,
) {
    let mut other = answer.another();
    convert_by(C::default(), text, &mut other);
    convert_by(converter, text, answer);
    answer.check_same(&other);
}

/// Does the same for an encoding.
pub fn convert(base: Base, text: &str, answer: &mut Answer) {
    match base {
        Base::Base16 => convert_alike(base16::SymbolConverter::new(), text, answer),
        Base::Base32 => convert_alike(base32::SymbolConverter::new(), text, answer),
        Base::Base64 => convert_alike(base64::SymbolConverter::new(), text, answer),
    }
}

/// Adds the error that a decoder returns.
fn add_error(pushed: Result<(), DecodeError>, answer: &mut Answer) {
    if let Err(error) = pushed {
        answer.refuse(&error);
    }
    answer.add_text(",");
}

/// Adds the result of a decoder for each character of a text, with a comma after each, and at the
/// end.
fn push_by<B: OctetsBuilder + FreezeBuilder + Drop, K: Encoding>(
    mut decoder: Decoder<B, K>,
    text: &str,
    answer: &mut Answer,
)
where
    B::Octets: Drop,
{
    for c in text.chars() {
        add_error(decoder.push(c), answer);
    }
    match decoder.finalize() {
        Ok(octets) => answer.add(octets.as_slice()),
        Err(error) => answer.refuse(&error),
    }
}

/// The array of octets of a default decoder.
type Array = ArrayVec<u8, 64>;

/// Checks that a default decoder has the same results.
fn push_alike<K: Encoding>(decoder: Decoder<Array, K>, text: &str, answer: &mut Answer) {
    let mut other = answer.another();
    push_by(decoder, text, &mut other);
    answer.check_same(&other);
}

/// Does the same for an encoding.
pub fn push(base: Base, text: &str, answer: &mut Answer) {
    let heap = answer.heap();
    match base {
        Base::Base16 => {
            push_by(base16::Decoder::<Octets>::new(heap), text, answer);
            push_alike(base16::Decoder::<Array>::default(), text, answer);
        }
        Base::Base32 => push_by(base32::Decoder::<Octets>::new_hex(heap), text, answer),
        Base::Base64 => {
            push_by(base64::Decoder::<Octets>::new(heap), text, answer);
            push_alike(base64::Decoder::<Array>::default(), text, answer);
        }
    }
}

/// Does the same into an array of that capacity.
pub fn push_into(base: Base, (text, room): (&[u8], usize), answer: &mut Answer) {
    let text = str::from_utf8(text).unwrap_or("");
    match (base, room) {
        (Base::Base16, 0) => {
            push_by(base16::Decoder::<ArrayVec<u8, 0>>::new(()), text, answer);
        }
        (Base::Base32, 3) => {
            push_by(
                base32::Decoder::<ArrayVec<u8, 3>>::new_hex(()),
                text,
                answer,
            );
        }
        (Base::Base64, 2) => {
            push_by(base64::Decoder::<ArrayVec<u8, 2>>::new(()), text, answer);
        }
        _ => answer.fail(Failure::BadInputs),
    }
}
