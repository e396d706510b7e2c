//! The fields of records: each parses from the text that it prints.
ghost use Rattle.std.specs.Prelude.{◌≡◌, ◌<◌, List, [], ◌∷◌, ◌++◌, All, OnOk, Ok, Result};
ghost use Rattle.dns_symbol.specs.Cause.{Cause};
ghost use Rattle.dns_scan.specs.Reads.{ReadsFirstToken, OctetsRead};
ghost use Rattle.dns_scan.specs.Tokens.{Token};
ghost use Rattle.dns_zone.specs.Layout.{token};
ghost use Rattle.dns_zone.specs.EntryFields.{text_octets};
ghost use Rattle.custom_record.specs.FieldLaws.{number8_back, number16_back, number32_back, string_back, long_text_back, both_back, name_read};
ghost use Rattle.custom_record.specs.ReadsBack.{FieldBack, ParsesAs, ParsesFields, ReadsFive, ReadsThree, five_values, three_values};
ghost use Rattle.custom_record.specs.SpellingLaws.{number8_only, number16_only, number32_only, string_only, long_text_only, both_only, name_only};
ghost use Rattle.custom_record.specs.Spellings.{AreSpellingsOf};
ghost use Rattle.custom_record.specs.Values.{Value, number8, number16, number32, name, string, long_text, AreValues, AreTexts};
ghost use Rattle.custom_record.specs.Parts.{string_step};
ghost use Rattle.dns_zone.specs.EntryLines.{field_step};

use dns_charstr::charstr::{CharStr, DisplayQuoted};
use dns_iter::{IterScanner, ScanOctets};
use dns_octets::{AsOctets, Ttl};
use dns_scan::{Scan, Scanner, ScannerError};
use dns_wire::Name;
use dns_zone::zonefile_fmt::{self, FormatWriter, Formatter};
use std::marker::Model;

/// A value that is one field of a record, or several in a row.
pub trait FieldValue: Sized {
    // The values of the fields.
    ghost values: { Self → List Value };

    /// States that each field can be printed, which always holds, and does nothing else.
    fn known(&self)
        ensures { AreValues (values self.now) };
}

impl FieldValue for u8 {
    ghost values = { λ n. number8 n ∷ [] };

    fn known(&self) {
        let _value = *self;
    }
}

impl FieldValue for u16 {
    ghost values = { λ n. number16 n ∷ [] };

    fn known(&self) {
        let _value = *self;
    }
}

impl FieldValue for u32 {
    ghost values = { λ n. number32 n ∷ [] };

    fn known(&self) {
        let _value = *self;
    }
}

impl FieldValue for Ttl {
    ghost values = { λ n. number32 n ∷ [] };

    fn known(&self) {
        let _value = self.as_secs();
    }
}

impl<Octets: AsOctets> FieldValue for Name<Octets> {
    ghost values = { λ labels. name labels ∷ [] };

    fn known(&self) {
        let _name = self.as_slice();
        let _octets = self.as_octets().as_slice();
    }
}

impl<Octets: AsOctets> FieldValue for CharStr<Octets> {
    ghost values = { λ octets. string octets ∷ [] };

    fn known(&self) {
        let _octets = self.as_slice();
    }
}

/// A text of any length in one token, which prints as a character string does: the value of CAA
/// (RFC 8659 section 4.1).
#[derive(Drop)]
pub struct LongText<Octets: AsOctets> {
    octets: Octets,
}

impl<Octets: AsOctets> Model for LongText<Octets> {
    ghost use Rattle.std.specs.Prelude.{List, ℕ};

    ghost Value = { List ℕ };

    ghost view = { λ s. Octets.octets s.octets };
}

impl<Octets: AsOctets> LongText<Octets> {
    /// Returns the octets as a text.
    pub fn new(octets: Octets) -> Self
        ensures { result ≡ Octets.octets octets }
    {
        LongText { octets }
    }

    /// Returns the octets.
    pub fn as_slice(&self) -> &[u8]
        ensures value { result.now ≡ self.now }
        ensures bytes { All (λ o. o < 256) self.now }
    {
        self.octets.as_slice()
    }
}

impl<Octets: AsOctets> FieldValue for LongText<Octets> {
    ghost values = { λ octets. long_text octets ∷ [] };

    fn known(&self) {
        let _octets = self.as_slice();
    }
}

/// Parses a token of any number of octets, as [`Scanner::scan_octets`] does.
impl<S: Scanner> Scan<S> for LongText<S::Octets> {
    ghost scan_reads = { ReadsFirstToken (OctetsRead S.OctetsBuilder.room) };

    fn scan(scanner: &mut S) -> Result<Self, S::Error> {
        match scanner.scan_octets() {
            Ok(octets) => Ok(LongText { octets }),
            Err(error) => Err(error),
        }
    }
}

impl<A: FieldValue, B: FieldValue> FieldValue for (A, B) {
    ghost values = { λ pair. A.values pair.0 ++ B.values pair.1 };

    fn known(&self) {
        self.0.known();
        self.1.known();
    }
}

/// A value that parses from the texts that it prints.
pub trait Field<S: Scanner>: FieldValue + Scan<S> {
    // The texts of its fields parse as the value, or a field doesn't fit.
    ghost back: { (x : Self) (tokens others rest : List Token) (r : Result Self Cause) → AreValues (Self.values x) → AreTexts (Self.values x) tokens others
        → Self.scan_reads tokens r rest → FieldBack S.OctetsBuilder.room Self.values (Self.values x) others r rest };

    // Tokens that parse as a value spell its fields.
    ghost only: { (x : Self) (tokens rest : List Token) → Self.scan_reads tokens (Ok x) rest → AreSpellingsOf (Self.values x) tokens rest };
}

impl<S: Scanner> Field<S> for u8 {
    ghost back = { number8_back S.OctetsBuilder.room };

    ghost only = { number8_only };
}

impl<S: Scanner> Field<S> for u16 {
    ghost back = { number16_back S.OctetsBuilder.room };

    ghost only = { number16_only };
}

impl<S: Scanner> Field<S> for u32 {
    ghost back = { number32_back S.OctetsBuilder.room };

    ghost only = { number32_only };
}

impl<S: Scanner> Field<S> for Ttl {
    ghost back = { number32_back S.OctetsBuilder.room };

    ghost only = { number32_only };
}

impl<S: Scanner> Field<S> for CharStr<S::Octets> {
    ghost back = { string_back S.OctetsBuilder.room };

    ghost only = { string_only S.OctetsBuilder.room };
}

impl<S: Scanner> Field<S> for LongText<S::Octets> {
    ghost back = { long_text_back S.OctetsBuilder.room };

    ghost only = { long_text_only S.OctetsBuilder.room };
}

impl<S: Scanner, A: Field<S> + Drop, B: Field<S>> Field<S> for (A, B) {
    ghost back = { both_back S.OctetsBuilder.room A.values B.values A.scan_reads B.scan_reads A.back B.back };

    ghost only = { both_only A.values B.values A.scan_reads B.scan_reads A.only B.only };
}

impl<'a, Iter: Iterator<Item = &'a str>, Octets: ScanOctets, E: ScannerError> Field<
    IterScanner<Iter, Octets, E>,
> for Name<Octets> {
    ghost back = { name_read Octets E.cause Octets.Builder.room };

    ghost only = { name_only Octets E.cause Octets.Builder.room };
}

/// Parses the texts of fields: they parse as the same values, and the tokens after them remain.
/// Parsing their texts fails for lack of capacity or memory only if a field of the record exceeds
/// the guaranteed capacity. Tokens that don't spell such fields are rejected, with the error of the
/// first field that is rejected.
pub fn scan_fields<S: Scanner, T: Field<S>>(scanner: &mut S) -> Result<T, S::Error>
    requires { S.can_scan scanner.old }
    ensures ready { S.can_scan scanner.new }
    ensures fields { ParsesFields S.next_token S.Error.cause S.OctetsBuilder.room T.values
        scanner.old result scanner.new }
    ensures reads { ParsesAs S.next_token S.Error.cause T.scan_reads
        scanner.old result scanner.new }
{
    T::scan(scanner)
}

/// Parses the texts of three values in a row, as [`scan_fields`] does those of one.
pub fn scan_three<S: Scanner, A, B, C>(scanner: &mut S) -> Result<(A, B, C), S::Error>
where
    A: Field<S> + Drop,
    B: Field<S> + Drop,
    C: Field<S>,
    requires { S.can_scan scanner.old }
    ensures ready { S.can_scan scanner.new }
    ensures fields { ParsesFields S.next_token S.Error.cause S.OctetsBuilder.room
        (three_values A.values B.values C.values)
        scanner.old result scanner.new }
    ensures reads { ParsesAs S.next_token S.Error.cause
        (ReadsThree A.scan_reads B.scan_reads C.scan_reads) scanner.old result scanner.new }
{
    let (a, others) = scan_fields::<S, (A, (B, C))>(scanner)?;
    let (b, c) = others;
    Ok((a, b, c))
}

/// Parses the texts of five values in a row, as [`scan_fields`] does those of one.
pub fn scan_five<S: Scanner, A, B, C, D, E>(scanner: &mut S) -> Result<(A, B, C, D, E), S::Error>
where
    A: Field<S> + Drop,
    B: Field<S> + Drop,
    C: Field<S> + Drop,
    D: Field<S> + Drop,
    E: Field<S>,
    requires { S.can_scan scanner.old }
    ensures ready { S.can_scan scanner.new }
    ensures fields { ParsesFields S.next_token S.Error.cause S.OctetsBuilder.room
        (five_values A.values B.values C.values D.values E.values)
        scanner.old result scanner.new }
    ensures reads { ParsesAs S.next_token S.Error.cause
        (ReadsFive A.scan_reads B.scan_reads C.scan_reads D.scan_reads E.scan_reads)
        scanner.old result scanner.new }
{
    let (a, others) = scan_fields::<S, (A, (B, (C, (D, E))))>(scanner)?;
    let (b, others) = others;
    let (c, others) = others;
    let (d, e) = others;
    Ok((a, b, c, d, e))
}

/// Prints a character string as one token, between double quotes.
pub fn write_quoted<F: FormatWriter, Octets: AsOctets>(
    p: &mut F,
    string: &CharStr<Octets>,
) -> zonefile_fmt::Result
    ensures blocks { OnOk result (F.blocks p.new ≡ F.blocks p.old) }
    ensures gives { OnOk result (F.step_gives p.old (string_step string.now) p.new) }
{
    p.write_token(string.display_quoted())
}

/// Prints a character string as one token: without double quotes, unless it is empty.
pub fn write_unquoted<F: FormatWriter, Octets: AsOctets>(
    p: &mut F,
    string: &CharStr<Octets>,
) -> zonefile_fmt::Result
    ensures blocks { OnOk result (F.blocks p.new ≡ F.blocks p.old) }
    ensures gives { OnOk result (F.step_gives p.old (field_step (text_octets string.now)) p.new) }
{
    if string.is_empty() {
        return p.write_token(string.display_quoted());
    }
    p.write_token(string.display_unquoted())
}

/// Prints a text of any length as one token, between double quotes.
pub fn write_long_text<F: FormatWriter, Octets: AsOctets>(
    p: &mut F,
    text: &LongText<Octets>,
) -> zonefile_fmt::Result
    ensures blocks { OnOk result (F.blocks p.new ≡ F.blocks p.old) }
    ensures gives { OnOk result (F.step_gives p.old (string_step text.now) p.new) }
{
    p.write_token(DisplayQuoted::from_slice(text.as_slice()))
}
