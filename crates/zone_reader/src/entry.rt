//! Reads an entry of a zone file: a directive, or a record.
ghost use Rattle.std.specs.Prelude.{◌≡◌, ◌≢◌, ◌∷◌, [], None, drop, false, take};
ghost use Rattle.std.specs.Option.{option_copied};
ghost use Rattle.dns_octets.specs.Appending.{Extends};
ghost use Rattle.rdata_fields.specs.Source.{next_place};
ghost use Rattle.zone_reader.specs.EntryReading.{EndsInNumber, IsMinimum, ReadsZoneEntry, ReadsOwner, ReadsRecord, ReadsRecordData, ReadsAfterHeader, minimum_of_record, minimum_of_ttl, explicit_ttl_of, owner_of_record, record_with, declared_by_record, ttl_of_header};
ghost use Rattle.zone_reader.specs.EntrySteps.{AppendsOrigin, FinishesInclude, AppendsFileName, ParsesNextName, ReadsDefaultTtl, ReadsDirective, ReadsLastInclude, ReadsLastOrigin, ReadsRecordTokens, ParsesIncludedOrigin, ParsesLastName, tokens_after_owner, only_token, own_or_last, owner_token};
ghost use Rattle.zone_reader.specs.Learning.{Updates, chosen_ttl};
ghost use Rattle.zone_reader.specs.Past.{NewOrigin, known_name};
ghost use Rattle.zone_reader.specs.declared.entry.ParsedEntry.TheVariants.{Generate};

use crate::known::{NameBuffer, NameState};
use crate::state::{State, parse_name, parse_name_into};
use crate::ttl::RecordTtl;
use crate::{
    Directive, HeaderError, RecordHeader, parse_default_ttl, parse_directive, parse_end,
    parse_file_name, parse_header, ttl_of_seconds,
};
use dns_octets::{AsOctetsMut, OctetsBuilder};
use rdata::read_rdata;
use rdata_fields::{RecordError, TokenSource};
use rdata_values::{Class, ErrorKind, RecordType};

/// The result of reading an entry. Offsets count octets from the start of the text that is read: a
/// zone file, or the text of a generated entry. The end of an entry is that of its tokens, by their
/// source ([`TokenSource::place`]).
#[derive(Clone, Copy)]
pub enum ParsedEntry {
    /// The entry has no tokens.
    Empty,
    /// The entry is `$ORIGIN` or `$TTL`, and the state has changed.
    Directive,
    /// The entry is `$INCLUDE`. The file name is appended to the target of [`read_entry`] as it is
    /// written, without its quotes and with its escapes. If `has_origin`, the origin of the included
    /// file is appended after it, in wire format.
    /// [`include_parts`] splits the two.
    Include {
        /// Offset of the word `$INCLUDE`.
        at: usize,
        /// Offset of the entry's end.
        end: usize,
        /// Length of the file name, in octets.
        file_name_len: usize,
        /// Whether the entry has an origin for the included file.
        has_origin: bool,
    },
    /// The entry is `$GENERATE`. The tokens after that word are skipped, and the state and the
    /// target are unchanged. The caller parses the directive, and reads the entry that it generates
    /// for each number of its range with [`read_text_entry`](crate::read_text_entry).
    Generate {
        /// Offset of the word `$GENERATE`.
        at: usize,
        /// Offset of the entry's end.
        end: usize,
    },
    /// The entry is a record. Its owner is [`State::owner`], and its RDATA is appended to the target
    /// in wire format.
    Record {
        /// Offset of the first token of the record.
        at: usize,
        /// Offset of the first token of the RDATA; without tokens, that of the entry's end.
        data_at: usize,
        /// Offset of the entry's end.
        end: usize,
        ttl: RecordTtl,
        class: Class,
        rtype: RecordType,
    },
}

/// Splits the octets that were appended for [`ParsedEntry::Include`] into the file name and the
/// origin after it, which is in wire format.
pub fn include_parts(appended: &[u8], file_name_len: usize) -> (&[u8], &[u8])
    ensures file { result.0.now ≡ take file_name_len appended.now }
    ensures origin { result.1.now ≡ drop file_name_len appended.now }
{
    let end = file_name_len.min(appended.len());
    (&appended[..end], &appended[end..])
}

/// Parses the next token as a name. The token is consumed on an error too.
fn parse_next_name<S: TokenSource>(
    origin: Option<&NameBuffer>,
    source: &mut S,
) -> Result<NameBuffer, RecordError>
    ensures passes { ParsesNextName (option_copied origin.entry) (S.end source.old).at (S.left source.old) result (S.left source.new) }
    ensures end { S.end source.new ≡ S.end source.old }
{
    match parse_name(origin, source) {
        Ok(name) => Ok(name),
        Err(error) => {
            source.advance();
            Err(error)
        }
    }
}

/// Parses the next token as a name. It must be the last token of the entry: if another one follows,
/// that is the error, also if the name is invalid.
fn parse_last_name<S: TokenSource>(
    origin: Option<&NameBuffer>,
    source: &mut S,
) -> Result<NameBuffer, RecordError>
    ensures takes { ParsesLastName (option_copied origin.entry) (S.end source.old).at (S.left source.old) result }
    ensures end { S.end source.new ≡ S.end source.old }
{
    let at = source.place();
    if source.current().is_none() {
        return Err(RecordError::at(at, ErrorKind::EndOfEntry));
    }
    let name = parse_next_name(origin, source);
    match parse_end(source) {
        Ok(()) => name,
        Err(error) => Err(error),
    }
}

/// Reads the argument of `$ORIGIN`. If it is rejected, no origin is known until the next one.
fn read_origin<S: TokenSource>(
    state: &mut State,
    source: &mut S,
) -> Result<ParsedEntry, RecordError>
    ensures reads { ReadsLastOrigin (known_name state.old.origin) (S.end source.old).at (S.left source.old) result }
    ensures learns { Updates (NewOrigin (only_token (S.left source.old)) ∷ []) state.old state.new }
    ensures end { S.end source.new ≡ S.end source.old }
{
    match parse_last_name(state.origin.name(), source) {
        Ok(name) => {
            state.origin = NameState::Name(name);
            Ok(ParsedEntry::Directive)
        }
        Err(error) => {
            state.origin = NameState::Rejected;
            Err(error)
        }
    }
}

/// Reads the argument of `$TTL`.
fn read_default_ttl<S: TokenSource>(
    state: &mut State,
    source: &mut S,
) -> Result<ParsedEntry, RecordError>
    ensures reads { ReadsDefaultTtl (S.end source.old).at (S.left source.old) state.old result state.new }
    ensures end { S.end source.new ≡ S.end source.old }
{
    match parse_default_ttl(source) {
        Ok(ttl) => {
            state.set_default_ttl(ttl);
            Ok(ParsedEntry::Directive)
        }
        Err(error) => Err(error),
    }
}

/// Parses the file name of `$INCLUDE`, appends it to `target`, and returns its length in octets. The
/// token is consumed on an error too.
fn append_file_name<S: TokenSource, B: OctetsBuilder>(
    source: &mut S,
    target: &mut B,
) -> Result<usize, RecordError>
    ensures passes { AppendsFileName B.room (S.end source.old).at (S.left source.old) (B.octets target.old) result (S.left source.new) (B.octets target.new) }
    ensures end { S.end source.new ≡ S.end source.old }
{
    match parse_file_name(source, target) {
        Ok(count) => Ok(count),
        Err(error) => {
            source.advance();
            Err(error)
        }
    }
}

/// Parses the origin after the file name of `$INCLUDE`, if the entry has one.
fn parse_included_origin<S: TokenSource>(
    origin: Option<&NameBuffer>,
    source: &mut S,
) -> Result<Option<NameBuffer>, RecordError>
    ensures takes { ParsesIncludedOrigin (option_copied origin.entry) (S.end source.old).at (S.left source.old) result }
    ensures end { S.end source.new ≡ S.end source.old }
{
    if source.current().is_none() {
        return Ok(None);
    }
    match parse_last_name(origin, source) {
        Ok(name) => Ok(Some(name)),
        Err(error) => Err(error),
    }
}

/// Appends the origin of an included file, if the entry has one, and returns whether it has. `at` is
/// the offset of an error: that of the file name.
fn append_origin<B: OctetsBuilder>(
    at: usize,
    name: &Option<NameBuffer>,
    target: &mut B,
) -> Result<bool, RecordError>
    ensures { AppendsOrigin B.room at name.now (B.octets target.old) result (B.octets target.new) }
{
    let Some(name) = name else {
        return Ok(false);
    };
    match target.append_slice(name.as_slice()) {
        Ok(()) => Ok(true),
        Err(_) => Err(RecordError::at(at, ErrorKind::ShortBuf)),
    }
}

/// Skips the tokens that are left of an entry, and returns the offset of its end.
#[inline(always)]
fn skip_tokens<S: TokenSource>(source: &mut S) -> usize
    ensures at { result ≡ (S.end source.old).at }
    ensures end { S.end source.new ≡ S.end source.old }
{
    'tokens: while source.current().is_some() {
        source.advance();
    }
    source.place()
}

/// Appends the origin of an `$INCLUDE` after its file name, and returns the entry, which begins and ends
/// at these offsets. `at` is the offset of an error: that of the file name.
fn finish_include<B: OctetsBuilder>(
    begin: usize,
    end: usize,
    at: usize,
    file_name_len: usize,
    origin: &Option<NameBuffer>,
    target: &mut B,
) -> Result<ParsedEntry, RecordError>
    ensures { FinishesInclude B.room begin end at file_name_len origin.now (B.octets target.old) result (B.octets target.new) }
{
    match append_origin(at, origin, target) {
        Ok(has_origin) => Ok(ParsedEntry::Include {
            at: begin,
            end,
            file_name_len,
            has_origin,
        }),
        Err(error) => Err(error),
    }
}

/// Reads the arguments of `$INCLUDE`. If there are several errors, the first of these is returned: a
/// token after the origin; an invalid origin; no room in `target` for the file name or the origin.
/// `begin` is the offset of the directive's first token.
fn read_include<S: TokenSource, B: OctetsBuilder>(
    begin: usize,
    state: &State,
    source: &mut S,
    target: &mut B,
) -> Result<ParsedEntry, RecordError>
    ensures reads { ReadsLastInclude (known_name state.now.origin) B.room begin (S.end source.old).at (S.left source.old) (B.octets target.old) result (B.octets target.new) }
    ensures end { S.end source.new ≡ S.end source.old }
{
    let at = source.place();
    let file_name_len = append_file_name(source, target);
    match parse_included_origin(state.origin.name(), source) {
        Ok(origin) => match file_name_len {
            Ok(file_name_len) => {
                let end = skip_tokens(source);
                finish_include(begin, end, at, file_name_len, &origin, target)
            }
            Err(error) => Err(error),
        },
        Err(error) => Err(error),
    }
}

/// Skips the arguments of `$GENERATE`. `at` is the offset of the directive's first token.
fn read_generate<S: TokenSource>(at: usize, source: &mut S) -> ParsedEntry
    ensures reads { result ≡ Generate at (S.end source.old).at }
    ensures end { S.end source.new ≡ S.end source.old }
{
    let end = skip_tokens(source);
    ParsedEntry::Generate { at, end }
}

/// Reads the arguments of a directive, and skips those of `$GENERATE`. `at` is the offset of the
/// directive's first token.
///
/// Not inlined, so that records are read without the stack space of the names here.
#[inline(never)]
fn read_directive<S: TokenSource, B: OctetsBuilder>(
    directive: Directive,
    at: usize,
    state: &mut State,
    source: &mut S,
    target: &mut B,
) -> Result<ParsedEntry, RecordError>
    ensures reads { ReadsDirective directive B.room at (S.end source.old).at (S.left source.old) state.old (B.octets target.old) result state.new (B.octets target.new) }
    ensures end { S.end source.new ≡ S.end source.old }
{
    match directive {
        Directive::Origin => read_origin(state, source),
        Directive::Ttl => read_default_ttl(state, source),
        Directive::Include => read_include(at, state, source, target),
        Directive::Generate => Ok(read_generate(at, source)),
    }
}

/// Checks that a record without an explicit owner has one: the last explicit owner before it, unless
/// that was rejected.
fn check_owner(state: &State, at: usize) -> Result<(), RecordError>
    ensures { ReadsOwner state.now at None result state.now.owner }
{
    match state.owner() {
        Ok(_) => Ok(()),
        Err(kind) => Err(RecordError::at(at, kind)),
    }
}

/// Parses the owner of a record, and stores it in the state. An invalid one is stored as rejected.
fn parse_owner<S: TokenSource>(state: &mut State, source: &mut S) -> Result<(), RecordError>
    ensures reads { S.left source.old ≢ [] → ReadsOwner state.old (next_place (S.left source.old) (S.end source.old).at) (owner_token false (S.left source.old)) result state.new.owner }
    ensures left { S.left source.new ≡ tokens_after_owner false (S.left source.old) }
    ensures state { state.new ≡ record state.old { owner = state.new.owner } }
    ensures learns { S.left source.old ≢ [] → Updates (owner_of_record (owner_token false (S.left source.old))) state.old state.new }
    ensures end { S.end source.new ≡ S.end source.old }
{
    match parse_name_into(state.origin.name(), source, &mut state.owner) {
        Ok(()) => Ok(()),
        Err(error) => {
            source.advance();
            Err(error)
        }
    }
}

/// Parses the owner of a record, and stores it in the state; or, if the entry begins with a blank,
/// checks that the state has an owner.
fn update_owner<S: TokenSource>(
    state: &mut State,
    begins_blank: bool,
    source: &mut S,
) -> Result<(), RecordError>
    ensures reads { S.left source.old ≢ [] → ReadsOwner state.old (next_place (S.left source.old) (S.end source.old).at) (owner_token begins_blank (S.left source.old)) result state.new.owner }
    ensures left { S.left source.new ≡ tokens_after_owner begins_blank (S.left source.old) }
    ensures state { state.new ≡ record state.old { owner = state.new.owner } }
    ensures learns { S.left source.old ≢ [] → Updates (owner_of_record (owner_token begins_blank (S.left source.old))) state.old state.new }
    ensures end { S.end source.new ≡ S.end source.old }
{
    if begins_blank {
        return check_owner(state, source.place());
    }
    parse_owner(state, source)
}

/// Stores the explicit TTL of a record, if it has one, as the last TTL.
fn set_last_ttl(state: &mut State, ttl: Option<u32>)
    ensures state { state.new ≡ record state.old { last_ttl = own_or_last ttl state.old.last_ttl } }
    ensures learns { Updates (explicit_ttl_of ttl) state.old state.new }
{
    match ttl {
        Some(ttl) => state.last_ttl = Some(ttl),
        None => {}
    }
}

/// If the TTL of a record, an SOA, is its MINIMUM field, stores it as the default TTL, as BIND does.
fn store_minimum(state: &mut State, ttl: RecordTtl)
    ensures owner { state.new.owner ≡ state.old.owner }
    ensures learns { Updates (minimum_of_ttl ttl) state.old state.new }
{
    match ttl {
        RecordTtl::Minimum(seconds) => state.default_ttl = Some(seconds),
        RecordTtl::Explicit(_) => {}
        RecordTtl::Default(_) => {}
        RecordTtl::Last(_) => {}
    }
}

/// Returns the explicit TTL of a record, if it has one, also if its class or type is rejected.
fn explicit_ttl(header: &Result<RecordHeader, HeaderError>) -> Option<u32>
    ensures { result ≡ ttl_of_header header.now }
{
    match header {
        Ok(header) => header.ttl,
        Err(error) => error.ttl,
    }
}

/// Returns the number in the last four octets, or `None` if there are fewer.
fn last_number(octets: &[u8]) -> Option<u32>
    ensures { EndsInNumber octets.now result }
{
    if octets.len() < 4 {
        return None;
    }
    let mut last = [0; 4];
    last.copy_from_slice(&octets[octets.len() - 4..]);
    Some(u32::from_be_bytes(last))
}

/// Returns the MINIMUM field of an SOA (RFC 1035 section 3.3.13), which is 0 if it has 2^31 seconds or
/// more (RFC 2181 section 8), or `None` for another type or fewer than four octets.
fn minimum_of(rtype: RecordType, octets: &[u8]) -> Option<u32>
    ensures { IsMinimum rtype octets.now result }
{
    if rtype != RecordType::SOA {
        return None;
    }
    match last_number(octets) {
        Some(seconds) => Some(ttl_of_seconds(seconds)),
        None => None,
    }
}

/// Determines the TTL of a record whose header and RDATA are read, and returns the record.
fn finish_record(
    state: &mut State,
    at: usize,
    data_at: usize,
    end: usize,
    header: RecordHeader,
    minimum: Option<u32>,
) -> Result<ParsedEntry, RecordError>
    ensures record { result ≡ record_with state.old at data_at end header (chosen_ttl header.ttl state.old.default_ttl state.old.last_ttl minimum) }
    ensures owner { state.new.owner ≡ state.old.owner }
    ensures learns { Updates (minimum_of_record result) state.old state.new }
{
    let Some(ttl) = state.choose_ttl(header.ttl, minimum) else {
        return Err(RecordError::at(at, ErrorKind::NoTtl));
    };
    let class = header.class.unwrap_or(state.class);
    let rtype = header.rtype;
    store_minimum(state, ttl);
    Ok(ParsedEntry::Record {
        at,
        data_at,
        end,
        ttl,
        class,
        rtype,
    })
}

/// Reads the RDATA of a record, and determines its TTL.
fn read_record_data<S: TokenSource, B: OctetsBuilder + AsOctetsMut>(
    state: &mut State,
    at: usize,
    header: RecordHeader,
    source: &mut S,
    target: &mut B,
) -> Result<ParsedEntry, RecordError>
    ensures reads { ReadsRecordData state.old B.room at (S.end source.old).at header (S.left source.old) (B.octets target.old) result (B.octets target.new) }
    ensures extends { Extends (B.octets target.old) (B.octets target.new) }
    ensures owner { state.new.owner ≡ state.old.owner }
    ensures learns { Updates (minimum_of_record result) state.old state.new }
    ensures end { S.end source.new ≡ S.end source.old }
{
    let data_at = source.place();
    let old_len = target.as_slice().len();
    match read_rdata(header.rtype, state.origin.name(), source, target) {
        Ok(()) => {
            let minimum = minimum_of(header.rtype, &target.as_slice()[old_len..]);
            // No token of the entry is left.
            let end = source.place();
            finish_record(state, at, data_at, end, header, minimum)
        }
        Err(error) => Err(error),
    }
}

/// Reads the RDATA of a record, unless the owner or the header is rejected. The header is TTL, class
/// and type.
fn read_after_header<S: TokenSource, B: OctetsBuilder + AsOctetsMut>(
    state: &mut State,
    at: usize,
    owner: Result<(), RecordError>,
    header: Result<RecordHeader, HeaderError>,
    source: &mut S,
    target: &mut B,
) -> Result<ParsedEntry, RecordError>
    ensures reads { ReadsAfterHeader state.old B.room at (S.end source.old).at owner header (S.left source.old) (B.octets target.old) result (B.octets target.new) }
    ensures extends { Extends (B.octets target.old) (B.octets target.new) }
    ensures owner { state.new.owner ≡ state.old.owner }
    ensures learns { Updates (minimum_of_record result) state.old state.new }
    ensures end { S.end source.new ≡ S.end source.old }
{
    match owner {
        Ok(()) => match header {
            Ok(header) => read_record_data(state, at, header, source, target),
            Err(error) => Err(error.error),
        },
        Err(error) => Err(error),
    }
}

/// Reads a record. An explicit TTL is stored even if another part of the record is rejected.
fn read_record<S: TokenSource, B: OctetsBuilder + AsOctetsMut>(
    state: &mut State,
    begins_blank: bool,
    source: &mut S,
    target: &mut B,
) -> Result<ParsedEntry, RecordError>
    ensures reads { S.left source.old ≢ [] → ReadsRecordTokens B.room begins_blank (S.end source.old).at (S.left source.old) state.old (B.octets target.old) result state.new (B.octets target.new) }
    ensures end { S.end source.new ≡ S.end source.old }
{
    let at = source.place();
    let owner = update_owner(state, begins_blank, source);
    let header = parse_header(source);
    set_last_ttl(state, explicit_ttl(&header));
    read_after_header(state, at, owner, header, source, target)
}

/// Reads an entry from its tokens, and updates the state that later entries inherit.
///
/// If the first token begins with `$`, without quotes, and the entry doesn't begin with a blank
/// (`begins_blank`), the entry is a directive, or an error if the token names none. Any other entry is
/// a record: its owner; its header, which is TTL and class in either order, and type; its RDATA. If the
/// entry begins with a blank, the owner is the last explicit owner before it. The RDATA is appended to
/// `target` in wire format. Without a class the record has that of the zone, which the state has from
/// the start. Without an explicit TTL it has the first of these that is known: the default TTL; the
/// last explicit TTL; the MINIMUM field of this record if it is an SOA, which then is the default TTL
/// of later records ([`RecordTtl`]).
///
/// If a record has several errors, that of the first of its parts is returned. The error that no TTL
/// is known is returned only if there is no other. Of a directive, a token after the last argument is
/// the first error. The offset of an error is that of the rejected token, or of the file name if an
/// origin doesn't fit `target`. If a token is missing, it is the offset where the last token ends,
/// before closing parentheses, comments and blanks. If no owner or no TTL is known, it is that of the
/// first token of the record. The kind is never [`ErrorKind::Syntax`]: syntax errors are reported
/// before, by what divides the text into tokens.
///
/// After an error the state may have changed. An explicit owner is the owner of later records without
/// one. If it is not a valid name, or relative without an origin, those records are rejected too. An
/// explicit TTL is the last explicit TTL. After a rejected `$ORIGIN` no origin is known. Some tokens
/// may be unread, and `target` may have more octets than before.
pub fn read_entry<S: TokenSource, B: OctetsBuilder + AsOctetsMut>(
    state: &mut State,
    begins_blank: bool,
    source: &mut S,
    target: &mut B,
) -> Result<ParsedEntry, RecordError>
    ensures reads { ReadsZoneEntry B.room begins_blank (S.end source.old).at (S.left source.old) state.old (B.octets target.old) result state.new (B.octets target.new) }
    ensures end { S.end source.new ≡ S.end source.old }
{
    if source.current().is_none() {
        return Ok(ParsedEntry::Empty);
    }
    let at = source.place();
    match parse_directive(begins_blank, source) {
        Ok(Some(directive)) => read_directive(directive, at, state, source, target),
        Ok(None) => read_record(state, begins_blank, source, target),
        Err(error) => Err(error),
    }
}
