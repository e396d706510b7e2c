//! Passes an entry, and learns what later entries inherit from it.
ghost use Rattle.std.specs.Prelude.{◌≡◌, ◌≢◌, ◌↔◌, [], IsTrue, drop, false, true};
ghost use Rattle.std.specs.Option.{option_copied};
ghost use Rattle.zone_reader.specs.EntryReading.{explicit_ttl_of, owner_of_record};
ghost use Rattle.zone_reader.specs.EntrySteps.{owner_token, tokens_after_owner};
ghost use Rattle.zone_reader.specs.HeaderWords.{TokenIsTtl};
ghost use Rattle.zone_reader.specs.Learning.{Updates};
ghost use Rattle.zone_parts.specs.Passing.{FindsNextWord, FindsTtl, IsClassNext, LeavesAlways, NamesNext, PassesZoneEntry, begins_directive, knows_ttl, outcome};

use crate::pass_error::PassError;
use arrayvec::ArrayVec;
use dns_octets::{AsOctetsMut, OctetsBuilder};
use dns_wire::MAX_NAME;
use rdata_fields::{Field, RecordError, TokenSource, parse_field};
use zone_reader::{
    NameBuffer, NameState, ParsedEntry, State, class_word, directive_word, read_entry, ttl_word,
};

/// Returns whether the state has a TTL for a record without one. The minimum of an SOA is then not used.
pub(crate) fn knows_ttl(state: &State) -> bool
    ensures { result ≡ knows_ttl state.now }
{
    state.default_ttl.is_some() || state.last_ttl.is_some()
}

/// Returns whether an entry is a directive, by its first token.
pub(crate) fn is_directive<S: TokenSource>(begins_blank: bool, source: &S) -> bool
    ensures { result ≡ begins_directive begins_blank (S.left source.now) }
{
    if begins_blank {
        return false;
    }
    match source.current() {
        Some(token) => directive_word(&token).is_some(),
        None => false,
    }
}

/// Parses the next token as a name. An invalid one is skipped too, and is a rejected name.
pub(crate) fn parse_owner<S: TokenSource>(origin: Option<&NameBuffer>, source: &mut S) -> NameState
    ensures named { NamesNext (option_copied origin.entry) (S.left source.old) result }
    ensures left { S.left source.new ≡ drop 1 (S.left source.old) }
    ensures end { S.end source.new ≡ S.end source.old }
{
    let mut octets: ArrayVec<u8, MAX_NAME> = ArrayVec::new();
    match parse_field(Field::Name, origin, source, &mut octets) {
        Ok(()) => match NameBuffer::from_octets(octets) {
            Ok(name) => NameState::Name(name),
            Err(_) => unreachable!(),
        },
        Err(_) => {
            source.advance();
            NameState::Rejected
        }
    }
}

/// Parses the owner of a record, unless it begins with a blank, and stores it in the state.
fn pass_owner<S: TokenSource>(state: &mut State, begins_blank: bool, source: &mut S)
    ensures left { S.left source.new ≡ tokens_after_owner begins_blank (S.left source.old) }
    ensures state { state.new ≡ record state.old { owner = state.new.owner } }
    ensures learns { S.left source.old ≢ []
        → Updates (owner_of_record (owner_token begins_blank (S.left source.old)))
        state.old state.new }
    ensures end { S.end source.new ≡ S.end source.old }
{
    if begins_blank {
        return;
    }
    state.owner = parse_owner(state.origin.name(), source);
}

/// Parses the next token as a TTL, if it is one. It is not skipped.
fn next_ttl<S: TokenSource>(source: &S) -> Option<u32>
    ensures { FindsNextWord TokenIsTtl (S.left source.now) result }
{
    match source.current() {
        Some(token) => ttl_word(&token),
        None => None,
    }
}

/// Returns whether the next token is a class.
fn is_class<S: TokenSource>(source: &S) -> bool
    ensures { IsTrue result ↔ IsClassNext (S.left source.now) }
{
    match source.current() {
        Some(token) => class_word(&token).is_some(),
        None => false,
    }
}

/// Returns the explicit TTL of a record, if it has one: before its class, or after it.
pub(crate) fn explicit_ttl<S: TokenSource>(source: &mut S) -> Option<u32>
    ensures found { FindsTtl (S.left source.old) result }
    ensures end { S.end source.new ≡ S.end source.old }
{
    if let Some(ttl) = next_ttl(source) {
        return Some(ttl);
    }
    if !is_class(source) {
        return None;
    }
    source.advance();
    next_ttl(source)
}

/// Stores the explicit TTL of a record, if it has one, as the last TTL.
pub(crate) fn pass_ttl(state: &mut State, ttl: Option<u32>)
    ensures { Updates (explicit_ttl_of ttl) state.old state.new }
{
    match ttl {
        Some(ttl) => state.last_ttl = Some(ttl),
        None => {}
    }
}

/// Passes a record: stores its owner and its TTL, if it has them.
fn pass_record<S: TokenSource>(state: &mut State, begins_blank: bool, source: &mut S)
    requires some { S.left source.old ≢ [] }
    requires plain { begins_directive begins_blank (S.left source.old) ≡ false }
    requires knows { knows_ttl state.old ≡ true }
    ensures leaves { LeavesAlways begins_blank (S.end source.old).at (S.left source.old)
        state.old state.new }
    ensures end { S.end source.new ≡ S.end source.old }
{
    pass_owner(state, begins_blank, source);
    let ttl = explicit_ttl(source);
    pass_ttl(state, ttl);
}

/// Returns whether an entry that was read keeps a file from being read in parts. Rejected records don't.
fn passed(is_directive: bool, read: Result<ParsedEntry, RecordError>) -> Result<(), PassError>
    ensures { result ≡ outcome is_directive read }
{
    match read {
        Ok(ParsedEntry::Include { at, .. }) => Err(PassError::Include(at)),
        Ok(ParsedEntry::Generate { at, .. }) => Err(PassError::Generate(at)),
        Ok(_) => Ok(()),
        Err(error) if is_directive => Err(PassError::Directive(error)),
        Err(_) => Ok(()),
    }
}

/// Passes an entry by its tokens, and leaves the state that [`read_entry`] leaves. RDATA is not parsed,
/// unless it may be that of an SOA whose minimum is the TTL of later records.
///
/// Fails if the entry includes a file or generates entries, or is a rejected directive.
pub fn pass_entry<S: TokenSource, B: OctetsBuilder + AsOctetsMut>(
    state: &mut State,
    begins_blank: bool,
    source: &mut S,
    target: &mut B,
) -> Result<(), PassError>
    ensures passes { PassesZoneEntry B.room begins_blank (S.end source.old).at
        (S.left source.old) state.old (B.octets target.old) result state.new (B.octets target.new) }
    ensures end { S.end source.new ≡ S.end source.old }
{
    let is_directive = is_directive(begins_blank, source);
    if is_directive || !knows_ttl(state) || source.current().is_none() {
        let read = read_entry(state, begins_blank, source, target);
        return passed(is_directive, read);
    }
    pass_record(state, begins_blank, source);
    Ok(())
}
