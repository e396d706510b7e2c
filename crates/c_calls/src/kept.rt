//! The state of a zone file between two calls, in plain numbers and octets.
ghost use Rattle.std.specs.Prelude.{◌+◌, ◌≡◌, ◌≤◌, IsTrue, drop, length, take};
ghost use Rattle.dns_wire.specs.FromOctets.{MakesName};
ghost use Rattle.c_calls.specs.DataText.{PutsAt};
ghost use Rattle.c_calls.specs.Kept.{HoldsButOwner, HoldsForLine, HoldsName, HoldsSomeName, HoldsState, KeepsName, KeepsState, KeepsTtl, MakesOrNot, SetsOrigin, first_zone, flagged, known_if, no_kept_name};
ghost use Rattle.c_calls.specs.Reasons.{refusal_of_name};
ghost use Rattle.zone_reader.specs.declared.known.NameState.TheVariants.{Unset};

use crate::outcome::{Fault, OK, Outcome, Refusal, accept, refuse};
use arrayvec::ArrayVec;
use dns_wire::{MAX_NAME, Name, NameError};
use rdata_values::Class;
use zone_reader::{NameBuffer, NameState, State};

/// An absolute name in wire form (RFC 1035 section 3.1), if there is one.
#[repr(C)]
pub struct KeptName {
    /// Number of its octets, at most 255; 0 without a name.
    pub length: usize,
    /// 1 if the last name was rejected.
    pub is_refused: u8,
    /// Its octets, the root last. The octets after them have no meaning.
    pub octets: [u8; 255],
}

/// The state that the entries of a zone file leave for those that follow, and where these begin.
#[repr(C)]
pub struct Zone {
    /// Class of records without one.
    pub class_code: u16,
    /// 1 if a default TTL is known.
    pub has_default_ttl: u8,
    /// 1 if a record had a TTL of its own.
    pub has_last_ttl: u8,
    /// Default TTL, in seconds.
    pub default_ttl: u32,
    /// TTL of the last record with one of its own, in seconds.
    pub last_ttl: u32,
    /// Offset of the next entry in the text.
    pub at: usize,
    /// The origin, which is appended to relative names.
    pub origin: KeptName,
    /// The owner of records without one.
    pub owner: KeptName,
}

/// Returns the name that some octets are, or why they are not a name.
pub(crate) fn name_of(octets: &[u8]) -> Result<NameBuffer, NameError>
    ensures { MakesName octets.now result }
{
    let mut buffer: ArrayVec<u8, MAX_NAME> = ArrayVec::new();
    match buffer.try_extend_from_slice(octets) {
        Ok(()) => Name::from_octets(buffer),
        Err(_) => Err(NameError::LongName),
    }
}

/// Stores the name in the first `length` octets as known, and returns true. Returns false if they
/// are not a name; then what is known is unchanged.
fn know_name(octets: &[u8], length: usize, known: &mut NameState) -> bool
    ensures { MakesOrNot octets.now length (known_if result known.new) }
{
    if length > octets.len() {
        return false;
    }
    match name_of(&octets[..length]) {
        Ok(name) => {
            *known = NameState::Name(name);
            true
        }
        Err(_) => false,
    }
}

/// Loads what is known of a stored name, and returns true. Returns false if it is not a name.
fn load_name(kept: &KeptName, known: &mut NameState) -> bool
    ensures { HoldsName kept.now (known_if result known.new) }
{
    if kept.is_refused != 0 {
        *known = NameState::Rejected;
        return true;
    }
    if kept.length == 0 {
        *known = NameState::Unset;
        return true;
    }
    know_name(&kept.octets, kept.length, known)
}

/// Returns a TTL, if there is one.
fn ttl_of(has_ttl: u8, seconds: u32) -> Option<u32>
    ensures { result ≡ flagged has_ttl seconds }
{
    if has_ttl == 0 { None } else { Some(seconds) }
}

/// Loads the stored state, and returns true. Returns false if a stored name is not a name.
pub(crate) fn load_state(zone: &Zone, state: &mut State) -> bool
    ensures { HoldsState zone.now (known_if result state.new) }
{
    state.class = Class(zone.class_code);
    state.default_ttl = ttl_of(zone.has_default_ttl, zone.default_ttl);
    state.last_ttl = ttl_of(zone.has_last_ttl, zone.last_ttl);
    if !load_name(&zone.origin, &mut state.origin) {
        return false;
    }
    load_name(&zone.owner, &mut state.owner)
}

/// Returns whether a stored name is rejected, or none, or a name. It is not copied.
fn is_some_name(kept: &KeptName) -> bool
    ensures { IsTrue result → HoldsSomeName kept.now }
{
    if kept.is_refused != 0 {
        return true;
    }
    if kept.length == 0 {
        return true;
    }
    if kept.length > kept.octets.len() {
        return false;
    }
    let part = &kept.octets[..kept.length];
    match Name::from_octets(part) {
        Ok(_) => true,
        Err(_) => false,
    }
}

/// Loads the stored state without its owner, and returns true. Returns false if a stored name is not
/// a name.
fn load_but_owner(zone: &Zone, state: &mut State) -> bool
    requires { state.old.owner ≡ Unset }
    ensures { IsTrue result → HoldsButOwner zone.now state.new }
{
    if !is_some_name(&zone.owner) {
        return false;
    }
    state.class = Class(zone.class_code);
    state.default_ttl = ttl_of(zone.has_default_ttl, zone.default_ttl);
    state.last_ttl = ttl_of(zone.has_last_ttl, zone.last_ttl);
    load_name(&zone.origin, &mut state.origin)
}

/// Loads the stored state for an entry that begins with an octet, and returns true. Returns false if a
/// stored name is not a name. The owner is loaded only if the octet is a blank: another record has its
/// own.
pub(crate) fn load_for_line(first: u8, zone: &Zone, state: &mut State) -> bool
    requires { state.old.owner ≡ Unset }
    ensures { IsTrue result → HoldsForLine zone.now state.new }
{
    if first == b' ' || first == b'\t' {
        return load_state(zone, state);
    }
    load_but_owner(zone, state)
}

/// Copies octets to the start of others, which are at least as long.
pub(crate) fn put_over(octets: &[u8], over: &mut [u8])
    requires { length octets.now ≤ length over.old }
    ensures put { take (length octets.now) over.new ≡ octets.now }
    ensures rest { drop (length octets.now) over.new ≡ drop (length octets.now) over.old }
{
    over[..octets.len()].copy_from_slice(octets);
}

/// Copies octets to an offset of others, where they fit.
pub(crate) fn put_from(octets: &[u8], at: usize, over: &mut [u8])
    requires { at + length octets.now ≤ length over.old }
    ensures { PutsAt octets.now at over.old over.new }
{
    put_over(octets, &mut over[at..]);
}

/// Stores what is known of a name.
pub(crate) fn keep_name(known: &NameState, kept: &mut KeptName)
    ensures { KeepsName known.now kept.old kept.new }
{
    kept.length = 0;
    kept.is_refused = 0;
    match known {
        NameState::Unset => {}
        NameState::Rejected => kept.is_refused = 1,
        NameState::Name(name) => {
            let octets = name.as_slice();
            kept.length = octets.len();
            put_over(octets, &mut kept.octets);
        }
    }
}

/// Stores a TTL, if there is one.
fn keep_ttl(ttl: Option<u32>, has_ttl: &mut u8, seconds: &mut u32)
    ensures { KeepsTtl ttl has_ttl.new seconds.new }
{
    match ttl {
        Some(read) => {
            *has_ttl = 1;
            *seconds = read;
        }
        None => *has_ttl = 0,
    }
}

/// Stores a state, and the offset of the next entry.
pub(crate) fn keep_state(state: &State, at: usize, zone: &mut Zone)
    ensures { KeepsState state.now at zone.old zone.new }
{
    zone.at = at;
    zone.class_code = state.class.0;
    keep_ttl(
        state.default_ttl,
        &mut zone.has_default_ttl,
        &mut zone.default_ttl,
    );
    keep_ttl(state.last_ttl, &mut zone.has_last_ttl, &mut zone.last_ttl);
    keep_name(&state.origin, &mut zone.origin);
    keep_name(&state.owner, &mut zone.owner);
}

/// Returns the status of octets that are not an absolute name.
pub(crate) fn refusal_of_name(error: NameError) -> Refusal
    ensures { result ≡ refusal_of_name error }
{
    match error {
        NameError::BadLabel(_) => Refusal::BadLabel,
        NameError::CompressedName => Refusal::Pointer,
        NameError::LongName => Refusal::TooLong,
        NameError::TrailingData => Refusal::TrailingOctets,
        NameError::ShortInput => Refusal::ShortInput,
        NameError::Relative | NameError::Absolute => Refusal::RelativeName,
    }
}

/// Stores no name, and no octets.
fn clear_name(kept: &mut KeptName)
    ensures { kept.new ≡ no_kept_name }
{
    kept.length = 0;
    kept.is_refused = 0;
    kept.octets = [0; 255];
}

/// Sets a zone to the state at the start of a text: the class `IN` (RFC 1035 section 3.2.4), and
/// nothing else.
pub fn zone_init(zone: &mut Zone) -> u32
    ensures { (result ≡ 0) × (zone.new ≡ first_zone) }
{
    zone.class_code = 1;
    zone.has_default_ttl = 0;
    zone.has_last_ttl = 0;
    zone.default_ttl = 0;
    zone.last_ttl = 0;
    zone.at = 0;
    clear_name(&mut zone.origin);
    clear_name(&mut zone.owner);
    OK
}

/// Sets the origin of the entries that follow to an absolute name in wire form. No octets mean no
/// origin.
///
/// Fails with place 0 if the octets are not such a name; then the zone is unchanged.
pub fn zone_origin(zone: &mut Zone, name: &[u8], outcome: &mut Outcome) -> u32
    ensures { SetsOrigin name.now zone.old zone.new result outcome.new }
{
    if name.is_empty() {
        keep_name(&NameState::Unset, &mut zone.origin);
        return accept(outcome);
    }
    match name_of(name) {
        Ok(origin) => {
            keep_name(&NameState::Name(origin), &mut zone.origin);
            accept(outcome)
        }
        Err(error) => {
            let refusal = refusal_of_name(error);
            refuse(Fault { refusal, place: 0 }, outcome)
        }
    }
}
