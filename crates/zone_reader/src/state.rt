//! The state that entries inherit from those before them: origin, owner, TTLs and class.
ghost use Rattle.std.specs.Prelude.{◌≡◌, None, Some, [], ◌∷◌, MatchResult};
ghost use Rattle.std.specs.Option.{option_copied};
ghost use Rattle.zone_reader.specs.Past.{NewDefaultTtl, nothing_declared};
ghost use Rattle.zone_reader.specs.Learning.{Updates, MarksPast, RestoresPast, ParsesKnownName, ParsesName, WhyNoOwner, chosen_ttl};
ghost use Rattle.zone_reader.specs.declared.known.NameState.TheVariants.{Name as known_as};

use crate::known::{NameBuffer, NameState};
use crate::ttl::RecordTtl;
use arrayvec::ArrayVec;
use dns_wire::MAX_NAME;
use rdata_fields::{Field, RecordError, TokenSource, parse_field};
use rdata_values::{Class, ErrorKind};

/// The state that later entries inherit, from the entries before them or from the start of reading.
#[derive(Drop)]
pub struct State {
    /// The origin, which is appended to relative names.
    pub origin: NameState,
    /// The owner of a record without one.
    pub owner: NameState,
    /// The default TTL, in seconds.
    pub default_ttl: Option<u32>,
    /// The TTL of the last record with an explicit TTL, in seconds.
    pub last_ttl: Option<u32>,
    /// The class of a record without one.
    pub class: Class,
}

/// The origin and the owner before an included text.
#[derive(Drop)]
pub struct IncludeScope {
    pub origin: NameState,
    pub owner: NameState,
}

/// Parses the next token as a name. The origin is appended to a relative name.
pub(crate) fn parse_name<S: TokenSource>(
    origin: Option<&NameBuffer>,
    source: &mut S,
) -> Result<NameBuffer, RecordError>
    ensures takes { ParsesName (option_copied origin.entry) (S.end source.old).at (S.left source.old) result (S.left source.new) }
    ensures end { S.end source.new ≡ S.end source.old }
{
    let mut octets: ArrayVec<u8, MAX_NAME> = ArrayVec::new();
    parse_field(Field::Name, origin, source, &mut octets)?;
    match NameBuffer::from_octets(octets) {
        Ok(name) => Ok(name),
        Err(_) => unreachable!(),
    }
}

/// Parses the next token as a name, and stores it in `known`. The origin is appended to a relative
/// name. If the token is rejected, it is not consumed, and `known` is a rejected name.
pub(crate) fn parse_name_into<S: TokenSource>(
    origin: Option<&NameBuffer>,
    source: &mut S,
    known: &mut NameState,
) -> Result<(), RecordError>
    ensures takes { ParsesKnownName (option_copied origin.entry) (S.end source.old).at (S.left source.old) result known.new (S.left source.new) }
    ensures end { S.end source.new ≡ S.end source.old }
{
    let mut octets: ArrayVec<u8, MAX_NAME> = ArrayVec::new();
    match parse_field(Field::Name, origin, source, &mut octets) {
        Ok(()) => match NameBuffer::from_octets(octets) {
            Ok(name) => {
                *known = NameState::Name(name);
                Ok(())
            }
            Err(_) => unreachable!(),
        },
        Err(error) => {
            *known = NameState::Rejected;
            Err(error)
        }
    }
}

impl State {
    /// Returns the state at the start of reading: a class alone.
    pub fn new(class: Class) -> State
        ensures { result ≡ nothing_declared class }
    {
        State {
            origin: NameState::Unset,
            owner: NameState::Unset,
            default_ttl: None,
            last_ttl: None,
            class,
        }
    }

    /// Returns this state with an origin.
    pub fn with_origin(self, origin: NameBuffer) -> State
        ensures { result ≡ record self { origin = known_as origin } }
    {
        State {
            origin: NameState::Name(origin),
            ..self
        }
    }

    /// Returns a copy, for reading a part of a text separately. It needs no memory.
    pub fn copied(&self) -> State
        ensures { result ≡ self.now }
    {
        let origin = self.origin.copied();
        let owner = self.owner.copied();
        State {
            origin,
            owner,
            default_ttl: self.default_ttl,
            last_ttl: self.last_ttl,
            class: self.class,
        }
    }

    /// Returns the owner of a record without one: the last owner, whatever the origin is by now.
    /// Fails if no owner is known, or if the last one is rejected.
    pub fn owner(&self) -> Result<&NameBuffer, ErrorKind>
        ensures { MatchResult result (λ name. self.now.owner ≡ known_as name.now)
            (λ e. WhyNoOwner self.now.owner e) }
    {
        match &self.owner {
            NameState::Name(name) => Ok(name),
            NameState::Unset => Err(ErrorKind::NoOwner),
            NameState::Rejected => Err(ErrorKind::RefusedOwner),
        }
    }

    /// Sets the default TTL from here on, in seconds, as `$TTL` does.
    pub fn set_default_ttl(&mut self, ttl: u32)
        ensures { Updates (NewDefaultTtl ttl ∷ []) self.old self.new }
    {
        self.default_ttl = Some(ttl);
    }

    /// Returns the TTL of a record with this explicit TTL, and with this MINIMUM field if it is an
    /// SOA, or `None` if no TTL is known.
    pub(crate) fn choose_ttl(&self, own: Option<u32>, minimum: Option<u32>) -> Option<RecordTtl>
        ensures { result ≡ chosen_ttl own self.now.default_ttl self.now.last_ttl minimum }
    {
        if let Some(ttl) = own {
            return Some(RecordTtl::Explicit(ttl));
        }
        if let Some(ttl) = self.default_ttl {
            return Some(RecordTtl::Default(ttl));
        }
        if let Some(ttl) = self.last_ttl {
            return Some(RecordTtl::Last(ttl));
        }
        let ttl = minimum?;
        Some(RecordTtl::Minimum(ttl))
    }

    /// Returns the origin and the owner, to be restored after an included text (RFC 1035 section
    /// 5.1). It needs no memory.
    pub fn mark(&self) -> IncludeScope
        ensures { MarksPast self.now result }
    {
        let origin = self.origin.copied();
        let owner = self.owner.copied();
        IncludeScope { origin, owner }
    }

    /// Restores the names after an included text: its origin and its owners are dropped, and its
    /// TTLs stay.
    pub fn restore(&mut self, mark: IncludeScope)
        ensures state { self.new ≡ record self.old { origin = mark.origin; owner = mark.owner } }
        ensures past { RestoresPast mark self.old self.new }
    {
        self.origin = mark.origin;
        self.owner = mark.owner;
    }
}
