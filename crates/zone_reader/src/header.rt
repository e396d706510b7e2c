//! Parses the TTL, class and type of a record entry, which come before its data.
ghost use Rattle.std.specs.Prelude.{◌≡◌};
ghost use Rattle.dns_lexer.specs.EntryTokens.{token_seen};
ghost use Rattle.zone_reader.specs.HeaderWords.{TokenIsTtl, TokenIsClass, type_refusal};
ghost use Rattle.zone_reader.specs.Headers.{ParsesTtlAndClass, ParsesOptional, ParsesType, ParsesHeader};

use crate::words::{begins_with_digit, class_word, ttl_word, type_word};
use dns_lexer::entry_tokens::EntryToken;
use rdata_fields::{RecordError, TokenSource};
use rdata_values::{Class, ErrorKind, RecordType};

/// The header of a record entry after its owner: TTL, class and type.
#[derive(Clone, Copy, Debug, PartialEq, Eq)]
pub struct RecordHeader {
    /// TTL in seconds, if the entry has one.
    pub ttl: Option<u32>,
    /// Class, if the entry has one.
    pub class: Option<Class>,
    /// Type.
    pub rtype: RecordType,
}

/// Why the TTL, class and type of a record entry are rejected, and what came before the rejected
/// token.
#[derive(Clone, Copy, Debug, PartialEq, Eq)]
pub struct HeaderError {
    /// Why the token after the TTL and class is not a type.
    pub error: RecordError,
    /// TTL in seconds, if the entry has one.
    pub ttl: Option<u32>,
    /// Class, if the entry has one.
    pub class: Option<Class>,
}

/// A TTL and a class, if the entry has them.
#[derive(Clone, Copy)]
struct TtlAndClass {
    ttl: Option<u32>,
    class: Option<Class>,
}

/// Parses the next token as a TTL, if it is one.
fn parse_ttl<S: TokenSource>(source: &mut S) -> Option<u32>
    ensures takes { ParsesOptional TokenIsTtl (S.left source.old) result (S.left source.new) }
    ensures end { S.end source.new ≡ S.end source.old }
{
    let token = source.current()?;
    let ttl = ttl_word(&token)?;
    source.advance();
    Some(ttl)
}

/// Parses the next token as a class, if it is one.
fn parse_class<S: TokenSource>(source: &mut S) -> Option<Class>
    ensures takes { ParsesOptional TokenIsClass (S.left source.old) result (S.left source.new) }
    ensures end { S.end source.new ≡ S.end source.old }
{
    let token = source.current()?;
    let class = class_word(&token)?;
    source.advance();
    Some(class)
}

/// Parses a TTL and a class, each if it is there, in either order.
fn parse_ttl_and_class<S: TokenSource>(source: &mut S) -> TtlAndClass
    ensures takes { ParsesTtlAndClass TokenIsTtl TokenIsClass (S.left source.old)
        result.ttl result.class (S.left source.new) }
    ensures end { S.end source.new ≡ S.end source.old }
{
    if let Some(ttl) = parse_ttl(source) {
        let class = parse_class(source);
        return TtlAndClass {
            ttl: Some(ttl),
            class,
        };
    }
    let class = parse_class(source);
    if class.is_none() {
        return TtlAndClass { ttl: None, class };
    }
    let ttl = parse_ttl(source);
    TtlAndClass { ttl, class }
}

/// Returns why a token that does not name a type is rejected.
fn type_refusal(may_be_ttl: bool, token: &EntryToken<'_>) -> ErrorKind
    ensures { result ≡ type_refusal may_be_ttl (token_seen token.now) }
{
    if token.is_quoted {
        return ErrorKind::Quoted;
    }
    if may_be_ttl && begins_with_digit(token.text) {
        return ErrorKind::ExpectedTtl;
    }
    ErrorKind::UnknownType
}

/// Parses the next token as a type.
fn parse_type<S: TokenSource>(may_be_ttl: bool, source: &mut S) -> Result<RecordType, RecordError>
    ensures takes { ParsesType may_be_ttl (S.end source.old).at (S.left source.old)
        result (S.left source.new) }
    ensures end { S.end source.new ≡ S.end source.old }
{
    let at = source.place();
    let Some(token) = source.current() else {
        return Err(RecordError::at(at, ErrorKind::EndOfEntry));
    };
    let Some(rtype) = type_word(&token) else {
        let why = type_refusal(may_be_ttl, &token);
        return Err(RecordError::at(at, why));
    };
    source.advance();
    Ok(rtype)
}

/// Parses a TTL and a class, each at most once and in either order, and the type after them (RFC
/// 1035 section 5.1). The tokens of the data are left.
///
/// Fails if no type comes next: at the entry's end; at a quoted token; at a word that begins with a
/// digit, as an expected TTL if none came before it; and at any other word as an unknown type. So a
/// second TTL is an unknown type. The rejected token is not taken.
pub fn parse_header<S: TokenSource>(source: &mut S) -> Result<RecordHeader, HeaderError>
    ensures takes { ParsesHeader (S.end source.old).at (S.left source.old)
        result (S.left source.new) }
    ensures end { S.end source.new ≡ S.end source.old }
{
    let head = parse_ttl_and_class(source);
    let ttl = head.ttl;
    let class = head.class;
    match parse_type(ttl.is_none(), source) {
        Ok(rtype) => Ok(RecordHeader { ttl, class, rtype }),
        Err(error) => Err(HeaderError { error, ttl, class }),
    }
}
