//! Parses lists of types (RFC 4034 section 4.1.2) to the end of an entry.
ghost use Rattle.std.specs.Prelude.{◌≡◌};
ghost use Rattle.rdata_fields.specs.TokenParsers.{Parses};
ghost use Rattle.rdata.specs.Rests.{ParsesTail};
ghost use Rattle.rdata.specs.TypeLists.{InsertsNext, types_form};

use dns_octets::OctetsBuilder;
use rdata_fields::{RecordError, TokenSource};
use rdata_values::{ErrorKind, RecordType, TypeSet};

/// Adds the type that the next word names to a set, and skips the word.
fn insert_next<S: TokenSource>(types: &mut TypeSet, source: &mut S) -> Result<(), RecordError>
    ensures inserts { InsertsNext types.old (S.end source.old).at (S.left source.old)
        result types.new (S.left source.new) }
    ensures end { S.end source.new ≡ S.end source.old }
{
    let at = source.place();
    let Some(token) = source.current() else {
        return Err(RecordError::at(at, ErrorKind::EndOfEntry));
    };
    if token.is_quoted {
        return Err(RecordError::at(at, ErrorKind::Quoted));
    }
    let rtype = match RecordType::from_text(token.text) {
        Ok(rtype) => rtype,
        Err(why) => return Err(RecordError::at(at, why)),
    };
    if rtype.0 == 0 {
        return Err(RecordError::at(at, ErrorKind::TypeZero));
    }
    types.insert(rtype);
    source.advance();
    Ok(())
}

/// Parses the remaining words, each as the name of a type, and appends the bitmap of these types.
/// The types may be in any order, and repeated. Type 0 is rejected.
pub fn parse_types<S: TokenSource, B: OctetsBuilder>(
    source: &mut S,
    target: &mut B,
) -> Result<(), RecordError>
    ensures takes { Parses (ParsesTail B.room types_form)
        S.left S.end B.octets source.old target.old result source.new target.new }
    ensures end { S.end source.new ≡ S.end source.old }
{
    let mut types = TypeSet::new();
    while source.current().is_some() {
        insert_next(&mut types, source)?;
    }
    if let Err(error) = types.append_to(target) {
        return Err(RecordError::at(source.place(), ErrorKind::from(error)));
    }
    Ok(())
}
