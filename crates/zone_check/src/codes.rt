//! The codes of findings in the entries of zone files.
ghost use Rattle.std.specs.Prelude.{◌≡◌};
ghost use Rattle.zone_check.specs.Codes.{code_of_entry, code_of_fault, code_in_header, code_of_part};

use dns_lexer::pieces::Wrong;
use finding_codes::code::Code;
use rdata_fields::RecordError;
use rdata_values::ErrorKind;

/// Returns the code of a syntax error.
pub fn code_of_fault(wrong: Wrong) -> Code
    ensures { result ≡ code_of_fault wrong }
{
    match wrong {
        Wrong::Closing => Code::ClosingParenthesis,
        Wrong::OpenParenthesis => Code::OpenParenthesis,
        Wrong::OpenQuote(_) => Code::OpenQuote,
        Wrong::LoneReturn => Code::LoneReturn,
        Wrong::BadEscape => Code::BadEscape,
    }
}

/// Returns the code of an error in the fields before a record's data: a word that begins with a
/// digit is a wrong TTL, any other word a wrong type, and an error of a name is one of the owner.
fn code_in_header(kind: ErrorKind) -> Code
    ensures { result ≡ code_in_header kind }
{
    match kind {
        ErrorKind::ExpectedTtl => Code::Ttl,
        ErrorKind::EndOfEntry | ErrorKind::Quoted | ErrorKind::UnknownType => Code::RecordType,
        _ => Code::Owner,
    }
}

/// Returns the code of an error in a part of an entry that has no code of its own.
fn code_of_part(is_directive: bool, error: &RecordError) -> Code
    ensures { result ≡ code_of_part is_directive error.now }
{
    match error.rtype {
        _ if is_directive => Code::Directive,
        Some(_) => Code::Data,
        None => code_in_header(error.kind),
    }
}

/// Returns the code of a rejected entry. `is_directive` is set if it begins with the word of a
/// directive.
pub fn code_of_entry(is_directive: bool, error: &RecordError) -> Code
    ensures { result ≡ code_of_entry is_directive error.now }
{
    match error.kind {
        ErrorKind::Syntax(wrong) => code_of_fault(wrong),
        ErrorKind::NoOrigin => Code::NoOrigin,
        ErrorKind::NoOwner | ErrorKind::RefusedOwner => Code::NoOwner,
        ErrorKind::NoTtl => Code::NoTtl,
        _ => code_of_part(is_directive, error),
    }
}
