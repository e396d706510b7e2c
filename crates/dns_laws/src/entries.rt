//! Laws of encodings whose text is all remaining tokens of an entry.
ghost use Rattle.std.specs.Prelude.{List};
ghost use Rattle.dns_codec.specs.Base.{base16, base32hex, base64};
ghost use Rattle.dns_scan.specs.Join.{LeavesOf};
ghost use Rattle.dns_scan.specs.Unread.{HasTokens};
ghost use Rattle.dns_scan.specs.Tokens.{Token};
ghost use Rattle.dns_laws.specs.Encodings.{EntryBack};

use dns_codec::base::{Base16, Base32Hex, Base64, Encoding};
use dns_codec::converter::Converter;
use dns_scan::Scanner;
use dns_scan::laws::entries_convert_as_their_join;

/// The text of octets in an encoding, cut into tokens anywhere, is parsed as these octets, if they
/// fit. So are all tokens whose join is a text of the encoding. Other tokens are rejected as their
/// join would be as one token.
pub fn entry_is_scanned_back<K: Encoding, S: Scanner>(
    scanner: &mut S,
) -> Result<S::Octets, S::Error>
    requires { S.can_scan scanner.old }
    ensures ready { S.can_scan scanner.new }
    ensures takes { (tokens : List Token) → HasTokens S.next_token scanner.old tokens
        → EntryBack K.base S.Error.cause S.Octets.octets S.OctetsBuilder.room tokens result × LeavesOf S.next_token tokens result scanner.new }
{
    entries_convert_as_their_join(scanner, Converter::<K>::new())
}

/// The text of octets in base 16, cut into tokens anywhere, is parsed as these octets, if they fit.
/// So are all tokens whose join is a text of the encoding. Other tokens are rejected as their join
/// would be as one token.
pub fn hex_entry_is_scanned_back<S: Scanner>(scanner: &mut S) -> Result<S::Octets, S::Error>
    requires { S.can_scan scanner.old }
    ensures ready { S.can_scan scanner.new }
    ensures takes { (tokens : List Token) → HasTokens S.next_token scanner.old tokens
        → EntryBack base16 S.Error.cause S.Octets.octets S.OctetsBuilder.room tokens result × LeavesOf S.next_token tokens result scanner.new }
{
    entry_is_scanned_back::<Base16, S>(scanner)
}

/// The text of octets in base32hex, cut into tokens anywhere, is parsed as these octets, as in base
/// 16.
pub fn base32hex_entry_is_scanned_back<S: Scanner>(scanner: &mut S) -> Result<S::Octets, S::Error>
    requires { S.can_scan scanner.old }
    ensures ready { S.can_scan scanner.new }
    ensures takes { (tokens : List Token) → HasTokens S.next_token scanner.old tokens
        → EntryBack base32hex S.Error.cause S.Octets.octets S.OctetsBuilder.room tokens result × LeavesOf S.next_token tokens result scanner.new }
{
    entry_is_scanned_back::<Base32Hex, S>(scanner)
}

/// The text of octets in base 64, cut into tokens anywhere, is parsed as these octets, as in base
/// 16.
pub fn base64_entry_is_scanned_back<S: Scanner>(scanner: &mut S) -> Result<S::Octets, S::Error>
    requires { S.can_scan scanner.old }
    ensures ready { S.can_scan scanner.new }
    ensures takes { (tokens : List Token) → HasTokens S.next_token scanner.old tokens
        → EntryBack base64 S.Error.cause S.Octets.octets S.OctetsBuilder.room tokens result × LeavesOf S.next_token tokens result scanner.new }
{
    entry_is_scanned_back::<Base64, S>(scanner)
}
