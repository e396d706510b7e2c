//! Laws of the presentation format of names.
ghost use Rattle.std.specs.Prelude.{◌≡◌, ◌≤◌, Ok};
ghost use Rattle.dns_scan.specs.Unread.{ConsumesOne};
ghost use Rattle.dns_wire.specs.Wire.{wire_length};
ghost use Rattle.dns_laws.specs.Names.{ReturnsName, NameBack};
ghost use Rattle.dns_iter.specs.TokenNext.{token_next};

use dns_iter::{IterScanner, ScanOctets};
use dns_scan::{Scanner, ScannerError};
use dns_wire::Name;

/// A text that is an absolute name is parsed as that name, if it fits. So are the text of the name
/// with its final dot, and its zone file text. A text that is a relative name with at least one
/// label is parsed as that name with the root appended, and so is its zone file text.
pub fn names_are_scanned_back<
    'a,
    Iter: Iterator<Item = &'a str>,
    Octets: ScanOctets,
    E: ScannerError,
>(scanner: &mut IterScanner<Iter, Octets, E>) -> Result<Name<Octets>, E>
    requires { ⟦<IterScanner<Iter, Octets, E> as Scanner>⟧.can_scan scanner.old }
    ensures ready { ⟦<IterScanner<Iter, Octets, E> as Scanner>⟧.can_scan scanner.new }
    ensures takes { ConsumesOne (token_next Iter.next_gives) scanner.old scanner.new
        (NameBack Octets (λ name. ReturnsName E.cause Octets.Builder.room name result)) }
{
    scanner.scan_name()
}

/// If the octets of a name fit the guaranteed capacity, as those of every name fit an array of 255,
/// the name is returned: for a text that is that name, for its zone file text, and for both without
/// the root.
pub fn fitting_names_are_answered<
    'a,
    Iter: Iterator<Item = &'a str>,
    Octets: ScanOctets,
    E: ScannerError,
>(scanner: &mut IterScanner<Iter, Octets, E>) -> Result<Name<Octets>, E>
    requires { ⟦<IterScanner<Iter, Octets, E> as Scanner>⟧.can_scan scanner.old }
    ensures ready { ⟦<IterScanner<Iter, Octets, E> as Scanner>⟧.can_scan scanner.new }
    ensures takes { ConsumesOne (token_next Iter.next_gives) scanner.old scanner.new
        (NameBack Octets (λ name. wire_length name ≤ Octets.Builder.room.fits → result ≡ Ok name)) }
{
    names_are_scanned_back(scanner)
}
