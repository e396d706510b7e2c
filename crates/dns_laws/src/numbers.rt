//! Laws of numbers: a printed number parses as the same number.
ghost use Rattle.std.specs.Prelude.{◌≡◌, ℕ, List, ◌∷◌, Result};
ghost use Rattle.std.proofs.Common.{lit<};
ghost use Rattle.dns_symbol.specs.Cause.{Cause};
ghost use Rattle.dns_scan.specs.Numbers.{greatest};
ghost use Rattle.dns_scan.specs.Unread.{ConsumesAs};
ghost use Rattle.dns_scan.specs.Tokens.{Token};
ghost use Rattle.dns_laws.specs.Numbers.{NumberBack};
ghost use Rattle.dns_laws.specs.NumberLaws.{read_of};

use dns_octets::Ttl;
use dns_scan::{Scan, Scanner};

/// A type of numbers that can be parsed: `u8` to `u128`, and [`Ttl`] in seconds.
pub trait Number<S: Scanner>: Scan<S> {
    // The greatest number.
    ghost limit: { ℕ };

    // The number of a value.
    ghost number: { Self → ℕ };

    // A token is parsed as its number or rejected, and the other tokens are left.
    ghost reads_number: { (token : Token) (others rest : List Token) (r : Result Self Cause) → Self.scan_reads (token ∷ others) r rest
        → NumberBack limit number (λ why. why) token r × (rest ≡ others) };
}

impl<S: Scanner> Number<S> for u8 {
    ghost limit = { greatest 8 };

    ghost number = { λ n. n };

    ghost reads_number = { read_of 8 (lit< tt) };
}

impl<S: Scanner> Number<S> for u16 {
    ghost limit = { greatest 16 };

    ghost number = { λ n. n };

    ghost reads_number = { read_of 16 (lit< tt) };
}

impl<S: Scanner> Number<S> for u32 {
    ghost limit = { greatest 32 };

    ghost number = { λ n. n };

    ghost reads_number = { read_of 32 (lit< tt) };
}

impl<S: Scanner> Number<S> for u64 {
    ghost limit = { greatest 64 };

    ghost number = { λ n. n };

    ghost reads_number = { read_of 64 (lit< tt) };
}

impl<S: Scanner> Number<S> for u128 {
    ghost limit = { greatest 128 };

    ghost number = { λ n. n };

    ghost reads_number = { read_of 128 (lit< tt) };
}

impl<S: Scanner> Number<S> for Ttl {
    ghost limit = { greatest 32 };

    ghost number = { λ n. n };

    ghost reads_number = { read_of 32 (lit< tt) };
}

/// The decimal text of a number of the type is parsed as exactly this number, without allocating.
/// So is every token of plain digits with that value, also with leading zeros; the empty token is
/// 0.
///
/// Any other token is rejected, with its first error: a symbol that isn't a plain digit, a value
/// above the greatest, or a bad escape.
pub fn number_is_scanned_back<N: Number<S>, S: Scanner>(scanner: &mut S) -> Result<N, S::Error>
    requires { S.can_scan scanner.old }
    ensures ready { S.can_scan scanner.new }
    ensures takes { ConsumesAs S.next_token (NumberBack N.limit N.number S.Error.cause)
        scanner.old result scanner.new }
{
    N::scan(scanner)
}
