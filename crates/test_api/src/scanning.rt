//! Tokens and their values: a caller's own converter, closures that are not called, and pairs.
ghost use Rattle.std.specs.Prelude.{◌≡◌, [], ◌∷◌, ⊤};

use crate::checks::{equal, holds, is_made};
use arrayvec::ArrayVec;
use dns_iter::scanner::IterScanner;
use dns_octets::ShortBuf;
use dns_scan::{ConvertSymbols, Scan, Scanner, ScannerError, StrError};
use std::cell::Cell;
use std::iter::Copied;
use std::process::Abort;
use std::slice::Iter;

type ShortScanner<'a, const N: usize> = IterScanner<Copied<Iter<'a, &'a str>>, ArrayVec<u8, N>>;

// Returns a scanner of these tokens with a small capacity for octets.
fn short_scanner<'a, const N: usize>(tokens: &'a [&'a str]) -> ShortScanner<'a, N>
    ensures { ⟦<ShortScanner<'a, N> as Scanner>⟧.can_scan result }
{
    IterScanner::new((), tokens.iter().copied())
}

// A converter that counts its calls, produces an octet each time, and rejects one symbol.
#[derive(Drop)]
struct Counting<'a> {
    symbols: &'a Cell<u32>,
    tails: &'a Cell<u32>,
    refused: u32,
}

impl<Sym: Copy> ConvertSymbols<Sym, StrError> for Counting<'_> {
    ghost lends = { λ _. 97 ∷ [] };

    ghost takes = { λ _ _ _ _. ⊤ };

    ghost tail = { λ _ _ _. ⊤ };

    fn take_symbol(&mut self, _symbol: Sym) -> Result<(), StrError> {
        let count = u32::saturating_add(self.symbols.get(), 1);
        self.symbols.set(count);
        if count == self.refused {
            return Err(StrError::custom("enough"));
        }
        Ok(())
    }

    fn take_tail(&mut self) -> Result<(), StrError> {
        self.tails.set(u32::saturating_add(self.tails.get(), 1));
        Ok(())
    }

    fn lent(&self) -> &[u8] {
        b"a"
    }
}

// A token, the symbol that is rejected, the result, and the number of symbols and tails.
type AskRow = (
    &'static str,
    u32,
    Result<&'static [u8], &'static str>,
    (u32, u32),
);

const ASK_ROWS: [AskRow; 5] = [
    ("ab", 9, Ok(b"aaa"), (2, 1)),
    ("", 9, Ok(b"a"), (0, 1)),
    ("abc", 2, Err("enough"), (2, 0)),
    ("ab\\2", 9, Err("unexpected end of input"), (2, 0)),
    ("abcde", 9, Err("short buffer"), (4, 0)),
];

// Asserts the number of symbols and tails of the converter, for the token or the entry.
fn asks(rt: &impl Abort, (token, refused, wanted, asked): AskRow, of_entry: bool) {
    let tokens = [token];
    let mut scanner = short_scanner::<3>(&tokens);
    let symbols = Cell::new(0);
    let tails = Cell::new(0);
    let counting = Counting {
        symbols: &symbols,
        tails: &tails,
        refused,
    };
    let answer = if of_entry {
        scanner.convert_entry(counting)
    } else {
        scanner.convert_token(counting)
    };
    is_made(rt, answer.map_err(|error: StrError| error.as_str()), wanted);
    equal(rt, &(symbols.get(), tails.get()), &asked);
}

#[test]
fn no_tail_is_asked_after_a_refusal(rt: HostRuntime) {
    for row in &ASK_ROWS {
        asks(&rt, *row, false);
        asks(&rt, *row, true);
    }
}

// Asserts that a text is passed to the closure if it is ASCII, and else rejected.
fn handed_over(rt: &impl Abort, token: &str, is_ascii: bool) {
    let tokens = [token];
    let mut scanner = short_scanner::<9>(&tokens);
    let is_called = Cell::new(false);
    let answer = scanner.scan_ascii_str(|_text| {
        is_called.set(true);
        Ok(())
    });
    equal(
        rt,
        &(answer.is_ok(), is_called.get()),
        &(is_ascii, is_ascii),
    );
}

#[test]
fn foreign_texts_are_not_handed_over(rt: HostRuntime) {
    for token in ["\u{e9}", "a\u{e9}", "\\233"] {
        handed_over(&rt, token, false);
    }
    handed_over(&rt, "a", true);
}

// Two values in a row, the second of which consumes no token.
#[test]
fn pairs_are_read(rt: HostRuntime) {
    let mut scanner = short_scanner::<2>(&["12"]);
    let pair: Result<(u8, ()), StrError> = Scan::scan(&mut scanner);
    holds(&rt, matches!(pair, Ok((12, ()))));
    equal(&rt, &StrError::from(ShortBuf).as_str(), &"short buffer");
}
