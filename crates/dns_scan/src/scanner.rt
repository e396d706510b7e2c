//! The trait of scanners, which return the tokens of an entry as values.
ghost use Rattle.std.specs.Prelude.{◌≡◌, [], Option, Some, None, Result, Ok, Bool, false, IsOkAnd, is_some};
ghost use Rattle.dns_scan.specs.Asks.{ScansSymbols, BuildsOctets, BuildsString, BuildsText};
ghost use Rattle.std.specs.Fn.{FnOnceReturnsAt};
ghost use Rattle.dns_symbol.specs.Cause.{IsCause};
ghost use Rattle.dns_scan.specs.Entries.{AsciiText, AsksToken, BuildsEntry, ConvertsEntry, ScansEntry, StringStep, ConvertsOneToken};
ghost use Rattle.dns_scan.specs.Tokens.{Token, ConsumesNothing, ScansToken, MarkerCall, LooksAhead, no_svcb_octets};

use dns_charstr::charstr::CharStr;
use dns_octets::str::Str;
use dns_octets::{AsOctets, AsOctetsMut, FreezeBuilder, OctetsBuilder, Truncate};
use dns_symbol::symbol::{EntrySymbol, Symbol};
use dns_symbol::{ConvertSymbols, ScannerError};
use dns_wire::ToName;

/// A source of the tokens of an entry, which are parsed as values one by one.
///
/// A call for one token consumes it, also if it then rejects it; if none is left, it fails with
/// [`ScannerError::end_of_entry`]. The symbols of a token are handled in order. A bad escape is
/// rejected, with the text of its error, after all symbols before it were handled.
///
/// A call for the entry consumes all tokens, and accepts an entry without tokens. If it rejects a
/// token, the tokens after that one are left.
pub trait Scanner {
    /// The type of octets that are parsed.
    type Octets: AsOctets;

    /// The builder of these octets.
    type OctetsBuilder: OctetsBuilder
        + AsOctets
        + AsOctetsMut
        + Truncate
        + FreezeBuilder<Octets = Self::Octets>;

    /// The type of names that are parsed.
    type Name: ToName;

    /// The error of a call.
    type Error: ScannerError;

    // Whether its calls may be made.
    ghost can_scan: { Self → Type 0 };

    // The state before, the token that is consumed if one is left, and the state after.
    ghost next_token: { Self → Option Token → Self → Type 0 };

    // The result of parsing a token as a name.
    ghost reads_name: { Token → Result Self.Name Self.Error → Type 0 };

    // Whether white space precedes the next token.
    ghost is_spaced: { Self → Bool };

    /// Returns whether white space precedes the next token, which it can only before the first
    /// token.
    fn has_space(&self) -> bool
        ensures { result ≡ is_spaced self.now };

    /// Returns whether a token is left. It consumes none.
    fn continues(&mut self) -> bool
        requires { can_scan self.old }
        ensures ready { can_scan self.new }
        ensures peeks { LooksAhead next_token self.old self.new (λ o. result ≡ is_some o) }
        ensures space { is_spaced self.new ≡ is_spaced self.old };

    /// Consumes a token and passes its symbols to `op`, until `op` fails. Fails with the error of
    /// `op`.
    fn scan_symbols<F>(&mut self, op: &mut F) -> Result<(), Self::Error>
    where
        F: FnMut(Symbol) -> Result<(), Self::Error>,
        requires ready { can_scan self.old }
        requires callable { F.IsAlwaysCallable op.old }
        ensures ready { can_scan self.new }
        ensures callable { F.IsAlwaysCallable op.new }
        ensures scans { ScansSymbols next_token Self.Error.cause (λ f x r g. F.step f x r g)
            self.old op.old result self.new op.new };

    /// Consumes all tokens and passes their symbols, and the end of each token after them, to `op`,
    /// until `op` fails. Fails with the error of `op`. Accepts an entry without tokens.
    fn scan_entry_symbols<F>(&mut self, op: &mut F) -> Result<(), Self::Error>
    where
        F: FnMut(EntrySymbol) -> Result<(), Self::Error>,
        requires ready { can_scan self.old }
        requires callable { F.IsAlwaysCallable op.old }
        ensures ready { can_scan self.new }
        ensures callable { F.IsAlwaysCallable op.new }
        ensures scans { ScansEntry next_token
            (AsksToken Self.Error.cause (λ f x r g. F.step f x r g))
            self.old op.old result self.new op.new };

    /// Converts the symbols of a token with a converter, and then the converter's tail.
    fn convert_token<C: ConvertSymbols<Symbol, Self::Error>>(
        &mut self,
        convert: C,
    ) -> Result<Self::Octets, Self::Error>
        requires { can_scan self.old }
        ensures ready { can_scan self.new }
        ensures scans { ScansToken next_token Self.Error.cause
            (ConvertsOneToken Self.Error.cause Self.OctetsBuilder.room C.takes C.tail Self.Octets.octets
            convert) self.old result self.new };

    /// Converts the symbols of all tokens with a converter, one after the other, and then the
    /// converter's tail. The ends of tokens are not passed to it.
    fn convert_entry<C: ConvertSymbols<EntrySymbol, Self::Error>>(
        &mut self,
        convert: C,
    ) -> Result<Self::Octets, Self::Error>
        requires { can_scan self.old }
        ensures ready { can_scan self.new }
        ensures scans { ConvertsEntry next_token Self.Error.cause Self.OctetsBuilder.room
            C.takes C.tail Self.Octets.octets self.old convert result self.new };

    /// Parses a token as octets. Fails with "bad symbol" if a symbol has no octet.
    fn scan_octets(&mut self) -> Result<Self::Octets, Self::Error>
        requires { can_scan self.old }
        ensures ready { can_scan self.new }
        ensures scans { ScansToken next_token Self.Error.cause
            (BuildsOctets Self.Error.cause Self.OctetsBuilder.room Self.Octets.octets) self.old result self.new };

    /// Always fails, and consumes no token: a scanner needn't know the format of service
    /// parameters.
    fn scan_svcb_octets(&mut self) -> Result<Self::Octets, Self::Error>
        requires { can_scan self.old }
        ensures ready { can_scan self.new }
        ensures same { ConsumesNothing next_token self.old self.new }
        ensures space { is_spaced self.new ≡ is_spaced self.old }
        ensures answer { IsCause Self.Error.cause result no_svcb_octets }
    {
        Err(Self::Error::custom("Scanning SVCB octets is only implemented by some Scanners"))
    }

    /// Passes the text of a token of ASCII characters to `op`. Fails with "non-ASCII characters" if
    /// the text has others, and with "bad symbol" if a symbol has no character.
    fn scan_ascii_str<F, T>(&mut self, op: F) -> Result<T, Self::Error>
    where
        F: FnOnce(&str) -> Result<T, Self::Error>,
        requires ready { can_scan self.old }
        requires callable { F.IsAlwaysCallable op }
        ensures ready { can_scan self.new }
        ensures scans { ScansToken next_token Self.Error.cause
            (AsciiText Self.Error.cause Self.OctetsBuilder.room (λ s r. FnOnceReturnsAt F.FnOnce op s r)) self.old result self.new };

    /// Parses a token as an absolute name.
    fn scan_name(&mut self) -> Result<Self::Name, Self::Error>
        requires { can_scan self.old }
        ensures ready { can_scan self.new }
        ensures scans { ScansToken next_token Self.Error.cause reads_name self.old result self.new };

    /// Parses a token as a character string. Fails with "bad symbol" if a symbol has no octet, and
    /// with [`ScannerError::short_buf`] if there are more than 255 octets.
    fn scan_charstr(&mut self) -> Result<CharStr<Self::Octets>, Self::Error>
        requires { can_scan self.old }
        ensures ready { can_scan self.new }
        ensures scans { ScansToken next_token Self.Error.cause
            (BuildsString Self.Error.cause Self.OctetsBuilder.room) self.old result self.new };

    /// Parses a token as a text. Fails with "bad symbol" if a symbol has no character, such as a
    /// decimal escape.
    fn scan_string(&mut self) -> Result<Str<Self::Octets>, Self::Error>
        requires { can_scan self.old }
        ensures ready { can_scan self.new }
        ensures scans { ScansToken next_token Self.Error.cause
            (BuildsText Self.Error.cause Self.OctetsBuilder.room) self.old result self.new };

    /// Parses all tokens as character strings, and returns their wire formats one after the other
    /// (RFC 1035 section 3.3).
    fn scan_charstr_entry(&mut self) -> Result<Self::Octets, Self::Error>
        requires { can_scan self.old }
        ensures ready { can_scan self.new }
        ensures scans { BuildsEntry next_token (StringStep Self.Error.cause Self.OctetsBuilder.room)
            Self.Octets.octets self.old result self.new };

    /// Consumes a token that is exactly `\#` and returns true, or consumes none and returns false.
    fn scan_opt_unknown_marker(&mut self) -> Result<bool, Self::Error>
        requires { can_scan self.old }
        ensures ready { can_scan self.new }
        ensures scans { MarkerCall next_token self.old result self.new }
        ensures space { result ≡ Ok false → is_spaced self.new ≡ is_spaced self.old };

    /// Returns an empty builder, without consuming a token or allocating.
    fn octets_builder(&mut self) -> Result<Self::OctetsBuilder, Self::Error>
        requires { can_scan self.old }
        ensures ready { can_scan self.new }
        ensures same { ConsumesNothing next_token self.old self.new }
        ensures space { is_spaced self.new ≡ is_spaced self.old }
        ensures empty { IsOkAnd result (λ b. Self.OctetsBuilder.octets b ≡ []) };

    // White space may only precede the first of the tokens that are consumed.
    ghost space_ends: { (s u : Self) (t : Token) → next_token s (Some t) u → is_spaced u ≡ false };

    // If a token was requested and none is left, white space is as before.
    ghost space_stays: { (s u : Self) → next_token s None u → is_spaced u ≡ is_spaced s };
}
