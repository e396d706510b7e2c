//! Values that print as one token, and values whose text always splits into their entries.
ghost use Rattle.std.specs.Prelude.{◌≡◌, ℕ, List, All, OnOk};
ghost use Rattle.dns_lexer.specs.Token.{IsToken};
ghost use Rattle.dns_zone.specs.Documents.{IsWellFormed};
ghost use Rattle.dns_zone.specs.Layout.{token};
ghost use Rattle.dns_zone.specs.Each.{each_values, each_nested, each_formed};
ghost use Rattle.dns_zone.specs.Forming.{nested_lines, formed_lines};
ghost use Rattle.dns_zone.specs.Lines.{lines_values};
ghost use Rattle.dns_zone.specs.Nesting.{Fits, lines_of};
ghost use Rattle.dns_zone.specs.Tokens.{one_each};
ghost use Rattle.dns_zone.specs.Writers.{StepsOnOk};

use crate::zonefile_fmt::{FormatWriter, Formatter, Result, ZonefileFmt};

/// A value that prints as one token: a word, or a quoted string (RFC 1035 section 5.1).
pub trait ZoneToken {
    // The token's text.
    ghost text: { Self → List ℕ };

    // What holds of every value.
    ghost holds: { Self → Type 0 };

    /// Prints the token.
    fn write<F: FormatWriter>(&self, p: &mut F) -> Result
        ensures blocks { OnOk result (F.blocks p.new ≡ F.blocks p.old) }
        ensures gives { OnOk result (F.step_gives p.old (token (text self.now)) p.new) };

    /// States what holds of the value. It does nothing at run time.
    fn known(&self)
        ensures { holds self.now };

    ghost is_token: { (x : Self) → holds x → IsToken (text x) };
}

/// A value whose document is well-formed: each token and comment is valid, blocks nest and close,
/// and line ends are outside blocks. So each layout of it splits into its entries.
pub trait ZoneTokens: ZonefileFmt {
    // What holds of every value.
    ghost holds: { Self → Type 0 };

    /// States what holds of the value. It does nothing at run time.
    fn known(&self)
        ensures { holds self.now };

    ghost formed: { (x : Self) → holds x → IsWellFormed (Self.document x) };
}

impl<T: ZoneTokens> ZoneTokens for &T {
    ghost holds = { λ r. T.holds r.now };

    fn known(&self) {
        (**self).known();
    }

    ghost formed = { λ r h. T.formed r.now h };
}

/// Prints values one after another: the document has a token for each, in order.
pub fn write_each<T: ZoneToken, F: FormatWriter>(p: &mut F, items: &[T]) -> Result
    ensures { StepsOnOk F.blocks F.step_gives p.old result (one_each T.text items.now) p.new }
{
    for item in items {
        item.write(p)?;
    }
    Ok(())
}

// States what holds of each value.
fn known_each<T: ZoneToken>(values: &[T])
    ensures { All T.holds values.now }
{
    for value in values {
        value.known();
    }
}

/// Values in a row. The document has a token for each, in order.
#[derive(Drop)]
pub struct Each<'a, T> {
    items: &'a [T],
}

impl<'a, T> Each<'a, T> {
    /// Returns the values in a row, for printing.
    pub fn new(items: &'a [T]) -> Self
        ensures { each_values result ≡ items.now }
    {
        Each { items }
    }
}

impl<T: ZoneToken> ZonefileFmt for Each<'_, T> {
    ghost document = { λ x. one_each T.text (each_values x) };

    ghost nested = { λ x. each_nested T.text (each_values x) };

    fn fmt<F: FormatWriter>(&self, p: &mut F) -> Result {
        write_each(p, self.items)
    }
}

impl<T: ZoneToken> ZoneTokens for Each<'_, T> {
    ghost holds = { λ x. All T.holds (each_values x) };

    fn known(&self) {
        known_each(self.items);
    }

    ghost formed = { λ x h. each_formed T.text T.holds T.is_token (each_values x) h };
}

// States what holds of each value.
fn known_lines<T: ZoneTokens>(values: &[T])
    ensures { All T.holds values.now }
{
    for value in values {
        value.known();
    }
}

// Prints values one after another, with a line end after each.
fn write_lines<T: ZonefileFmt, F: FormatWriter>(p: &mut F, values: &[T]) -> Result
    requires { Fits (lines_of T.document values.now) (F.blocks p.old) }
    ensures { StepsOnOk F.blocks F.step_gives p.old result (lines_of T.document values.now) p.new }
{
    for value in values {
        p.write_show(value)?;
        p.newline()?;
    }
    Ok(())
}

/// Values one after another, with a line end after each, such as the records of a zone.
#[derive(Drop)]
pub struct Lines<'a, T> {
    values: &'a [T],
}

impl<'a, T> Lines<'a, T> {
    /// Returns the values, for printing with a line end after each.
    pub fn new(values: &'a [T]) -> Self
        ensures { lines_values result ≡ values.now }
    {
        Lines { values }
    }
}

impl<T: ZonefileFmt> ZonefileFmt for Lines<'_, T> {
    ghost document = { λ x. lines_of T.document (lines_values x) };

    ghost nested = { λ x. nested_lines T.document T.nested (lines_values x) };

    fn fmt<F: FormatWriter>(&self, p: &mut F) -> Result {
        write_lines(p, self.values)
    }
}

impl<T: ZoneTokens> ZoneTokens for Lines<'_, T> {
    ghost holds = { λ x. All T.holds (lines_values x) };

    fn known(&self) {
        known_lines(self.values);
    }

    ghost formed = { λ x h. formed_lines T.document T.holds T.formed (lines_values x) h };
}
