//! Splits a zone file into entries.
ghost use Rattle.std.specs.Prelude.{◌≡◌, ◌++◌, ◌∷◌, [], Ok, Some, OnOk, IfErr, IfOk, true};
ghost use Rattle.std.specs.List.{All, AllByRecursion};
ghost use Rattle.dns_lexer.specs.Answer.{IsKeptOf, IsSplitOf, KeepsPiece, entries_of, is_stored, texts};
ghost use Rattle.dns_lexer.specs.Pieces.{IsPieceOf};
ghost use Rattle.dns_lexer.specs.Splitting.{SplitsOnlyInto};
ghost use Rattle.dns_lexer.specs.Token.{IsToken};

pub use crate::error::SplitError;
use crate::pieces::{Piece, Pieces};
use std::alloc::{AllocError, Allocator};
use std::mem;

/// Whole entries, and the tokens of the open one.
#[derive(Drop)]
struct Collected<A: Allocator> {
    found: Vec<Vec<String<A>, A>, A>,
    entry: Vec<String<A>, A>,
}

impl<A: Allocator + Copy> Collected<A> {
    /// Stores a token.
    fn add_token(&mut self, alloc: A, token: &str) -> Result<(), AllocError>
        ensures found { OnOk result (self.new.found ≡ self.old.found) }
        ensures entry { OnOk result (texts self.new.entry.items
            ≡ texts self.old.entry.items ++ token.now ∷ []) }
    {
        self.entry.push(String::from_str(alloc, token)?)?;
        Ok(())
    }

    /// Ends the entry.
    fn end_entry(&mut self, alloc: A) -> Result<(), AllocError>
        ensures found { OnOk result (entries_of self.new.found.items
            ≡ entries_of self.old.found.items ++ texts self.old.entry.items ∷ []) }
        ensures entry { OnOk result (texts self.new.entry.items ≡ []) }
    {
        let entry = mem::replace(&mut self.entry, Vec::new(alloc));
        self.found.push(entry)?;
        Ok(())
    }

    /// Stores a piece.
    #[inline(always)]
    fn keep(&mut self, alloc: A, text: &str, piece: Piece) -> Result<(), AllocError>
        requires { IsPieceOf text.now piece }
        ensures keeps { OnOk result (KeepsPiece text.now piece self.old self.new) }
        ensures stores { IfErr result (λ _. is_stored (Ok piece) ≡ true) }
    {
        match piece {
            Piece::Word(part) | Piece::Quote(part) => {
                self.add_token(alloc, &text[part.start..part.end])
            }
            Piece::Comment(_) => Ok(()),
            Piece::End(_) => self.end_entry(alloc),
        }
    }

    /// Stores the pieces of a text, up to an error.
    fn keep_all(&mut self, alloc: A, text: &str) -> Result<(), SplitError>
        requires found { self.old.found.items ≡ [] }
        requires entry { self.old.entry.items ≡ [] }
        ensures { IsKeptOf result text.now (entries_of self.new.found.items) }
    {
        for piece in Pieces::new(text) {
            match piece {
                Ok(piece) => match self.keep(alloc, text, piece) {
                    Ok(()) => {}
                    Err(_) => return Err(SplitError::ShortBuf),
                },
                Err(fault) => return Err(SplitError::BadText(fault.at)),
            }
        }
        Ok(())
    }
}

/// Splits a zone file into entries, each a list of tokens (RFC 1035 section 5.1).
///
/// Blanks are space and tab. A line ends in LF or CR LF. A semicolon begins a comment to the end of
/// the line. Parentheses nest and join lines. A quoted string may contain blanks, semicolons and
/// parentheses. A token is stored as it is spelled, with its escapes and double quotes. Each line
/// end outside parentheses ends an entry, so there is one entry more than there are such line ends,
/// and empty ones count. Two tokens may be adjacent if at least one of them is quoted.
///
/// Fails with `BadText` if the text isn't of this grammar, with the offset up to which it could
/// still have become one. Fails with `ShortBuf` only if an allocation fails, so not where an error
/// comes before the first token and the first end of an entry. The time is linear in the octets.
pub fn split<A: Allocator + Copy>(
    alloc: A,
    text: &str,
) -> Result<Vec<Vec<String<A>, A>, A>, SplitError>
    ensures exact { IsSplitOf result text.now }
    ensures only { IfOk result (λ v. SplitsOnlyInto text.now (entries_of v.items)) }
    ensures tokens { IfOk result (λ v. All (λ e. AllByRecursion IsToken (texts e.items)) v.items) }
{
    let mut collected = Collected {
        found: Vec::new(alloc),
        entry: Vec::new(alloc),
    };
    match collected.keep_all(alloc, text) {
        Ok(()) => {}
        Err(error) => return Err(error),
    }
    let Collected { found, .. } = collected;
    Ok(found)
}
