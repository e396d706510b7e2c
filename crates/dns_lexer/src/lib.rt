//! The grammar of zone files (RFC 1035 section 5.1): what a token is, and how a text splits into
//! entries of tokens.
//!
//! - [`token::is_token`] tests whether a text is a token: a word, or a quoted string.
//! - [`pieces::Pieces`] yields the words, quoted strings, comments and ends of entries of a text
//!   one by one, with their offsets and without allocating, or the error. It can begin at any
//!   entry, and reads octets that needn't be UTF-8.
//! - [`standing::next_of_octets`] also returns them one by one, from a position that the caller
//!   stores as plain numbers.
//! - [`entry_tokens::EntryTokens`] yields the tokens of entries one by one, or a whole entry, for
//!   parsers of records: each token with its offset, whether it is quoted, and whether it is
//!   adjacent to the one before it, and each entry with whether it begins with a blank.
//! - [`pieces::Fault::needs_more`] returns whether more octets may resolve an error, and
//!   [`opening::outermost_open`] finds the outermost parenthesis that isn't closed.
//! - [`position::line_and_column`] returns the line and column of an offset.
//! - [`runs::run_end`] finds the end of a run of octets of one class, for readers of words, quoted
//!   strings, comments and labels.
//! - [`token::content`] returns the text of a token without its double quotes.
//! - [`splitting::split`] returns the entries of a text, each with its tokens as they are spelled,
//!   or [`splitting::SplitError`] with the offset up to which the text could have become one of the
//!   grammar.
//! - [`laws`] has facts about the grammar: every text splits in at most one way, texts that split
//!   can be joined and cut, and so can their pieces. So octets can be read in chunks.
//!
//! The grammar is a relation on whole texts: a text splits into entries if some list of blanks,
//! line ends, parentheses, comments, words and quoted strings spells it, and its words and quoted
//! strings, cut at each line end outside parentheses, are these entries. The relation doesn't
//! depend on the state machine that `Pieces` and `split` run, which reads the octets once.
#![tactic(auto)]

pub mod cursor_state;
pub mod entry_tokens;
pub mod error;
pub mod laws;
pub mod pieces;
pub mod position;
mod reader;
pub mod runs;
mod skip;
pub mod splitting;
pub mod token;
pub mod unclosed;
