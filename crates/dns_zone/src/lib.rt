//! Zone files (RFC 1035 section 5.1): documents, and three layouts to print them in.
//!
//! A *document* is a list of steps: tokens, beginnings and ends of blocks, comments and line ends.
//! A value defines its document by [`zonefile_fmt::ZonefileFmt`], and
//! [`zonefile_fmt::ZonefileFmt::display_zonefile`] returns the value as a `Display` in a layout,
//! whose text is exactly the document's text in that layout.
//!
//! The parts, in the order in which a reader meets them:
//!
//! - [`zonefile_fmt::ZonefileFmt`]: a value that prints as text of a zone file, with its document.
//! - [`zonefile_fmt::DisplayKind`] and [`zonefile_fmt::ZoneFileDisplay`]: the layouts, and a value
//!   to be printed in one.
//! - [`zonefile_fmt::FormatWriter`]: a writer that prints steps one by one;
//!   [`zonefile_fmt::SimpleWriter`], [`zonefile_fmt::TabbedWriter`] and
//!   [`zonefile_fmt::MultiLineWriter`] print them to any sink, one for each layout.
//! - [`zonefile_fmt::Sink`]: what the writers print to. Every `fmt::Write` is a sink.
//! - [`zonefile_fmt::Formatter`]: methods with which a value prints itself. Every `FormatWriter`
//!   has them.
//! - [`document::Item`] and [`document::Document`]: a document as a list of items, made of exactly
//!   the well-formed lists: each token is a word or a quoted string, no comment has a line end,
//!   blocks nest and close, and line ends are outside blocks.
//! - [`tokens::ZoneToken`]: a value that prints as one token; [`tokens::write_each`] and
//!   [`tokens::Each`] print such values in a row.
//! - [`tokens::ZoneTokens`]: a value whose document is always well-formed; [`tokens::Lines`] prints
//!   values with a line end after each. `specs/Forming.antt` has lemmas to prove it
//!   (`formed_append`, `formed_lines`).
//!
//! `specs/Layout.antt` defines documents, and their text in each layout, step by step from the
//! steps before; `specs/Rows.antt` has computed examples. The laws of well-formed documents are in
//! [`laws`].
//!
//! # A record with a block and comments
//!
//! A type states its document, and that its blocks nest, which `refl` proves if the steps are
//! written out. Its `fmt` then prints these steps; the check finds the proof by itself.
//!
//! ```text
//! ghost use Rattle.std.specs.Prelude.{◌≡◌, [], ◌∷◌, ◌++◌, codes, false, refl};
//! ghost use Rattle.std.specs.Fmt.{decimal};
//! ghost use Rattle.std.specs.String.{string_bytes};
//! ghost use Rattle.dns_zone.specs.Layout.{token, begin, end, comment};
//! ghost use Rattle.dns_zone.specs.Nesting.{has_line};
//! ghost use Rattle.dns_zone.specs.Forming.{nested_in_block};
//!
//! struct Mx {
//!     preference: u16,
//!     exchange: String,
//! }
//!
//! impl ZonefileFmt for Mx {
//!     ghost document = {
//!         λ x. token (decimal x.preference) ∷ comment (codes "preference") ∷ token (string_bytes x.exchange) ∷ comment (codes "exchange") ∷ []
//!     };
//!
//!     ghost nested = { λ _. refl };
//!
//!     fn fmt<F: FormatWriter>(&self, p: &mut F) -> Result {
//!         p.write_token(self.preference)?;
//!         p.write_comment("preference")?;
//!         p.write_token(self.exchange.as_str())?;
//!         p.write_comment("exchange")?;
//!         Ok(())
//!     }
//! }
//! ```
//!
//! A value that is put into a block has no line end. The author's trait states that, and
//! `nested_in_block` proves the rest:
//!
//! ```text
//! trait RecordData: ZonefileFmt {
//!     ghost one_line: { (x : Self) → has_line (Self.document x) ≡ false };
//! }
//!
//! impl RecordData for Mx {
//!     ghost one_line = { λ _. refl };
//! }
//!
//! struct Record<D> {
//!     owner: String,
//!     rtype: String,
//!     rdata: D,
//! }
//!
//! impl<D: RecordData> ZonefileFmt for Record<D> {
//!     ghost document = {
//!         λ x. token (string_bytes x.owner) ∷ token (string_bytes x.rtype) ∷ begin ∷ (D.document x.rdata ++ end ∷ [])
//!     };
//!
//!     ghost nested = { λ x. nested_in_block (D.document x.rdata) (D.nested x.rdata) (D.one_line x.rdata) };
//!
//!     fn fmt<F: FormatWriter>(&self, p: &mut F) -> Result {
//!         p.write_token(self.owner.as_str())?;
//!         p.write_token(self.rtype.as_str())?;
//!         p.block(&self.rdata)
//!     }
//! }
//! ```
//!
//! `record.display_zonefile(DisplayKind::Multiline)` then prints three lines, with a tab before
//! each semicolon:
//!
//! ```text
//! example.com. MX ( 10 ; preference
//!                   mail.example.com. ; exchange
//!                   )
//! ```
//!
//! For values that print in a loop, `specs/Forming.antt` has lemmas on documents one after another
//! (`nested_append`, `nested_lines`, `nested_in_block`, `no_line_append`), and `proofs/Runs.antt`
//! has lemmas on the steps of a writer (`runs_none`, `runs_step`, `runs_append`, `runs_block`,
//! `runs_then_step`).
#![tactic(auto)]

pub mod document;
pub mod entry;
pub mod error;
pub mod laws;
pub mod tokens;
pub mod zonefile_fmt;
