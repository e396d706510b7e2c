//! What findings about one entry have in common.
use crate::cursor::Cursor;
use crate::locations::{Line, line_at, located, next_position, tokens_of};
use crate::reporter::FindingLocation;
use crate::subjects::Subject;
use dns_lexer::entry_tokens::EntryToken;
use dns_lexer::position::Position;
use std::alloc::{AllocError, Global};
use zonetext_files::zone_files::Entry;

/// What findings about one entry have in common. Each part is made when a finding first needs it, so
/// that many findings about a long entry take linear time.
#[derive(Drop)]
pub struct EntryCache<'e> {
    alloc: Global,
    cursor: Cursor<'e>,
    /// The line of the last finding.
    line: Option<Line<'e>>,
    tokens: Vec<EntryToken<'e>>,
    has_tokens: bool,
    subject: Subject,
    has_subject: bool,
}

impl<'e> EntryCache<'e> {
    /// Returns what is known of an entry before its first finding.
    pub fn new(alloc: Global, entry: &Entry<'e>) -> EntryCache<'e> {
        EntryCache {
            alloc,
            cursor: Cursor::new(entry.held),
            line: None,
            tokens: Vec::new(alloc),
            has_tokens: false,
            subject: Subject::none(alloc),
            has_subject: false,
        }
    }

    /// Returns the position of an offset of the entry, which is counted from the entry's beginning. That
    /// of a generated entry is the position of its directive.
    pub fn position(&mut self, entry: &Entry<'e>, at: usize) -> Position {
        next_position(entry, &mut self.cursor, at)
    }

    /// Returns the line of an offset of the entry: that of the last finding, if the offset is in it.
    fn line(&mut self, entry: &Entry<'e>, at: usize) -> Line<'e> {
        let last = self.line;
        let line = match last {
            Some(line) if line.contains(at) => line,
            _ => line_at(entry.held, at),
        };
        self.line = Some(line);
        line
    }

    /// Returns the location of `width` octets from an offset of the entry on, which is counted from the
    /// entry's beginning, and has a position.
    pub fn located(
        &mut self,
        entry: &Entry<'e>,
        at: usize,
        position: Position,
        width: usize,
    ) -> FindingLocation<'e> {
        let line = self.line(entry, at);
        located(entry, at, position, width, line)
    }

    /// Splits the entry into its tokens, unless that was done before. Fails without memory.
    pub fn read_tokens(&mut self, entry: &Entry<'e>) -> Result<(), AllocError> {
        if !self.has_tokens {
            self.tokens = tokens_of(self.alloc, entry)?;
            self.has_tokens = true;
        }
        Ok(())
    }

    /// Returns the tokens of the entry, or none before [`EntryCache::read_tokens`].
    pub fn tokens(&self) -> &[EntryToken<'e>] {
        self.tokens.as_slice()
    }

    /// Returns whether the subject of the entry is known.
    pub fn has_subject(&self) -> bool {
        self.has_subject
    }

    /// Stores the subject of the entry.
    pub fn set_subject(&mut self, subject: Subject) {
        self.subject = subject;
        self.has_subject = true;
    }

    /// Returns the subject of the entry, or none before [`EntryCache::set_subject`].
    pub fn subject(&self) -> &Subject {
        &self.subject
    }
}
