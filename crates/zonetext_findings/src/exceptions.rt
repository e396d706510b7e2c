//! Exceptions: comments of zone files that except findings about their entry, as
//! `; zonetext: allow CODE, CODE`.
use dns_lexer::pieces::{Piece, Pieces, Span};
use dns_lexer::position::Position;
use finding_codes::code::Code;
use std::alloc::{AllocError, Global};
use std::cmp::Ordering;

/// What a comment with exceptions begins with, after semicolons and blanks.
const MARK: &[u8] = b"zonetext:";

/// The word before the codes.
const ALLOW: &[u8] = b"allow";

/// Part of a comment: its offset from the entry's beginning, and its octets.
#[derive(Clone, Copy)]
pub struct Part<'e> {
    pub at: usize,
    pub octets: &'e [u8],
}

impl<'e> Part<'e> {
    /// Returns the rest after octets that it begins with.
    fn after(self, rest: &'e [u8]) -> Part<'e> {
        let count = self.octets.len().saturating_sub(rest.len());
        Part {
            at: self.at.saturating_add(count),
            octets: rest,
        }
    }

    /// Returns the part without blanks at its ends.
    fn trimmed(self) -> Part<'e> {
        let part = self.after(self.octets.trim_ascii_start());
        Part {
            octets: part.octets.trim_ascii_end(),
            ..part
        }
    }
}

/// Returns the octets of a comment without semicolons and blanks at its beginning.
fn without_semicolons(comment: &[u8]) -> &[u8] {
    match comment
        .iter()
        .position(|octet| !matches!(octet, b';' | b' ' | b'\t'))
    {
        Some(place) => comment.get(place..).unwrap_or(&[]),
        None => &[],
    }
}

/// Returns the octets before the next semicolon, which begins a remark.
fn before_remark(octets: &[u8]) -> &[u8] {
    match octets.iter().position(|octet| *octet == b';') {
        Some(place) => octets.get(..place).unwrap_or(&[]),
        None => octets,
    }
}

/// Returns what a comment states after `zonetext:`, if it begins with that.
fn after_mark(comment: Part<'_>) -> Option<Part<'_>> {
    let body = comment.after(without_semicolons(comment.octets));
    let rest = body.octets.strip_prefix(MARK)?;
    let rest = body.after(rest);
    let part = Part {
        octets: before_remark(rest.octets),
        ..rest
    };
    Some(part.trimmed())
}

/// Returns the first word of a part, and what comes after it.
fn first_word(part: Part<'_>) -> (Part<'_>, Part<'_>) {
    let is_blank = |octet: &u8| octet.is_ascii_whitespace();
    match part.octets.iter().position(is_blank) {
        Some(place) => {
            let (word, rest) = part.octets.split_at(place.min(part.octets.len()));
            let word = Part {
                octets: word,
                ..part
            };
            (word, part.after(rest).trimmed())
        }
        None => (part, part.after(&[])),
    }
}

/// Returns whether the octets of an entry may contain exceptions.
pub fn may_except(octets: &[u8]) -> bool {
    let mut rest = octets;
    for _ in 0..octets.len() {
        let Some(place) = rest.iter().position(|octet| *octet == b';') else {
            return false;
        };
        rest = without_semicolons(rest.get(place..).unwrap_or(&[]));
        if rest.starts_with(MARK) {
            return true;
        }
    }
    false
}

/// A part of a comment that is not as exceptions are written.
#[derive(Clone, Copy)]
pub enum Slip<'e> {
    /// Another word than `allow`.
    Word(Part<'e>),
    /// An unknown code.
    Code(Part<'e>),
}

/// A code that a comment excepts.
#[derive(Clone, Copy)]
pub struct Exception {
    pub code: Code,
    /// Number of files that were opened before its file.
    pub number: usize,
    /// Position of the code in the comment.
    pub position: Position,
    /// Position of the record's type, to which findings about several records are tied.
    record: Option<Position>,
    is_used: bool,
}

/// Returns the order of two positions.
fn compare_positions(left: Position, right: Position) -> Ordering {
    left.line
        .cmp(&right.line)
        .then(left.column.cmp(&right.column))
}

/// Returns the order of the record of an exception and of a position in a file.
fn compare_record(exception: &Exception, number: usize, position: Position) -> Ordering {
    match exception.record {
        Some(record) => exception
            .number
            .cmp(&number)
            .then(compare_positions(record, position)),
        None => Ordering::Less,
    }
}

/// Returns the order of the records of two exceptions: those without a record first.
fn compare(left: &Exception, right: &Exception) -> Ordering {
    match right.record {
        Some(position) => compare_record(left, right.number, position),
        None if left.record.is_some() => Ordering::Greater,
        None => Ordering::Equal,
    }
}

/// The exceptions of files, and those that are in effect.
#[derive(Drop)]
pub struct Exceptions {
    list: Vec<Exception>,
    /// Index of the first exception in effect.
    start: usize,
    /// Index after the last one in effect.
    end: usize,
}

impl Exceptions {
    /// Returns no exceptions.
    pub fn new(alloc: Global) -> Exceptions {
        Exceptions {
            list: Vec::new(alloc),
            start: 0,
            end: 0,
        }
    }

    /// Puts no exceptions in effect, before an entry.
    pub fn begin(&mut self) {
        self.start = self.list.len();
        self.end = self.start;
    }

    /// Adds an exception, and puts it in effect.
    pub fn add(
        &mut self,
        code: Code,
        number: usize,
        position: Position,
        record: Option<Position>,
    ) -> Result<(), AllocError> {
        self.list.push(Exception {
            code,
            number,
            position,
            record,
            is_used: false,
        })?;
        self.end = self.list.len();
        Ok(())
    }

    /// Returns the exceptions in effect.
    pub fn current(&self) -> &[Exception] {
        self.list.get(self.start..self.end).unwrap_or(&[])
    }

    /// Drops the exceptions in effect, which are the last ones.
    pub fn drop_current(&mut self) {
        self.list.truncate(self.start);
        self.end = self.start;
    }

    /// Sorts all exceptions by the position of their record.
    pub fn sort(&mut self) -> Result<(), AllocError> {
        self.list.sort_by(|left, right| compare(left, right))?;
        self.begin();
        Ok(())
    }

    /// Puts the exceptions of the record at a position in effect. They must be sorted.
    pub fn select(&mut self, number: usize, position: Position) {
        let list = self.list.as_slice();
        let is_before = |exception: &Exception| compare_record(exception, number, position).is_lt();
        let is_within = |exception: &Exception| compare_record(exception, number, position).is_le();
        let start = list.partition_point(is_before);
        let end = list.partition_point(is_within);
        self.start = start;
        self.end = end;
    }

    /// Returns whether a code is excepted, and marks its exceptions as used.
    pub fn excepts(&mut self, code: Code) -> bool {
        let mut is_excepted = false;
        for place in self.start..self.end {
            if let Some(exception) = self.list.get_mut(place) {
                if exception.code == code {
                    exception.is_used = true;
                    is_excepted = true;
                }
            }
        }
        is_excepted
    }

    /// Returns all exceptions.
    pub fn all(&self) -> &[Exception] {
        self.list.as_slice()
    }
}

impl Exception {
    /// Returns whether it excepted a finding.
    pub fn is_used(&self) -> bool {
        self.is_used
    }
}

/// What the comments of an entry state.
#[derive(Drop)]
pub struct Stated<'e> {
    /// The codes, with their parts of comments.
    pub codes: Vec<(Code, Part<'e>)>,
    pub slips: Vec<Slip<'e>>,
}

/// Appends the codes of a list, which commas separate.
fn push_codes<'e>(part: Part<'e>, stated: &mut Stated<'e>) -> Result<(), AllocError> {
    let mut rest = part;
    for word in part.octets.split(|octet| *octet == b',') {
        let code = Part {
            octets: word,
            ..rest
        };
        push_code(code.trimmed(), stated)?;
        let next = rest.octets.get(word.len().saturating_add(1)..);
        rest = rest.after(next.unwrap_or(&[]));
    }
    Ok(())
}

/// Appends a code.
fn push_code<'e>(part: Part<'e>, stated: &mut Stated<'e>) -> Result<(), AllocError> {
    let named = match str::from_utf8(part.octets) {
        Ok(name) => Code::named(name),
        Err(_) => None,
    };
    match named {
        Some(code) => stated.codes.push((code, part))?,
        None => stated.slips.push(Slip::Code(part))?,
    }
    Ok(())
}

/// Appends what a comment states.
fn push_stated<'e>(comment: Part<'e>, found: &mut Stated<'e>) -> Result<(), AllocError> {
    let Some(part) = after_mark(comment) else {
        return Ok(());
    };
    let (word, codes) = first_word(part);
    if word.octets == ALLOW {
        return push_codes(codes, found);
    }
    found.slips.push(Slip::Word(word))?;
    Ok(())
}

/// Returns the octets of a span.
fn octets_of(octets: &[u8], span: Span) -> &[u8] {
    octets.get(span.start..span.end).unwrap_or(&[])
}

/// Returns what the comments of an entry state, up to its syntax error.
pub fn stated_of<'e>(alloc: Global, octets: &'e [u8]) -> Result<Stated<'e>, AllocError> {
    let mut found = Stated {
        codes: Vec::new(alloc),
        slips: Vec::new(alloc),
    };
    for piece in Pieces::of_octets(octets) {
        if let Ok(Piece::Comment(span)) = piece {
            let comment = Part {
                at: span.start,
                octets: octets_of(octets, span),
            };
            push_stated(comment, &mut found)?;
        }
    }
    Ok(found)
}
