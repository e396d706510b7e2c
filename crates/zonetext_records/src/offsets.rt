//! The command `cut --offsets`: prints where parts of a zone file begin, and the state there.
use dns_lexer::pieces::{Fault, Wrong};
use dns_lexer::position::Position;
use dns_zone::zonefile_fmt::{DisplayKind, ZonefileFmt};
use error_texts::kinds::{kind_text, syntax_error_text};
use rdata_fields::RecordError;
use std::alloc::AllocError;
use std::fs::File;
use std::io::Write;
use zone_format::place::LocatedOffset;
use zone_parts::part_line::push_word;
use zone_parts::{PartFinder, PartLine, PassError, PassStop, StateHead};
use zone_reader::State;
use zonetext_files::blocks::{BLOCK, read_block};
use zonetext_files::data_buffer::DataBuffer;
use zonetext_files::lines::Lines;
use zonetext_files::open_file::{first_place, place_after};
use zonetext_files::progress::Progress;
use zonetext_files::shown::Shown;
use zonetext_files::stop::{RunError, exit_status};
use zonetext_lib::order_mark::order_mark_len;

/// Number of octets of lines that are held until the whole file was passed. If there are more, the file
/// is passed again.
const MOST_HELD: usize = 1 << 20;

/// The options of the command.
#[derive(Clone, Copy)]
pub struct OffsetOptions {
    /// Greatest number of parts.
    pub count: usize,
    /// Greatest number of octets of an entry.
    pub max_entry: usize,
    /// Whether progress is not shown.
    pub is_quiet: bool,
}

/// Why nothing is printed.
#[derive(Drop)]
enum Stop {
    /// The file can't be read in parts.
    Refused,
    Run(RunError),
}

impl From<RunError> for Stop {
    fn from(error: RunError) -> Stop {
        Stop::Run(error)
    }
}

impl From<AllocError> for Stop {
    fn from(_error: AllocError) -> Stop {
        Stop::Run(RunError::OutOfMemory)
    }
}

/// The octets of a file that are held, and how far its entries were passed.
#[derive(Drop)]
struct Held {
    octets: Vec<u8>,
    /// Offset of the first of them in the file.
    start: usize,
    /// Number of them that were passed.
    next: usize,
    /// Place up to which lines and columns are counted: after some that were passed.
    counted: LocatedOffset,
    /// Whether no octets follow them.
    is_last: bool,
}

impl Held {
    /// Returns the octets that were not passed.
    fn rest(&self) -> &[u8] {
        self.octets.as_slice().get(self.next..).unwrap_or(&[])
    }

    /// Returns the offset in the file of the octet that is passed next.
    fn at(&self) -> usize {
        self.start.saturating_add(self.next)
    }

    /// Returns the place of an octet at or after the counted place.
    fn place(&self, at: usize) -> LocatedOffset {
        let first = self.counted.at.saturating_sub(self.start);
        let end = at.saturating_sub(self.start);
        match self.octets.as_slice().get(first..end) {
            Some(octets) => place_after(self.counted, octets),
            None => self.counted,
        }
    }

    /// Counts lines up to the octet that is passed next.
    fn count(&mut self) {
        self.counted = self.place(self.at());
    }

    /// Drops the octets that were passed.
    fn drop_passed(&mut self) {
        self.count();
        self.start = self.at();
        let next = self.next.min(self.octets.len());
        self.octets.as_mut_slice().copy_within(next.., 0);
        self.octets.truncate(self.octets.len() - next);
        self.next = 0;
    }
}

/// Finds the parts of a file.
#[derive(Drop)]
struct OffsetFinder<'f> {
    rt: &'f HostRuntime,
    file: &'f str,
    options: OffsetOptions,
    finder: PartFinder,
    held: Held,
    data: DataBuffer<Vec<u8>>,
    /// Number of the line where the last part begins.
    line: usize,
    /// The lines that set the state where the last part begins.
    head: String,
    word: String,
    lines: Lines<'f>,
    /// Whether lines are printed as they come.
    prints: bool,
    /// Whether lines were dropped.
    has_dropped: bool,
}

/// Returns the position of the opening quote that a syntax error is about.
fn opened(held: &Held, fault: Fault) -> Option<Position> {
    match fault.wrong {
        Wrong::OpenQuote(start) => Some(held.place(held.at().saturating_add(start)).position),
        _ => None,
    }
}

/// Stores the lines that set a state.
fn store_head(head: &mut String, lines: &StateHead<'_>) -> Result<(), AllocError> {
    head.truncate(0);
    write!(head, "{}", lines.display_zonefile(DisplayKind::Simple))?;
    Ok(())
}

impl<'f> OffsetFinder<'f> {
    /// Returns a finder for a file of this number of octets, before its first entry.
    fn new(
        rt: &'f HostRuntime,
        file: &'f str,
        octets: usize,
        state: State,
        options: OffsetOptions,
        prints: bool,
    ) -> Result<OffsetFinder<'f>, Stop> {
        let alloc = rt.alloc();
        let Ok(data) = DataBuffer::with_room(alloc) else {
            return Err(Stop::Run(RunError::OutOfMemory));
        };
        Ok(OffsetFinder {
            rt,
            file,
            options,
            finder: PartFinder::new(state, octets, options.count),
            held: Held {
                octets: Vec::new(alloc),
                start: 0,
                next: 0,
                counted: first_place(),
                is_last: false,
            },
            data,
            line: 1,
            head: String::new(alloc),
            word: String::new(alloc),
            lines: Lines::new(rt),
            prints,
            has_dropped: false,
        })
    }

    /// Reports why the file can't be read in parts: `why` at a place.
    fn refuse(&self, at: usize, why: &str) -> Stop {
        let file = Shown(self.file);
        let Position { line, column } = self.held.place(at).position;
        match eprintln!(self.rt; "{file}:{line}:{column}: error: {why}") {
            Ok(()) => Stop::Refused,
            Err(error) => Stop::Run(RunError::Write(error)),
        }
    }

    /// Reports a syntax error.
    fn refuse_text(&self, fault: Fault) -> Stop {
        let why = syntax_error_text(fault.wrong);
        let at = self.held.at().saturating_add(fault.at);
        let Some(Position { line, column }) = opened(&self.held, fault) else {
            return self.refuse(at, why);
        };
        match format!(in self.rt.alloc(); "{why}, opened at {line}:{column}") {
            Ok(text) => self.refuse(at, text.as_str()),
            Err(_) => Stop::Run(RunError::OutOfMemory),
        }
    }

    /// Reports a rejected directive.
    fn refuse_directive(&self, error: RecordError) -> Stop {
        let at = self.held.at().saturating_add(error.offset);
        self.refuse(at, kind_text(error.rtype, error.kind))
    }

    /// Reports why an entry keeps the file from being read in parts.
    fn refuse_entry(&self, error: PassError) -> Stop {
        let start = self.held.at();
        match error {
            PassError::Text(fault) => self.refuse_text(fault),
            PassError::Directive(error) => self.refuse_directive(error),
            PassError::Include(at) => self.refuse(
                start.saturating_add(at),
                "$INCLUDE in a file that is cut",
            ),
            PassError::Generate(at) => self.refuse(
                start.saturating_add(at),
                "$GENERATE in a file that is cut",
            ),
        }
    }

    /// Reports an entry that is too long.
    fn refuse_long(&self) -> Stop {
        let limit = self.options.max_entry;
        match format!(in self.rt.alloc(); "entry longer than {limit} octets") {
            Ok(text) => self.refuse(self.held.at(), text.as_str()),
            Err(_) => Stop::Run(RunError::OutOfMemory),
        }
    }

    /// Appends the line of the last part, which ends at an offset.
    fn push_line(&mut self, end: usize) -> Result<(), Stop> {
        self.word.truncate(0);
        push_word(&mut self.word, self.head.as_bytes())?;
        let part = PartLine {
            offset: self.finder.began(),
            len: self.finder.len_to(end),
            line: self.line,
            head: self.word.as_str(),
        };
        part.push_to(&mut self.lines.text)?;
        self.lines.text.push('\n')?;
        if self.prints {
            if let Err(error) = self.lines.flush_block() {
                return Err(Stop::Run(RunError::Write(error)));
            }
        } else if self.lines.text.len() > MOST_HELD {
            self.lines.text.truncate(0);
            self.has_dropped = true;
        }
        Ok(())
    }

    /// Begins a part with the entry that is passed next, if lines set the state there. After lines were
    /// dropped, no more are made.
    #[inline(never)]
    fn begin_part(&mut self) -> Result<(), Stop> {
        if self.finder.head().is_none() {
            return Ok(());
        }
        let at = self.held.at();
        if self.has_dropped {
            let _len = self.finder.begin(at);
            return Ok(());
        }
        self.push_line(at)?;
        self.held.count();
        self.line = self.held.counted.position.line;
        if let Some(lines) = self.finder.head() {
            store_head(&mut self.head, &lines)?;
        }
        let _len = self.finder.begin(at);
        Ok(())
    }

    /// Passes the entries that are held, as far as no octets that follow can change them.
    fn pass_held(&mut self) -> Result<(), Stop> {
        for _ in 0..u64::MAX {
            if self.held.rest().is_empty() {
                return Ok(());
            }
            if self.finder.may_begin(self.held.at()) {
                self.begin_part()?;
            }
            let (at, is_last) = (self.held.at(), self.held.is_last);
            let max_entry = self.options.max_entry;
            let rest = self.held.rest();
            let passed = self
                .finder
                .pass_entries(rest, at, is_last, max_entry, &mut self.data);
            self.held.next = self.held.next.saturating_add(passed.count);
            match passed.stop {
                PassStop::Entry => {}
                PassStop::MoreOctets => return Ok(()),
                PassStop::LongEntry => return Err(self.refuse_long()),
                PassStop::Error(error) => return Err(self.refuse_entry(error)),
            }
        }
        Ok(())
    }

    /// Passes over a byte order mark.
    fn pass_mark(&mut self) -> Result<(), Stop> {
        match order_mark_len(self.held.rest()) {
            2 => Err(self.refuse(0, "UTF-16, not a zone file")),
            count => {
                self.held.next = count.min(self.held.octets.len());
                Ok(())
            }
        }
    }

    /// Reads blocks until twice the octets are held, or no more follow.
    fn fill(
        &mut self,
        input: &mut File,
        block: &mut [u8],
        progress: &mut Progress,
    ) -> Result<(), Stop> {
        let wanted = self.held.octets.len().saturating_mul(2).max(BLOCK);
        for _ in 0..u64::MAX {
            if self.held.is_last || self.held.octets.len() >= wanted {
                return Ok(());
            }
            let count = match read_block(input, block) {
                Ok(count) => count.min(block.len()),
                Err(error) => {
                    let file = String::from_str(self.rt.alloc(), self.file)?;
                    return Err(Stop::Run(RunError::Read { file, error }));
                }
            };
            self.held.is_last = count == 0;
            self.held.octets.extend_from_slice(&block[..count])?;
            if let Err(error) = progress.read(count) {
                return Err(Stop::Run(RunError::Write(error)));
            }
        }
        Ok(())
    }

    /// Passes the entries of an open file, and appends the lines of its parts.
    fn pass_file(&mut self, input: &mut File, progress: &mut Progress) -> Result<(), Stop> {
        let mut block = vec![in self.rt.alloc(); 0; BLOCK]?;
        if let Some(lines) = self.finder.head() {
            store_head(&mut self.head, &lines)?;
        }
        self.fill(input, block.as_mut_slice(), progress)?;
        self.pass_mark()?;
        for _ in 0..u64::MAX {
            self.pass_held()?;
            if self.held.is_last {
                let end = self.held.start.saturating_add(self.held.octets.len());
                return self.push_line(end);
            }
            self.held.drop_passed();
            self.data.clear();
            self.fill(input, block.as_mut_slice(), progress)?;
        }
        Ok(())
    }
}

/// Passes a file, and returns its finder.
fn pass_file<'f>(
    rt: &'f HostRuntime,
    file: &'f str,
    octets: usize,
    state: State,
    options: OffsetOptions,
    prints: bool,
) -> Result<OffsetFinder<'f>, Stop> {
    let mut finder = OffsetFinder::new(rt, file, octets, state, options, prints)?;
    let mut input = match File::open(rt, file) {
        Ok(input) => input,
        Err(error) => {
            let file = String::from_str(rt.alloc(), file)?;
            return Err(Stop::Run(RunError::Read { file, error }));
        }
    };
    let mut progress = match Progress::new(rt, file, options.is_quiet) {
        Ok(progress) => progress,
        Err(error) => return Err(Stop::Run(RunError::Write(error))),
    };
    let passed = finder.pass_file(&mut input, &mut progress);
    if let Err(error) = progress.clear() {
        return Err(Stop::Run(RunError::Write(error)));
    }
    match passed {
        Ok(()) => Ok(finder),
        Err(stop) => Err(stop),
    }
}

/// Prints the parts of a file: once all entries were passed, so that nothing is printed of a file that can't
/// be read in parts.
fn print_parts(
    rt: &HostRuntime,
    file: &str,
    octets: usize,
    state: State,
    options: OffsetOptions,
) -> Result<(), Stop> {
    let first = state.copied();
    let mut finder = pass_file(rt, file, octets, first, options, false)?;
    if finder.has_dropped {
        finder = pass_file(rt, file, octets, state, options, true)?;
    }
    match finder.lines.flush() {
        Ok(()) => Ok(()),
        Err(error) => Err(Stop::Run(RunError::Write(error))),
    }
}

/// Prints where parts of a file of this number of octets begin, and returns the status. `state` is that at
/// the start of reading. If the text has a syntax error, a directive is rejected, a file is included or
/// entries are generated, that is reported, and nothing is printed.
pub fn run(
    rt: &HostRuntime,
    file: &str,
    octets: usize,
    state: State,
    options: OffsetOptions,
) -> u8 {
    match print_parts(rt, file, octets, state, options) {
        Ok(()) => 0,
        Err(Stop::Refused) => {
            let _ = eprintln!(rt; "zonetext: nothing is printed");
            1
        }
        Err(Stop::Run(error)) => exit_status(rt, file, error),
    }
}
