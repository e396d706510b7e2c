//! Reads zone files and the files that they include, entry by entry.
use crate::blocks::BLOCK;
use crate::data_buffer::DataBuffer;
use crate::file_part::FilePart;
use crate::generated::{
    GenerateMode, GenerateOptions, Generated, RejectedDirective, read_of, refusal_at,
};
use crate::include_error::IncludeError;
use crate::open_file::{Counted, Includer, Input, OpenFile, place_after, place_from};
use crate::progress::Progress;
use crate::root_path::rooted;
use crate::stop::RunError;
use dns_wire::Name;
use rdata_fields::RecordRef;
use std::alloc::{AllocError, Global};
use std::fs::{File, canonicalize, metadata};
use std::io::ErrorKind;
use std::path::Path;
use std::{io, mem};
use zone_format::place::LocatedOffset;
use zone_generate::{DirectiveTokens, Generate};
use zone_reader::{NameBuffer, NameState, ParsedEntry, State, include_parts, read_text_entry};
use zone_stream::{BlockReader, BlockRefusal};
use zonetext_lib::order_mark::order_mark_len;

/// Greatest number of open files that others include.
const MOST_INCLUDED: usize = 10;

/// Greatest number of included files in all. A file that is included again counts again.
const MOST_FILES: usize = 10_000;

/// An entry of a file, and what was read of it.
#[derive(Drop)]
pub struct Entry<'e> {
    /// The path by which the file was opened.
    pub file: &'e str,
    /// Number of files that were opened before it.
    pub number: usize,
    /// Offset of its first octet.
    pub offset: usize,
    /// Place up to which lines and columns are counted, at or before its first octet.
    counted: Counted,
    /// Octets of the file that are held, from its first octet on.
    pub held: &'e [u8],
    /// Its octets. A syntax error of the text ends them. If the entry is too long they are those
    /// that were read.
    pub octets: &'e [u8],
    pub reader: &'e BlockReader<Global>,
    /// Whether it is the last of its file.
    pub is_last: bool,
    pub read: &'e Result<ParsedEntry, BlockRefusal>,
    /// The octets of a record's data; or of an included file's name, with those of its origin.
    pub data: &'e [u8],
    /// The state after this entry.
    pub state: &'e State,
    /// If the entry is generated, its number and the octets of its directive. Its own octets are then
    /// not those of the file, and its place is that of the directive.
    pub generated: Option<Generated<'e>>,
}

impl<'e> Entry<'e> {
    /// Returns the place of its first octet.
    pub fn place(&self) -> LocatedOffset {
        place_from(self.reader, self.counted, self.offset)
    }

    /// Returns the record of the entry, if it is one. Fails with `Damaged` if no owner is known for
    /// a record.
    pub fn record(&self) -> Result<Option<RecordRef<'e>>, RunError> {
        let Ok(read) = self.read else {
            return Ok(None);
        };
        match self.state.record(read, self.data) {
            Some(record) => Ok(Some(record)),
            None if matches!(read, ParsedEntry::Record { .. }) => Err(RunError::Damaged),
            None => Ok(None),
        }
    }
}

/// A visitor of the entries of files.
pub trait Visit {
    /// Reports a file that begins with the octets of a byte order mark, and the number of files
    /// that were opened before it.
    fn begin(&mut self, file: &str, number: usize, mark: &[u8]) -> Result<(), RunError>;

    /// Returns whether an entry needs neither a report nor its position.
    fn is_quiet(&self, entry: &Entry<'_>) -> bool;

    /// Processes an entry for which [`Visit::is_quiet`] returned `true`.
    fn process_quiet(&mut self, entry: &Entry<'_>) -> Result<(), RunError>;

    /// Processes another entry.
    fn process(&mut self, entry: &Entry<'_>) -> Result<(), RunError>;

    /// Reports that the file that an entry names is not included, and why.
    fn refuse(&mut self, entry: &Entry<'_>, unfit: &IncludeError) -> Result<(), RunError>;

    /// Reports that the `$TTL` of the file that the entry at a place includes stays in effect.
    /// `number` is that of the file with the entry.
    fn keep_ttl(&mut self, file: &str, number: usize, place: LocatedOffset) -> Result<(), RunError>;

    /// Reports why the `$GENERATE` directive that was processed last is rejected.
    fn refuse_generate(
        &mut self,
        entry: &Entry<'_>,
        refusal: RejectedDirective,
    ) -> Result<(), RunError>;

    /// Processes the end of the entries of a `$GENERATE` directive. `is_whole` says whether all were
    /// passed.
    fn end_generate(&mut self, entry: &Entry<'_>, is_whole: bool) -> Result<(), RunError>;
}

/// Open zone files, and the state after their entries so far.
#[derive(Drop)]
struct ZoneFiles<'a> {
    rt: &'a HostRuntime,
    /// Whether files are included.
    includes: bool,
    /// How `$GENERATE` directives are read.
    generate: GenerateOptions,
    /// Greatest number of octets of an entry.
    max_entry: usize,
    /// The directories from which files may be included, by their absolute paths, without links.
    folders: Vec<String>,
    /// The directory for relative paths of included files, if it is not that of the file that
    /// includes them.
    base: Option<String>,
    /// The directory below which absolute paths of included files are, if there is one.
    root: Option<String>,
    /// The open files, each but the first included by the one before it.
    files: Vec<OpenFile>,
    state: State,
    /// Number of files that were opened.
    count: usize,
    /// Whether a file was rejected because too many were included before it.
    is_full: bool,
    data: DataBuffer<Vec<u8>>,
    block: Vec<u8>,
}

/// Returns the absolute path of a file, without links.
fn full_path(rt: &HostRuntime, path: &str) -> io::Result<String> {
    Ok(canonicalize(rt, path)?.into_string())
}

/// Returns the error of a file or a directory that can't be read.
fn unread(alloc: Global, path: &str, error: io::Error) -> RunError {
    match String::from_str(alloc, path) {
        Ok(file) => RunError::Read { file, error },
        Err(_) => RunError::OutOfMemory,
    }
}

/// Returns the absolute path of a directory, without links.
fn full_folder(rt: &HostRuntime, folder: &str) -> Result<String, RunError> {
    match full_path(rt, folder) {
        Ok(full) => Ok(full),
        Err(error) => Err(unread(rt.alloc(), folder, error)),
    }
}

/// Adds the directories of the first file, by their absolute paths: the one in its path, and the
/// one of its real path. Standard input and pipes have no real path, and the working directory is
/// used instead.
fn add_folders(
    rt: &HostRuntime,
    file: &OpenFile,
    folders: &mut Vec<String>,
) -> Result<(), RunError> {
    let named = match Path::new(file.name.as_str()).parent() {
        Some(folder) => String::from_str(rt.alloc(), folder.to_string_lossy())?,
        None => String::new(rt.alloc()),
    };
    let named = if named.is_empty() {
        "."
    } else {
        named.as_str()
    };
    if let Ok(full) = full_path(rt, named) {
        folders.push(full)?;
    }
    let real = match Path::new(file.full.as_str()).parent() {
        Some(folder) => String::from_str(rt.alloc(), folder.to_string_lossy())?,
        None => full_folder(rt, ".")?,
    };
    folders.push(real)?;
    Ok(())
}

/// Opens the first file, and gives it a name for messages.
fn open_first(rt: &HostRuntime, file: &str, begin: &Begin<'_>) -> io::Result<OpenFile> {
    let alloc = rt.alloc();
    let name = String::from_str(alloc, shown_name(file, begin.stdin_name))?;
    if file == "-" {
        let input = Input::Standard;
        return Ok(OpenFile::new(alloc, name, String::new(alloc), 0, input, begin.max_entry));
    }
    let input = Input::File(File::open(rt, file)?);
    // A pipe has no path.
    let full = full_path(rt, file).unwrap_or(String::new(alloc));
    OpenFile::new(alloc, name, full, 0, input, begin.max_entry).at_part(rt, file, begin.part)
}

impl<'a> ZoneFiles<'a> {
    /// Opens a file, `-` for standard input.
    fn open<'f>(
        rt: &'a HostRuntime,
        file: &'f str,
        begin: Begin<'f>,
    ) -> Result<ZoneFiles<'a>, RunError> {
        let alloc = rt.alloc();
        let first = match open_first(rt, file, &begin) {
            Ok(first) => first,
            Err(error) => return Err(unread(alloc, file, error)),
        };
        let mut folders = Vec::new(alloc);
        add_folders(rt, &first, &mut folders)?;
        for folder in begin.folders {
            folders.push(full_folder(rt, folder)?)?;
        }
        let mut base = None;
        if let Some(folder) = begin.base {
            folders.push(full_folder(rt, folder)?)?;
            base = Some(String::from_str(alloc, folder)?);
        }
        let mut files = Vec::new(alloc);
        files.push(first)?;
        let Ok(data) = DataBuffer::with_room(alloc) else {
            return Err(RunError::OutOfMemory);
        };
        Ok(ZoneFiles {
            rt,
            includes: begin.includes,
            generate: begin.generate,
            max_entry: begin.max_entry,
            folders,
            base,
            root: match begin.root {
                Some(root) => Some(String::from_str(alloc, root)?),
                None => None,
            },
            files,
            state: begin.state,
            count: 1,
            is_full: false,
            data,
            block: vec![in alloc; 0; BLOCK]?,
        })
    }

    /// Passes all entries to a visitor.
    fn visit_all<V: Visit>(
        &mut self,
        visitor: &mut V,
        progress: &mut Progress,
    ) -> Result<(), RunError> {
        for _ in 0..u64::MAX {
            let Some(file) = self.files.pop() else {
                return Ok(());
            };
            self.step(file, visitor, progress)?;
        }
        Err(RunError::TooLong)
    }

    /// Reads the next part of the file that was opened last: passes its entries as far as they were
    /// read, or up to one that includes a file; then reads a block, or closes it.
    fn step<V: Visit>(
        &mut self,
        mut file: OpenFile,
        visitor: &mut V,
        progress: &mut Progress,
    ) -> Result<(), RunError> {
        if !file.is_begun {
            return self.begin(file, visitor, progress);
        }
        for _ in 0..u64::MAX {
            self.data.clear();
            let next = file.reader.next_entry(&mut self.state, &mut self.data);
            match &next {
                Some(
                    Ok(
                        ParsedEntry::Include {
                            at,
                            end,
                            file_name_len: count,
                            has_origin,
                        },
                    ),
                ) => {
                    let span = (*at, *end);
                    return self.visit_including(file, span, *count, *has_origin, visitor);
                }
                Some(Ok(ParsedEntry::Generate { at, end })) if self.generates() => {
                    self.visit_generate(&mut file, *at, *end, visitor)?;
                }
                Some(Err(BlockRefusal::LongEntry)) => return self.visit_long(file, visitor),
                Some(read) => self.visit_entry(&mut file, read, visitor)?,
                None if file.is_read => return self.close(file, visitor),
                None => return self.read(file, progress),
            }
        }
        Err(RunError::TooLong)
    }

    /// Reads a block of a file.
    fn read(&mut self, mut file: OpenFile, progress: &mut Progress) -> Result<(), RunError> {
        let count = self.fill(&mut file, progress)?;
        file.reader.add(self.read_octets(count))?;
        if file.is_read {
            file.reader.finish();
        }
        self.files.push(file)?;
        Ok(())
    }

    /// Reads a block, and returns the number of its octets. It is 0 at the end of the file.
    fn fill(&mut self, file: &mut OpenFile, progress: &mut Progress) -> Result<usize, RunError> {
        match file.input.read(self.rt, self.block.as_mut_slice()) {
            Ok(0) => {
                file.is_read = true;
                Ok(0)
            }
            Ok(count) => {
                progress.read(count)?;
                Ok(count)
            }
            Err(error) => Err(RunError::Read {
                file: String::from_str(self.rt.alloc(), file.name.as_str())?,
                error,
            }),
        }
    }

    /// Returns the first `count` octets of the block that was read last, or all of it.
    fn read_octets(&self, count: usize) -> &[u8] {
        let block = self.block.as_slice();
        &block[..count.min(block.len())]
    }

    /// Reads the beginning of a file, until it is known whether that is a byte order mark.
    fn begin<V: Visit>(
        &mut self,
        mut file: OpenFile,
        visitor: &mut V,
        progress: &mut Progress,
    ) -> Result<(), RunError> {
        let count = self.fill(&mut file, progress)?;
        file.head.extend_from_slice(self.read_octets(count))?;
        if !file.is_read && file.head.len() < 3 {
            self.files.push(file)?;
            return Ok(());
        }
        let head = file.head.as_slice();
        let count = order_mark_len(head).min(head.len());
        visitor.begin(file.name.as_str(), file.number, &head[..count])?;
        if count == 2 {
            // A file in UTF-16 is not a zone file at all.
            return self.close(file, visitor);
        }
        file.place = place_after(file.place, &head[..count]);
        file.place.at = 0;
        if file.is_read && file.head.len() == count {
            return self.close(file, visitor);
        }
        self.add_head(file, count)
    }

    /// Adds the octets that were read at the beginning to the reader, after the byte order mark.
    fn add_head(&mut self, mut file: OpenFile, count: usize) -> Result<(), RunError> {
        let head = mem::replace(&mut file.head, Vec::new(self.rt.alloc()));
        file.is_begun = true;
        let octets = head.as_slice();
        let count = count.min(octets.len());
        file.reader.add(&octets[count..])?;
        if file.is_read {
            file.reader.finish();
        }
        self.files.push(file)?;
        Ok(())
    }

    /// Returns the entry that was read last of a file. It has no octets if they are not held.
    fn entry<'e>(
        &'e self,
        file: &'e OpenFile,
        read: &'e Result<ParsedEntry, BlockRefusal>,
    ) -> Entry<'e> {
        let offset = file.reader.began();
        let held = file.reader.octets_from(offset).unwrap_or(&[]);
        let len = file.reader.place().saturating_sub(offset);
        let count = len.min(held.len());
        Entry {
            file: file.name.as_str(),
            number: file.number,
            offset,
            counted: file.counted(),
            held,
            octets: &held[..count],
            reader: &file.reader,
            is_last: file.is_read && count == held.len(),
            read,
            data: self.data.as_slice(),
            state: &self.state,
            generated: None,
        }
    }

    /// Passes an entry that includes no file to a visitor.
    fn visit_entry<V: Visit>(
        &mut self,
        file: &mut OpenFile,
        read: &Result<ParsedEntry, BlockRefusal>,
        visitor: &mut V,
    ) -> Result<(), RunError> {
        let entry = self.entry(file, read);
        if visitor.is_quiet(&entry) {
            return visitor.process_quiet(&entry);
        }
        self.visit_counted(file, read, visitor)
    }

    /// Passes an entry to a visitor. Lines and columns are counted up to it. Fails with `Damaged`
    /// if its octets are not held.
    #[inline(never)]
    fn visit_counted<V: Visit>(
        &self,
        file: &mut OpenFile,
        read: &Result<ParsedEntry, BlockRefusal>,
        visitor: &mut V,
    ) -> Result<(), RunError> {
        let offset = file.reader.began();
        if file.reader.octets_from(offset).is_none() {
            return Err(RunError::Damaged);
        }
        file.count_to(offset);
        visitor.process(&self.entry(file, read))
    }

    /// Passes an entry that is too long to a visitor, and continues after its file, whose rest is
    /// not read.
    fn visit_long<V: Visit>(
        &mut self,
        mut file: OpenFile,
        visitor: &mut V,
    ) -> Result<(), RunError> {
        self.visit_entry(&mut file, &Err(BlockRefusal::LongEntry), visitor)?;
        self.close(file, visitor)
    }

    /// Returns whether `$GENERATE` directives are not entries like others.
    fn generates(&self) -> bool {
        self.generate.mode != GenerateMode::Skip
    }

    /// Passes a `$GENERATE` directive to a visitor, and then its entries. `at` is the offset of its
    /// word, and `end` that of its end. The names that it leaves are those before it.
    #[inline(never)]
    fn visit_generate<V: Visit>(
        &mut self,
        file: &mut OpenFile,
        at: usize,
        end: usize,
        visitor: &mut V,
    ) -> Result<(), RunError> {
        let read = Ok(ParsedEntry::Generate { at, end });
        self.visit_counted(file, &read, visitor)?;
        if self.generate.mode == GenerateMode::Reject {
            return visitor.refuse_generate(&self.entry(file, &read), RejectedDirective::NotCut);
        }
        let most = self.generate.most;
        let tokens = match DirectiveTokens::new(directive_octets(file, at)) {
            Ok(tokens) => tokens,
            Err(error) => {
                let refusal = refusal_at(error, at, most);
                return visitor.refuse_generate(&self.entry(file, &read), refusal);
            }
        };
        match tokens.parse(most) {
            Ok(directive) => {
                let is_whole = self.visit_numbers(file, &directive, visitor)?;
                visitor.end_generate(&self.entry(file, &read), is_whole)
            }
            Err(error) => {
                let refusal = refusal_at(error, at, most);
                visitor.refuse_generate(&self.entry(file, &read), refusal)
            }
        }
    }

    /// Passes the entry of each number of a directive to a visitor, up to one that is rejected. Returns
    /// whether none was.
    fn visit_numbers<V: Visit>(
        &mut self,
        file: &OpenFile,
        directive: &Generate<'_, '_>,
        visitor: &mut V,
    ) -> Result<bool, RunError> {
        let mark = self.state.mark();
        let mut text = Vec::new(self.rt.alloc());
        let mut is_whole = true;
        for index in 0..directive.range().count() {
            let Some(number) = directive.range().number(index) else {
                break;
            };
            text.truncate(0);
            if directive.append_entry(number, &mut text).is_err() {
                return Err(RunError::OutOfMemory);
            }
            is_whole = self.visit_number(file, number, text.as_slice(), visitor)?;
            if !is_whole {
                break;
            }
        }
        self.state.restore(mark);
        Ok(is_whole)
    }

    /// Passes the entry of a number, by its text, to a visitor. Returns whether it is not rejected.
    fn visit_number<V: Visit>(
        &mut self,
        file: &OpenFile,
        number: u32,
        text: &[u8],
        visitor: &mut V,
    ) -> Result<bool, RunError> {
        let offset = file.reader.began();
        self.data.clear();
        let read = if self.generate.mode == GenerateMode::Texts {
            Ok(ParsedEntry::Empty)
        } else {
            let given = read_text_entry(text, &mut self.state, &mut self.data);
            read_of(given, offset)?
        };
        let held = file.reader.octets_from(offset).unwrap_or(&[]);
        let entry = Entry {
            held: text,
            octets: text,
            is_last: false,
            generated: Some(Generated { number, held }),
            ..self.entry(file, &read)
        };
        if visitor.is_quiet(&entry) {
            visitor.process_quiet(&entry)?;
        } else {
            visitor.process(&entry)?;
        }
        Ok(read.is_ok())
    }

    /// Passes an entry that includes a file to a visitor, and opens that file. `span` has the offsets
    /// of the entry's first token and of its end. `count` of the octets that were appended name the
    /// file, and those after them its origin, if it has one.
    fn visit_including<V: Visit>(
        &mut self,
        mut file: OpenFile,
        span: (usize, usize),
        count: usize,
        has_origin: bool,
        visitor: &mut V,
    ) -> Result<(), RunError> {
        let offset = file.reader.began();
        file.count_to(offset);
        let found = self.find_included(&file, count);
        let origin = self.included_origin(count);
        let read = Ok(ParsedEntry::Include {
            at: span.0,
            end: span.1,
            file_name_len: count,
            has_origin,
        });
        let entry = self.entry(&file, &read);
        visitor.process(&entry)?;
        let is_full = matches!(found, Err(IncludeError::Full));
        if let Err(unfit) = &found {
            if !is_full || !self.is_full {
                visitor.refuse(&entry, unfit)?;
            }
        }
        self.is_full = self.is_full || is_full;
        let place = file.place;
        self.files.push(file)?;
        match found {
            Ok(included) => self.include(included, origin, place),
            Err(_) => Ok(()),
        }
    }

    /// Returns the origin of an included file, if the octets that were appended have one after the
    /// first `count`.
    fn included_origin(&self, count: usize) -> Option<NameBuffer> {
        let (_, octets) = include_parts(self.data.as_slice(), count);
        match Name::from_octets(octets) {
            Ok(name) => NameBuffer::from_labels((), &name).ok(),
            Err(_) => None,
        }
    }

    /// Opens the file that an entry of another names, by the first `count` of the octets that were
    /// appended.
    fn find_included(&self, file: &OpenFile, count: usize) -> Result<OpenFile, IncludeError> {
        if !self.includes {
            return Err(IncludeError::Reason("a file that includes others is not cut"));
        }
        if self.files.len() >= MOST_INCLUDED {
            return Err(IncludeError::Reason("more than 10 files include one another"));
        }
        if self.count > MOST_FILES {
            return Err(IncludeError::Full);
        }
        let (octets, _) = include_parts(self.data.as_slice(), count);
        let Ok(name) = str::from_utf8(octets) else {
            return Err(IncludeError::Reason("file name is not UTF-8"));
        };
        let alloc = self.rt.alloc();
        let path = Path::new(name);
        let folder = match &self.base {
            Some(base) => Some(Path::new(base.as_str())),
            None => Path::new(file.name.as_str()).parent(),
        };
        if let Some(root) = &self.root {
            let folder = match folder {
                Some(folder) => folder.as_str(),
                None => "",
            };
            return self.open_included(file, rooted(alloc, root.as_str(), folder, name)?);
        }
        let joined = match folder {
            Some(folder) => folder.join(alloc, path)?,
            None => path.to_path_buf(alloc)?,
        };
        match self.open_included(file, joined.into_string()) {
            Err(IncludeError::Io(error)) if self.base.is_none() => {
                self.open_beside_target(file, path, error)
            }
            opened => opened,
        }
    }

    /// Opens a file beside the one to which the path of another leads, if the file is not beside that
    /// path. `error` is the error there.
    fn open_beside_target(
        &self,
        file: &OpenFile,
        path: Path<'_>,
        error: io::Error,
    ) -> Result<OpenFile, IncludeError> {
        if error.kind() != ErrorKind::NotFound {
            return Err(IncludeError::Io(error));
        }
        match Path::new(file.full.as_str()).parent() {
            Some(folder) => {
                let joined = folder.join(self.rt.alloc(), path)?;
                self.open_included(file, joined.into_string())
            }
            None => Err(IncludeError::Io(error)),
        }
    }

    /// Opens a file, unless it is not in a directory from which files may be included, or is open.
    fn open_included(&self, file: &OpenFile, name: String) -> Result<OpenFile, IncludeError> {
        let full = full_path(self.rt, name.as_str())?;
        if !self.is_allowed(full.as_str()) {
            return Err(IncludeError::Outside);
        }
        if file.full == full || self.is_open(full.as_str()) {
            return Err(IncludeError::Reason("file that includes itself"));
        }
        if !metadata(self.rt, name.as_str())?.is_file() {
            return Err(IncludeError::Reason("not a regular file"));
        }
        let input = Input::File(File::open(self.rt, name.as_str())?);
        let alloc = self.rt.alloc();
        Ok(OpenFile::new(alloc, name, full, self.count, input, self.max_entry))
    }

    /// Returns whether a file is in a directory from which files may be included.
    fn is_allowed(&self, full: &str) -> bool {
        for folder in &self.folders {
            if Path::new(full).starts_with(folder.as_str()) {
                return true;
            }
        }
        false
    }

    /// Returns whether one of the open files, but for the last, has a path.
    fn is_open(&self, full: &str) -> bool {
        for file in &self.files {
            if file.full.as_str() == full {
                return true;
            }
        }
        false
    }

    /// Continues in an included file.
    fn include(
        &mut self,
        mut file: OpenFile,
        origin: Option<NameBuffer>,
        place: LocatedOffset,
    ) -> Result<(), RunError> {
        file.includer = Some(Includer {
            mark: self.state.mark(),
            default_ttl: self.state.default_ttl,
            place,
        });
        if let Some(origin) = origin {
            self.state.origin = NameState::Name(origin);
        }
        self.count = self.count.saturating_add(1);
        self.files.push(file)?;
        Ok(())
    }

    /// Continues after a file that was read: the origin and the owners of an included file are
    /// dropped.
    fn close<V: Visit>(&mut self, mut file: OpenFile, visitor: &mut V) -> Result<(), RunError> {
        let Some(includer) = file.includer.take() else {
            return Ok(());
        };
        let Includer {
            mark,
            default_ttl,
            place,
        } = includer;
        self.state.restore(mark);
        if self.state.default_ttl != default_ttl {
            if let Some(outer) = self.files.last() {
                visitor.keep_ttl(outer.name.as_str(), outer.number, place)?;
            }
        }
        Ok(())
    }
}

/// Returns the octets of the entry of a file that was read last, from an offset of the file on.
fn directive_octets(file: &OpenFile, at: usize) -> &[u8] {
    let held = file.reader.octets_from(at).unwrap_or(&[]);
    let len = file.reader.place().saturating_sub(at);
    held.get(..len).unwrap_or(held)
}

/// How a file is read.
#[derive(Drop)]
pub struct Begin<'f> {
    /// The state before its first entry.
    pub state: State,
    /// Whether files are included.
    pub includes: bool,
    /// How `$GENERATE` directives are read.
    pub generate: GenerateOptions,
    /// Greatest number of octets of an entry.
    pub max_entry: usize,
    /// The directories, besides its own, from which files may be included.
    pub folders: &'f [&'f str],
    /// The directory for relative paths of included files, if it is not that of the file that
    /// includes them. Files in it may be included.
    pub base: Option<&'f str>,
    /// The directory below which absolute paths of included files are, if there is one.
    pub root: Option<&'f str>,
    /// The name of standard input, if it has one.
    pub stdin_name: Option<&'f str>,
    /// Whether progress is not shown.
    pub is_quiet: bool,
    /// The part of the file that is read, if not all of it is.
    pub part: Option<FilePart>,
}

/// Returns the name of a file in messages: standard input may have one.
pub fn shown_name<'f>(file: &'f str, stdin_name: Option<&'f str>) -> &'f str {
    match stdin_name {
        Some(name) if file == "-" => name,
        _ => file,
    }
}

/// Passes all entries of a file, and of those that it includes, to a visitor.
pub fn visit_file<'f, V: Visit>(
    rt: &HostRuntime,
    file: &'f str,
    begin: Begin<'f>,
    visitor: &mut V,
) -> Result<(), RunError> {
    let (name, is_quiet) = (shown_name(file, begin.stdin_name), begin.is_quiet);
    let mut files = ZoneFiles::open(rt, file, begin)?;
    let mut progress = Progress::new(rt, name, is_quiet)?;
    let answer = files.visit_all(visitor, &mut progress);
    progress.clear()?;
    answer
}
