//! The result of a call, as a row spells it.
use crate::heap::Refusing;
use std::alloc::{AllocError, AllocFailed, Global};
use std::fmt;

/// An allocator that may fail one allocation.
pub type Heap = Refusing<Global>;

/// The reason why a row was not run.
#[derive(Clone, Copy, Debug, PartialEq, Eq)]
pub enum Failure {
    /// No call has that name.
    NoCall,
    /// The inputs are not the call's: there is another number of them, or they are not text or not
    /// octets.
    BadInputs,
    /// Two ways to the same result differ.
    Unlike,
    /// With a failed allocation the result was another one, and not an error for lack of memory.
    Unfirm,
    OutOfMemory,
}

impl From<AllocError> for Failure {
    fn from(_error: AllocError) -> Failure {
        Failure::OutOfMemory
    }
}

impl<T: Drop> From<AllocFailed<T>> for Failure {
    fn from(_error: AllocFailed<T>) -> Failure {
        Failure::OutOfMemory
    }
}

const DIGITS: [char; 16] = [
    '0', '1', '2', '3', '4', '5', '6', '7', '8', '9', 'A', 'B', 'C', 'D', 'E', 'F',
];

/// A result, spelled in ASCII: octets outside 0x20 to 0x7E, `%` and `!` are `%` and two hexadecimal
/// digits. An error begins with `!`.
///
/// What is added after a failure is ignored: the row is then counted as not run.
#[derive(Drop)]
pub struct Answer<'a> {
    alloc: Global,
    heap: &'a Heap,
    text: String,
    failure: Option<Failure>,
}

impl<'a> Answer<'a> {
    /// Returns an empty result of a call with this allocator.
    pub fn new(alloc: Global, heap: &'a Heap) -> Answer<'a> {
        Answer {
            alloc,
            heap,
            text: String::new(alloc),
            failure: None,
        }
    }

    /// Returns an empty result of the same call.
    pub fn another(&self) -> Answer<'a> {
        Answer::new(self.alloc, self.heap)
    }

    /// Returns an allocator that doesn't fail.
    pub fn alloc(&self) -> Global {
        self.alloc
    }

    /// Returns the call's allocator.
    pub fn heap(&self) -> &'a Heap {
        self.heap
    }

    /// Returns the spelled result, or the reason why the row was not run.
    pub fn into_text(self) -> Result<String, Failure> {
        match self.failure {
            None => Ok(self.text),
            Some(failure) => Err(failure),
        }
    }

    /// Records that the row is not run.
    pub fn fail(&mut self, failure: Failure) {
        self.failure = Some(failure);
    }

    /// Records that an allocation of the call failed.
    pub fn fail_for_memory(&mut self) {
        self.fail(Failure::OutOfMemory);
    }

    /// Checks that two ways lead to the same result, unless an allocation failed.
    pub fn check(&mut self, are_alike: bool) {
        if !are_alike && !self.heap.has_refused() {
            self.fail(Failure::Unlike);
        }
    }

    /// Checks a condition, whether or not an allocation failed.
    pub fn hold(&mut self, holds: bool) {
        if !holds {
            self.fail(Failure::Unlike);
        }
    }

    /// Checks that another way leads to the same result.
    pub fn check_same(&mut self, other: &Answer) {
        let are_alike = self.text == other.text;
        self.check(are_alike);
    }

    /// Adds an octet.
    fn add_octet(&mut self, octet: u8) -> Result<(), AllocError> {
        if matches!(octet, b' '..=b'~') && octet != b'%' && octet != b'!' {
            return self.text.push(char::from(octet));
        }
        self.text.push('%')?;
        self.text.push(DIGITS[usize::from(octet / 16)])?;
        self.text.push(DIGITS[usize::from(octet % 16)])
    }

    /// Adds octets.
    pub fn add(&mut self, octets: &[u8]) {
        for octet in octets {
            if self.add_octet(*octet).is_err() {
                self.fail(Failure::OutOfMemory);
            }
        }
    }

    /// Adds a text.
    pub fn add_text(&mut self, text: &str) {
        self.add(text.as_bytes());
    }

    /// Adds the text that a value prints, for every width.
    pub fn add_shown(&mut self, value: &impl fmt::Display) {
        match shown(self.alloc, value) {
            Ok(text) => self.add_text(text.as_str()),
            Err(failure) => self.fail(failure),
        }
    }

    /// Adds a character.
    pub fn add_char(&mut self, c: char) {
        self.add_text(c.encode_utf8(&mut [0; 4]));
    }

    /// Adds a number.
    pub fn add_number(&mut self, number: usize) {
        match number.to_string(self.alloc) {
            Ok(text) => self.add_text(text.as_str()),
            Err(_) => self.fail(Failure::OutOfMemory),
        }
    }

    /// Adds a truth value.
    pub fn add_bool(&mut self, holds: bool) {
        self.add_text(if holds { "true" } else { "false" });
    }

    /// Adds the mark at the beginning of an error.
    fn add_mark(&mut self) {
        if self.text.push('!').is_err() {
            self.fail(Failure::OutOfMemory);
        }
    }

    /// Adds the text of an error.
    pub fn refuse(&mut self, error: &impl fmt::Display) {
        self.add_mark();
        self.add_shown(error);
    }

    /// Adds a text as that of an error.
    pub fn refuse_text(&mut self, text: &str) {
        self.add_mark();
        self.add_text(text);
    }
}

/// Returns a value's text, which a width or an alignment doesn't change.
fn shown(alloc: Global, value: &impl fmt::Display) -> Result<String, Failure> {
    let text = value.to_string(alloc)?;
    let left = format!(in alloc; "{value:9}")?;
    let right = format!(in alloc; "{value:>30}")?;
    let middle = format!(in alloc; "{value:^60}")?;
    if left != text || right != text || middle != text {
        return Err(Failure::Unlike);
    }
    Ok(text)
}
