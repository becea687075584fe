//! The line that explains, and what is in it.

use ended_core::Explanation;
use folder_core::STANDARD;
use std::alloc::{AllocError, Global};
use std::fmt::Write;
use std::io::Error;

// What the library adds to what the system said.
const NUMBER: &str = " (os error ";

/// A text, the ID of a chunk in it, and its numbers, as `Line::say_id` takes them.
pub(crate) type Said = (&'static str, [u8; 4], [u64; 3]);

// What the groups of three digits of a number count.
const UNITS: [u64; 7] = [
    1_000_000_000_000_000_000,
    1_000_000_000_000_000,
    1_000_000_000_000,
    1_000_000_000,
    1_000_000,
    1_000,
    1,
];

/// The ID of a text without one.
pub(crate) const NO_ID: [u8; 4] = *b"    ";

/// The numbers of a text without any.
pub(crate) const NONE: [u64; 3] = [0; 3];

/// A line that grows. If memory runs out, it is lost, and says nothing at its end.
///
/// It has no type parameter, and a text is added with plain numbers, not with values of a wide enum: what a function
/// holds costs most in the proofs of this crate.
pub(crate) struct Line {
    pub(crate) alloc: Global,
    text: String,
    is_lost: bool,
}

impl Line {
    /// A line of nothing.
    pub(crate) fn new(alloc: Global) -> Line {
        Line {
            alloc,
            text: String::new(alloc),
            is_lost: false,
        }
    }

    /// Whether nothing was said.
    pub(crate) fn is_empty(&self) -> bool {
        self.text.is_empty()
    }

    /// What was said, if it is more than a name.
    pub(crate) fn end(self) -> Option<Explanation> {
        let Line {
            alloc: _,
            text,
            is_lost,
        } = self;
        if is_lost || text.as_str().ends_with(": ") {
            None
        } else {
            Explanation::new(text)
        }
    }

    /// Adds a text as it is.
    pub(crate) fn push(&mut self, text: &str) {
        self.is_lost |= self.text.push_str(text).is_err();
    }

    /// Adds a text that was given or read, between two that are added as they are.
    pub(crate) fn quote(&mut self, before: &str, text: &str, after: &str) {
        self.push(before);
        self.escape(text);
        self.push(after);
    }

    /// Adds the name of a file and which word of the usage it is, and a text after it.
    pub(crate) fn named(&mut self, name: &str, word: &str, after: &str) {
        self.name(name);
        self.push(" (");
        self.push(word);
        self.push(")");
        self.push(after);
    }

    /// Adds a text, with each number in braces replaced by the number of this place, counted from 0. The letter before
    /// it says how:
    ///
    /// - `n`: its digits;
    /// - `c`: with a comma before each three digits;
    /// - `s`: an `s` after the name of things, unless it is one;
    /// - `b`: a number of bytes, in the unit in which it has two digits or more.
    pub(crate) fn say(&mut self, template: &str, numbers: [u64; 3]) {
        self.say_id(template, NO_ID, numbers);
    }

    /// The same of a text that may have the ID of a chunk, or what should be one, as `{i0}`: in quotation marks, or in
    /// hexadecimal digits if a byte is no letter. `{v0}` is a version of these four bytes.
    pub(crate) fn say_id(&mut self, template: &str, id: [u8; 4], numbers: [u64; 3]) {
        for piece in template.split('{') {
            let (code, rest) = piece.split_once('}').unwrap_or(("", piece));
            if let [kind, place] = code.as_bytes() {
                self.part(*kind, *place, id, &numbers);
            }
            self.push(rest);
        }
    }

    /// Adds a number that may be below 0.
    pub(crate) fn signed(&mut self, number: i64) {
        let done = write!(self.text, "{number}");
        self.keep(done);
    }

    /// Adds bytes that are no text, escaped.
    pub(crate) fn raw(&mut self, bytes: &[u8]) {
        let done = write!(self.text, "{}", bytes.escape_ascii());
        self.keep(done);
    }

    /// Adds how long so many frames last, of which the second number make a second, as `h:mm:ss.mmm`. These are whole
    /// milliseconds, so that there is sound at the time that is named.
    pub(crate) fn time(&mut self, frames: u64, rate: u64) {
        let rate = rate.max(1);
        let (seconds, milliseconds) = (frames / rate, (frames % rate).saturating_mul(1000) / rate);
        let (hours, minutes, seconds) = (seconds / 3600, seconds / 60 % 60, seconds % 60);
        let done = write!(
            self.text,
            "{hours}:{minutes:02}:{seconds:02}.{milliseconds:03}"
        );
        self.keep(done);
    }

    /// Adds what the system said, without the number that the library adds.
    pub(crate) fn say_error(&mut self, error: &Error) {
        match format!(in self.alloc; "{error}") {
            Ok(said) => {
                let said = said.as_str();
                self.escape(said.split_once(NUMBER).unwrap_or((said, "")).0)
            }
            Err(_) => self.is_lost = true,
        }
    }

    /// Adds the name of a file.
    pub(crate) fn name(&mut self, name: &str) {
        match name {
            STANDARD => self.push("the standard stream"),
            "" => self.push("\"\""),
            _ => self.escape(name),
        }
    }

    // Remembers that memory ran out.
    fn keep(&mut self, done: Result<(), AllocError>) {
        self.is_lost |= done.is_err();
    }

    fn letter(&mut self, letter: char) {
        self.is_lost |= self.text.push(letter).is_err();
    }

    // Adds a text of which what could act on a terminal, or end the line, is escaped.
    fn escape(&mut self, text: &str) {
        for letter in text.chars() {
            match letter {
                '"' | '\'' => self.letter(letter),
                // It is before the two digits of a byte that isn't UTF-8.
                '\0' => self.push("\\x"),
                _ => self.escape_letter(letter),
            }
        }
    }

    fn escape_letter(&mut self, letter: char) {
        for part in letter.escape_debug() {
            self.letter(part);
        }
    }

    fn part(&mut self, kind: u8, place: u8, id: [u8; 4], numbers: &[u64]) {
        let place = usize::from(place.saturating_sub(b'0'));
        let number = *numbers.get(place).unwrap_or(&0);
        match kind {
            b'i' => self.id(id),
            b'v' => self.version(id),
            b'c' => self.count(number),
            b'b' => self.bytes(number),
            b's' => self.push(if number == 1 { "" } else { "s" }),
            _ => self.digits(number),
        }
    }

    fn digits(&mut self, number: u64) {
        let done = write!(self.text, "{number}");
        self.keep(done);
    }

    fn count(&mut self, number: u64) {
        let mut is_begun = false;
        for unit in &UNITS {
            let part = number.checked_div(*unit).unwrap_or(0);
            if is_begun {
                self.group(part % 1_000);
            } else if part > 0 || *unit == 1 {
                self.digits(part);
                is_begun = true;
            }
        }
    }

    fn group(&mut self, digits: u64) {
        let done = write!(self.text, ",{digits:03}");
        self.keep(done);
    }

    fn bytes(&mut self, number: u64) {
        let (number, unit) = match number {
            1 => (1, " byte"),
            0..10_000 => (number, " bytes"),
            10_000..10_000_000 => (number / 1_000, " kB"),
            _ => (number / 1_000_000, " MB"),
        };
        self.count(number);
        self.push(unit);
    }

    fn id(&mut self, id: [u8; 4]) {
        match std::str::from_utf8(&id) {
            Ok(text) if is_plain(&id) => self.quote("\"", text, "\""),
            _ => self.hexadecimal(id),
        }
    }

    fn hexadecimal(&mut self, [a, b, c, d]: [u8; 4]) {
        let done = write!(self.text, "{a:02x} {b:02x} {c:02x} {d:02x}");
        self.keep(done);
    }

    fn version(&mut self, [a, b, c, d]: [u8; 4]) {
        let done = write!(self.text, "{a}.{b}.{c}.{d}");
        self.keep(done);
    }
}

// Whether bytes are letters, digits, signs and spaces of ASCII.
fn is_plain(bytes: &[u8]) -> bool {
    for byte in bytes {
        if *byte != b' ' && !byte.is_ascii_graphic() {
            return false;
        }
    }
    true
}
