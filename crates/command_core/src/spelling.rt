//! Words and lines that may not be UTF-8, as text.

ghost use Rattle.std.specs.Prelude.{◌≡◌, ◌<◌, ◌∷◌, ◌++◌, IfOk, OnOk, length, string_bytes, ℕ};
ghost use Rattle.std.specs.Str.{IsUtf8};
ghost use Rattle.command_core.specs.Spelling.{IsSpelled, SpellsUpTo};
ghost use Rattle.form_core.specs.Infos.{hexadecimal};

use crate::summing::push_byte;
use std::alloc::{AllocError, Global};
use std::env::FillError;
use std::rt::Env;

// The room for a word, and for one byte more: the system takes none that is longer.
const ROOM: usize = 131_073;

// How many words there are at most.
const MOST_WORDS: usize = 1 << 31;

/// A text for bytes without a NUL: what is UTF-8 is as it is, and each other byte is a NUL and its two hexadecimal digits.
/// As no file's name has a NUL, such a text is no name of a file.
pub(crate) fn spelled(alloc: Global, bytes: &[u8]) -> Result<String, AllocError>
    ensures { IfOk result (λ text. IsSpelled bytes.now (string_bytes text)) }
{
    let mut text = String::new(alloc);
    let mut rest = bytes;
    while !rest.is_empty() {
        rest = push_piece(&mut text, rest)?;
    }
    Ok(text)
}

// Appends what is UTF-8, and the byte after it, and returns what is left.
fn push_piece<'a>(text: &mut String, bytes: &'a [u8]) -> Result<&'a [u8], AllocError>
    requires { 0 < length bytes.now }
    ensures spelled { IfOk result (λ rest. SpellsUpTo bytes.now (string_bytes text.old) rest.now (string_bytes text.new)) }
    ensures shorter { IfOk result (λ rest. length rest.now < length bytes.now) }
{
    match std::str::from_utf8(bytes) {
        Ok(last) => {
            text.push_str(last)?;
            Ok(b"")
        }
        Err(error) => {
            let (valid, after) = bytes.split_at(error.valid_up_to());
            push_valid(text, valid)?;
            let rest = push_first(text, after)?;
            Ok(rest)
        }
    }
}

// Appends bytes that are UTF-8.
fn push_valid(text: &mut String, bytes: &[u8]) -> Result<(), AllocError>
    requires { IsUtf8 bytes.now }
    ensures { OnOk result (string_bytes text.new ≡ string_bytes text.old ++ bytes.now) }
{
    match std::str::from_utf8(bytes) {
        Ok(valid) => text.push_str(valid),
        Err(_) => Ok(()),
    }
}

// Appends the first byte, which is not UTF-8, and returns those after it.
fn push_first<'a>(text: &mut String, bytes: &'a [u8]) -> Result<&'a [u8], AllocError>
    requires { 0 < length bytes.now }
    ensures { IfOk result (λ rest. (byte : ℕ) × (bytes.now ≡ byte ∷ rest.now)
        × (string_bytes text.new ≡ string_bytes text.old ++ 0 ∷ hexadecimal byte)) }
{
    let first = bytes[0];
    text.push_str("\0")?;
    push_byte(text, first)?;
    Ok(&bytes[1..])
}

/// The words of the program, each as such a text.
pub(crate) fn spelled_words<R: Env + AllocGlobal>(rt: &R) -> Result<Vec<String>, AllocError> {
    let mut words = Vec::new(rt.alloc());
    let mut room = vec![in rt.alloc(); 0u8; ROOM]?;
    for number in 0..MOST_WORDS {
        match rt.arg(number, room.as_mut_slice()) {
            Ok(count) => push_word(rt.alloc(), &mut words, room.as_slice(), count)?,
            Err(FillError::NotPresent) => break,
            Err(FillError::TooLong) => return Err(AllocError),
        }
    }
    Ok(words)
}

// Appends the word of the first bytes.
fn push_word(
    alloc: Global,
    words: &mut Vec<String>,
    room: &[u8],
    count: usize,
) -> Result<(), AllocError> {
    let word = spelled(alloc, room.get(..count).unwrap_or(b""))?;
    match words.push(word) {
        Ok(()) => Ok(()),
        Err(_) => Err(AllocError),
    }
}
