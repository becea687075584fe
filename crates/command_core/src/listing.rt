//! The lines of lists of sums.

ghost use Rattle.std.specs.Prelude.{◌≡◌, ◌++◌, IfOk, IfSome, IsTrue, OnOk, flat_map, string_bytes};
ghost use Rattle.command_core.specs.Summing.{IsNamedIn, escape_stray};

use crate::summing::push_name;
use dsd_bits::MOST_CHANNELS;
use std::alloc::{AllocError, Global};

// The rate and the number of samples, before the digests of a line.
const NUMBERS: usize = 2;

const DIGEST_DIGITS: usize = 64;

/// The name that a line of a list has after its sums, as it was before it was put on one line. None for a line that
/// has none, or whose sums aren't two numbers and a SHA-256 for each of 1 to 6 channels.
pub(crate) fn listed_name(alloc: Global, line: &str) -> Result<Option<String>, AllocError>
    ensures { IfOk result (λ found. IfSome found (λ name. IsNamedIn line.now (string_bytes name))) }
{
    let Some(name) = name_after_sums(alloc, line)? else {
        return Ok(None);
    };
    // What was read is written again, and compared with the line.
    if ends_with_name(alloc, line.as_bytes(), name.as_bytes())? {
        Ok(Some(name))
    } else {
        Ok(None)
    }
}

// The name that is read of a line after its sums.
fn name_after_sums(alloc: Global, line: &str) -> Result<Option<String>, AllocError> {
    match line.split_once("  ") {
        Some((prefix, shown)) if are_sums(prefix) => name_of(alloc, shown),
        _ => Ok(None),
    }
}

// Whether a line ends with two blanks and a name on one line, once no byte of it is left that names have as two.
fn ends_with_name(alloc: Global, line: &[u8], name: &[u8]) -> Result<bool, AllocError>
    ensures { IfOk result (λ ends. IsTrue ends → IsNamedIn line.now name.now) }
{
    let mut end = Vec::new(alloc);
    end.extend_from_slice(b"  ")?;
    push_name(&mut end, name)?;
    let shown = shown_line(alloc, line)?;
    if shown.len() < end.len() {
        return Ok(false);
    }
    let (_, last) = shown.split_at(shown.len() - end.len());
    Ok(last == end.as_slice())
}

// A line with each carriage return and NUL as it is written in a name.
fn shown_line(alloc: Global, line: &[u8]) -> Result<Vec<u8>, AllocError>
    ensures { IfOk result (λ shown. shown.items ≡ flat_map escape_stray line.now) }
{
    let mut shown = Vec::new(alloc);
    for byte in line {
        push_shown(&mut shown, *byte)?;
    }
    Ok(shown)
}

// Appends a byte of a line.
fn push_shown(shown: &mut Vec<u8>, byte: u8) -> Result<(), AllocError>
    ensures { OnOk result (shown.new.items ≡ shown.old.items ++ escape_stray byte) }
{
    match byte {
        b'\r' => shown.extend_from_slice(b"\\r"),
        b'\0' => shown.extend_from_slice(b"\\x"),
        _ => shown.extend_from_slice(&[byte]),
    }
}

// Whether the part of a line before its name has two numbers and the digests of 1 to 6 channels, with one blank between.
fn are_sums(prefix: &str) -> bool {
    let mut count = 0usize;
    for word in prefix.split(' ') {
        let is_right = if count < NUMBERS {
            is_number(word)
        } else {
            is_digest(word)
        };
        if !is_right {
            return false;
        }
        count = count.saturating_add(1);
    }
    count > NUMBERS && count <= NUMBERS + MOST_CHANNELS
}

// Whether a word has decimal digits alone.
fn is_number(word: &str) -> bool {
    for byte in word.as_bytes() {
        if !byte.is_ascii_digit() {
            return false;
        }
    }
    !word.is_empty()
}

// Whether a word has as many hexadecimal digits as a SHA-256.
fn is_digest(word: &str) -> bool {
    for byte in word.as_bytes() {
        if !matches!(*byte, b'0'..=b'9' | b'a'..=b'f') {
            return false;
        }
    }
    word.len() == DIGEST_DIGITS
}

// The name that was put on one line. None where a backslash is before any other byte than those that it may.
fn name_of(alloc: Global, shown: &str) -> Result<Option<String>, AllocError> {
    let mut name = String::new(alloc);
    let mut is_escaped = false;
    // How many hexadecimal digits of a byte are still to come.
    let mut digits = 0u8;
    for letter in shown.chars() {
        if digits > 0 && !is_hexadecimal(letter) {
            return Ok(None);
        }
        if letter == '\\' && !is_escaped {
            is_escaped = true;
            continue;
        }
        let meant = if is_escaped {
            meant_by(letter)
        } else {
            Some(letter)
        };
        digits = match meant {
            Some('\0') => 2,
            _ => digits.saturating_sub(1),
        };
        match meant {
            Some(meant) => name.push(meant)?,
            None => return Ok(None),
        }
        is_escaped = false;
    }
    if is_escaped || digits > 0 || name.is_empty() {
        return Ok(None);
    }
    Ok(Some(name))
}

fn is_hexadecimal(letter: char) -> bool {
    matches!(letter, '0'..='9' | 'a'..='f')
}

// What a letter after a backslash stands for: `x` for the NUL before the two digits of a byte that isn't UTF-8.
fn meant_by(letter: char) -> Option<char> {
    match letter {
        '\\' => Some('\\'),
        'n' => Some('\n'),
        'r' => Some('\r'),
        'x' => Some('\0'),
        _ => None,
    }
}
