//! The lines of sums, and files judged by them.

ghost use Rattle.std.specs.Prelude.{◌≡◌, ◌++◌, IfOk, OnOk, flat_map, string_bytes};
ghost use Rattle.command_core.specs.Summing.{ListedComesTo, SumLineComesTo, digest_text, escape, fields_text, name_text, numbers_text, sum_text};
ghost use Rattle.form_core.specs.Infos.{hexadecimal};

use archive_core::Fault;
use folder_core::Folder;
use std::alloc::{AllocError, Global};
use std::fmt::Write;
use transfer_commands::{CommandFault, Sums, sum_file};

/// The line of a file: its rate in hertz, how many bits each channel has, the SHA-256 of each channel's packed bits in
/// hexadecimal digits, two blanks and its name. In the name a backslash is written as `\\`, a line feed as `\n` and a
/// carriage return as `\r`. A NUL, which no file's name has, is written as `\x`. The line has no end.
///
/// Refusals: those of [`sum_file`]; `Memory`.
pub fn sum_line<F: Folder>(
    alloc: Global,
    folder: &mut F,
    name: &str,
) -> Result<Vec<u8>, CommandFault>
    ensures { SumLineComesTo name.now (F.view folder.old) (F.view folder.new) result }
{
    let sums = sum_file(alloc, folder, name)?;
    match line_of(alloc, &sums, name) {
        Ok(line) => Ok(line),
        Err(_) => Err(CommandFault::Call(Fault::Memory)),
    }
}

/// Whether this is the line of the file of a name.
///
/// Refusals: those of [`sum_line`].
pub fn is_as_listed<F: Folder>(
    alloc: Global,
    folder: &mut F,
    name: &str,
    line: &[u8],
) -> Result<bool, CommandFault>
    ensures { ListedComesTo name.now line.now (F.view folder.old) (F.view folder.new) result }
{
    let made = sum_line(alloc, folder, name)?;
    Ok(made.as_slice() == line)
}

// The line of these sums and a name.
fn line_of(alloc: Global, sums: &Sums, name: &str) -> Result<Vec<u8>, AllocError>
    ensures { IfOk result (λ line. line.items ≡ sum_text sums.now name.now) }
{
    let fields = fields_of(alloc, sums)?;
    let mut line = Vec::from_slice(alloc, fields.as_bytes())?;
    line.extend_from_slice(b"  ")?;
    push_name(&mut line, name.as_bytes())?;
    Ok(line)
}

// What is before the name.
fn fields_of(alloc: Global, sums: &Sums) -> Result<String, AllocError>
    ensures { IfOk result (λ text. string_bytes text ≡ fields_text sums.now) }
{
    let mut text = numbers_of(alloc, sums)?;
    push_digests(&mut text, &sums.digests)?;
    Ok(text)
}

// The rate and how many bits each channel has.
fn numbers_of(alloc: Global, sums: &Sums) -> Result<String, AllocError>
    ensures { IfOk result (λ text. string_bytes text ≡ numbers_text sums.now) }
{
    let rate = sums.rate;
    let count = sums.count;
    format!(in alloc; "{rate} {count}")
}

// Appends digests, each after a blank.
fn push_digests(text: &mut String, digests: &[[u8; 32]]) -> Result<(), AllocError>
    ensures { OnOk result (string_bytes text.new ≡ string_bytes text.old ++ flat_map digest_text digests.now) }
{
    for digest in digests {
        push_digest(text, digest)?;
    }
    Ok(())
}

// Appends a digest after a blank.
fn push_digest(text: &mut String, digest: &[u8; 32]) -> Result<(), AllocError>
    ensures { OnOk result (string_bytes text.new ≡ string_bytes text.old ++ digest_text digest.now) }
{
    text.push_str(" ")?;
    for byte in digest {
        push_byte(text, *byte)?;
    }
    Ok(())
}

/// Appends the two digits of a byte.
pub(crate) fn push_byte(text: &mut String, byte: u8) -> Result<(), AllocError>
    ensures { OnOk result (string_bytes text.new ≡ string_bytes text.old ++ hexadecimal byte) }
{
    write!(text, "{byte:02x}")
}

/// Appends a name on one line.
pub(crate) fn push_name(line: &mut Vec<u8>, name: &[u8]) -> Result<(), AllocError>
    ensures { OnOk result (line.new.items ≡ line.old.items ++ name_text name.now) }
{
    for byte in name {
        push_escaped(line, *byte)?;
    }
    Ok(())
}

// Appends a byte of a name.
fn push_escaped(line: &mut Vec<u8>, byte: u8) -> Result<(), AllocError>
    ensures { OnOk result (line.new.items ≡ line.old.items ++ escape byte) }
{
    match byte {
        b'\\' => line.extend_from_slice(b"\\\\"),
        b'\n' => line.extend_from_slice(b"\\n"),
        b'\r' => line.extend_from_slice(b"\\r"),
        b'\0' => line.extend_from_slice(b"\\x"),
        _ => line.extend_from_slice(&[byte]),
    }
}
