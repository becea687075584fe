//! What is printed about a file.

ghost use Rattle.std.specs.Prelude.{◌≡◌, ◌++◌, IfOk, OnOk, flat_map, map, string_bytes};
ghost use Rattle.dsd_bits.specs.Contents.{mark_content};
ghost use Rattle.form_core.specs.Infos as infos;
ghost use Rattle.form_core.specs.Infos.{hexadecimal, id_text, ids_line, info_text, mark_line};

use crate::form::Form;
use crate::form_names::name_of;
use dsd_bits::{Description, Mark};
use dsdiff_core::place;
use std::alloc::{AllocError, Global};
use std::fmt::Write;

/// The lines that `info` prints about a file's recording, without the end of the last line: the file's form, its rate
/// in hertz, the number of channels, the number of samples (bits) of a channel, the channels' IDs as hexadecimal
/// digits, the layout, the marks with their places in samples, the number of kept chunks, and the number of bytes of
/// the tag. The only refusal is out of memory.
pub fn info_lines(
    alloc: Global,
    form: Form,
    description: &Description,
) -> Result<String, AllocError>
    ensures { IfOk result (λ text. string_bytes text ≡ info_text form description.now) }
{
    let mut text = first_lines(alloc, form, description)?;
    push_ids(&mut text, description.ids())?;
    let layout = description.layout();
    let marks = description.marks().len();
    write!(text, "\nlayout {layout}\nmarks {marks}")?;
    push_marks(&mut text, description.marks(), description.rate())?;
    let others = description.others().len();
    let tag = description.tag().len();
    write!(text, "\nothers {others}\ntag {tag}")?;
    Ok(text)
}

// The lines before the IDs.
fn first_lines(alloc: Global, form: Form, description: &Description) -> Result<String, AllocError>
    ensures { IfOk result (λ text. string_bytes text ≡ infos.first_lines form description.now) }
{
    let form = name_of(form);
    let rate = description.rate();
    let channels = description.ids().len();
    let count = description.count();
    format!(in alloc; "form {form}\nrate {rate}\nchannels {channels}\nsamples {count}")
}

// Appends the line of the channels' IDs.
fn push_ids(text: &mut String, ids: &[[u8; 4]]) -> Result<(), AllocError>
    ensures { OnOk result (string_bytes text.new ≡ string_bytes text.old ++ ids_line ids.now) }
{
    text.push_str("\nids")?;
    for id in ids {
        push_id(text, id)?;
    }
    Ok(())
}

// Appends a space and an ID.
fn push_id(text: &mut String, id: &[u8; 4]) -> Result<(), AllocError>
    ensures { OnOk result (string_bytes text.new ≡ string_bytes text.old ++ id_text id.now) }
{
    text.push_str(" ")?;
    for byte in id {
        push_byte(text, *byte)?;
    }
    Ok(())
}

// Appends the two digits of a byte.
fn push_byte(text: &mut String, byte: u8) -> Result<(), AllocError>
    ensures { OnOk result (string_bytes text.new ≡ string_bytes text.old ++ hexadecimal byte) }
{
    write!(text, "{byte:02x}")
}

// Appends a line for each mark.
fn push_marks(text: &mut String, marks: &[Mark], rate: u32) -> Result<(), AllocError>
    ensures { OnOk result (string_bytes text.new
        ≡ string_bytes text.old ++ flat_map (mark_line rate) (map mark_content marks.now)) }
{
    for mark in marks {
        push_mark(text, mark, rate)?;
    }
    Ok(())
}

// Appends the line of a mark.
fn push_mark(text: &mut String, mark: &Mark, rate: u32) -> Result<(), AllocError>
    ensures { OnOk result (string_bytes text.new ≡ string_bytes text.old ++ mark_line rate (mark_content mark.now)) }
{
    let at = place(mark, rate);
    let kind = mark.kind;
    let channel = mark.channel;
    write!(text, "\nmark {at} type {kind} channel {channel}")
}
