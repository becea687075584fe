//! The forms of file that hold a one-bit recording.
//!
//! [`read_any`] reads a DSDIFF 1.5 or DSF 1.01 file, and [`write_in`] returns the file of a [`Form`] that holds a
//! recording. [`dropped_in`] counts what such a file can't hold. [`ends_in`] returns the bytes before and after the
//! sound of that file, from a recording without its bits. [`interleaving_in`] says how the sound between is
//! interleaved, and [`form_in`] goes back from that to the form.
//!
//! [`name_of`] and [`form_named`] go from a form to its name and back; the names are the same on the command line and
//! in printed text. [`info_lines`] returns the lines that describe a file, from its form and the description of its
//! recording.
//!
//! The words of its contracts:
//!
//! - `HoldsAs file form r` says that the file has this form and holds this recording, `HoldsSome file r` that it does
//!   in some form. `text_in form r` is the file of the form that is written for the recording (`specs/Forms.antt`).
//! - `opened_of file` reads in a fixed order, to the form and the recording or the first fault. `Opens` says that a
//!   call returned it, unless memory ran out (`specs/Opening.antt`). That reading returns what the file holds is the
//!   law on [`held_is_opened`].
//! - `head_in form r count` and `tail_in form r count` are the bytes before and after the sound, if each channel has
//!   `count` bits (`specs/Parts.antt`). That `text_in` is both around the sound bytes is the law on
//!   [`written_in_parts`].
//! - `info_text form d` is the lines that describe a form and a description (`specs/Infos.antt`). `name_of` and
//!   `form_named` are in `specs/FormNames.antt`.
//! - `HoldsSound form r bytes` says that the bytes are a file of the form with the recording's sound
//!   (`specs/Writing.antt`). That this holds of what is written for any recording is the law on [`written_is_read`].
//!
//! What it promises: what is read is what the file holds. Any recording that a file of either format holds is read. Any
//! other file is refused with the first fault in it. What is written is exactly `text_in`, is refused if there is none,
//! and is read again with the same sound. Only `Memory` may come in place of these.
//!
//! ```text
//! let opened = read_any(alloc, &file)?;
//! let bytes = write_in(alloc, &opened.recording, Form::Dsf)?;
//! ```
#![tactic(auto)]

mod fault;
mod form;
mod form_names;
mod info;
mod laws;
mod opening;
mod parts;
mod shape;
mod writing;

pub use dsdiff_core::{WriteFault, fields_fit};
pub use fault::ReadFault;
pub use form::{Form, form_in, interleaving_in};
pub use form_names::{form_named, name_of};
pub use info::info_lines;
pub use laws::{held_is_opened, written_in_parts, written_is_read};
pub use opening::{Opened, read_any};
pub use parts::{Ends, ends_in};
pub use shape::has_shape;
pub use writing::{dropped_in, write_in};
