//! What a file is that is read as a recording, and why it is refused.

use crate::files::{Trouble, reopen};
use crate::line::{Line, NONE};
use chunk_core::{Inlet, id_at};
use dsd_bits::Sound;
use form_core::ReadFault;
use sound_core::{read_outline, read_prefix};
use std::alloc::Global;
use std::io::{Read, Seek, SeekFrom};
use std::rt::Files;

// Where the table of contents of an SACD begins, in an image by sectors of 2,048 or of 2,064 bytes, and how.
const SACD: ([u64; 2], [u8; 8]) = ([1_044_480, 1_052_652], *b"SACDMTOC");

// How many bytes of the beginning are looked at, and at least make a DSDIFF file.
const FRONT: usize = 16;

/// The kind of a file that begins as a DSDIFF or DSF file.
pub(crate) const RECORDING: &str = "a recording";

/// The kind of a certificate.
pub(crate) const CERTIFICATE: &str = "a certificate";

// The first bytes of other kinds of files, from a place on.
const KINDS: [(usize, &[u8], &str); 16] = [
    (0, b"DSD ", RECORDING),
    (0, b"DSPC", CERTIFICATE),
    (0, b"fLaC", "a FLAC file"),
    (0, b"RF64", "an RF64 file"),
    (0, b"BW64", "a BW64 file"),
    (8, b"WAVE", "a WAVE file"),
    (8, b"AIF", "an AIFF file"),
    (0, b"OggS", "an Ogg file"),
    (0, b"ID3", "an MP3 file"),
    (0, b"wvpk", "a WavPack file"),
    (0, b"MAC ", "a Monkey's Audio file"),
    (4, b"ftyp", "an MP4 file"),
    (0, b"PK\x03\x04", "a ZIP file: unpack it first"),
    (0, b"\x1f\x8b", "a gzip file: unpack it first"),
    (0, b"Rar!", "a RAR file: unpack it first"),
    (0, b"7z\xbc\xaf", "a 7z file: unpack it first"),
];

/// The sound of the file of a name, if it says what it is.
pub(crate) fn sound_of<R: Files>(rt: &R, alloc: Global, name: &str) -> Option<Sound> {
    let (file, _) = reopen(rt, name).ok()?;
    match read_prefix(alloc, &mut Inlet::new(file)) {
        Ok(prefix) => Some(prefix.sound),
        Err(_) => None,
    }
}

/// How many marks the file of a name has.
pub(crate) fn marks_of<R: Files>(rt: &R, alloc: Global, name: &str) -> u64 {
    let Ok((file, _)) = reopen(rt, name) else {
        return 0;
    };
    match read_outline(alloc, &mut Inlet::new(file)) {
        Ok(outline) => outline.recording.marks().len() as u64,
        Err(_) => 0,
    }
}

/// The kind of the file of a name, by its first bytes.
pub(crate) fn kind_of<R: Files>(rt: &R, name: &str) -> &'static str {
    let mut bytes = [0u8; FRONT];
    match read_front(rt, name, &mut bytes) {
        Ok(_) => kind_in(&bytes),
        Err(_) => "",
    }
}

// Reads the beginning of a file. Returns how many bytes the file has.
fn read_front<R: Files>(rt: &R, name: &str, front: &mut [u8; FRONT]) -> Result<u64, Trouble> {
    let (mut file, length) = reopen(rt, name)?;
    file.read(front)?;
    Ok(length)
}

// Whether a file is the image of an SACD.
fn is_sacd<R: Files>(rt: &R, name: &str) -> bool {
    let Ok((mut file, _)) = reopen(rt, name) else {
        return false;
    };
    let (places, wanted) = SACD;
    for place in places {
        let mut found = [0u8; 8];
        let is_read = file.seek(SeekFrom::Start(place)).is_ok() && file.read(&mut found).is_ok();
        if is_read && found == wanted {
            return true;
        }
    }
    false
}

impl Line {
    /// Adds why the file of a name is no recording, for this fault.
    pub(crate) fn explain_file<R: Files>(&mut self, rt: &R, name: &str, fault: ReadFault) {
        match fault {
            ReadFault::UnknownForm if is_sacd(rt, name) => self.push(IS_SACD),
            ReadFault::UnknownForm => self.explain_kind(rt, name, "DSDIFF or DSF file"),
            ReadFault::Dsdiff(fault) => self.explain_dsdiff(fault),
            ReadFault::Dsf(fault) => self.explain_dsf(fault),
            ReadFault::Memory => {}
        }
    }

    /// Adds what a file is in place of one that was wanted, by its first bytes.
    pub(crate) fn explain_kind<R: Files>(&mut self, rt: &R, name: &str, wanted: &str) {
        let mut bytes = [0u8; FRONT];
        match read_front(rt, name, &mut bytes) {
            Ok(length) => self.explain_front(&bytes, length, wanted),
            Err(trouble) => self.explain_trouble(rt, name, trouble),
        }
    }

    // The same, by these bytes of a file of so many.
    fn explain_front(&mut self, bytes: &[u8; FRONT], length: u64, wanted: &str) {
        if length < FRONT as u64 {
            let text = match length {
                0 => "it is empty",
                _ => "it has only {b0}",
            };
            return self.say(text, [length, 0, 0]);
        }
        let id = id_at(bytes, 0);
        self.say_id("it begins with {i0}", id, NONE);
        match kind_in(bytes) {
            _ if id == *b"FRM8" && !is_dsdiff(bytes) => {
                self.say_id(OTHER_FORM, id_at(bytes, 12), NONE)
            }
            "" => self.quote(", which no ", wanted, " does"),
            kind => {
                self.quote(": ", kind, ", not a ");
                self.push(wanted);
            }
        }
    }
}

// Whether a file that begins with these bytes is a form of DSDIFF.
fn is_dsdiff(front: &[u8; FRONT]) -> bool {
    front.starts_with(b"FRM8") && front.ends_with(b"DSD ")
}

// The kind of a file that begins with these bytes, if it is known.
fn kind_in(front: &[u8; FRONT]) -> &'static str {
    if is_dsdiff(front) {
        return RECORDING;
    }
    for (place, bytes, kind) in &KINDS {
        if front.get(*place..).unwrap_or(&[]).starts_with(bytes) {
            return kind;
        }
    }
    for byte in front {
        if !byte.is_ascii_graphic() && !byte.is_ascii_whitespace() {
            return "";
        }
    }
    "a text"
}

const OTHER_FORM: &str = ", but as a form of the type {i0}, not \"DSD \"";

const IS_SACD: &str =
    "it is the image of an SACD: write its tracks as DSDIFF or DSF files first, as sacd_extract does";
