//! Why a recording is not played: the numbers, and what would fit. Or what was written, and what may surprise in it.

use crate::files::{reopen, text_of};
use crate::line::Line;
use crate::opening::{output_of, project_of};
use crate::recordings::{marks_of, sound_of};
use chunk_core::{Order, id_at, u16_at, u32_at};
use dsd_bits::Sound;
use folder_core::{FRONT, Step};
use place_core::Place;
use project_core::{Project, read};
use request_core::SpanFault;
use sound_core::StreamFault;
use std::alloc::Global;
use std::io::{Read, Seek, SeekFrom};
use std::rt::Files;
use words_core::Task;

// The nanoseconds of a second.
const SECOND: u128 = 1_000_000_000;

// The file beside ready filters that lists them, with the rates that each is for.
const INDEX: &str = "index.txt";

// Endings of names by which a program takes a file for another than a WAVE file.
const ENDINGS: [&str; 12] = [
    "flac", "mp3", "aif", "aiff", "m4a", "ogg", "opus", "wv", "ape", "dsf", "dff", "dsdiff",
];

// The tag of the first form of a WAVE file's format chunk, which has no mask.
const PLAIN: u16 = 1;

// The loudspeakers of a channel mask, and their usual short names.
const SPEAKERS: [(u32, &str); 6] = [
    (1, "FL"),
    (2, "FR"),
    (4, "FC"),
    (8, "LFE"),
    (16, "BL"),
    (32, "BR"),
];

// The bytes of the chunk that makes room in a header for sizes of 64 bits.
const ROOM: u64 = 36;

/// The project and the input of a command that plays.
pub(crate) type Played<'a> = (&'a str, &'a str);

/// Where a part begins and ends, as far as it is named.
pub(crate) type Ends = (Option<Place>, Option<Place>);

// What finds the ready filter for a file.
const PICK: &str = "filters/pick (installed: dsdarc-pick)";

// What a project has: the factor and the width of its filter, or 0 for each, and whether it has a splice.
#[derive(Clone, Copy)]
pub(crate) struct Tables {
    pub(crate) factor: u64,
    width: u64,
    has_splice: bool,
}

fn tables_in(alloc: Global, source: &[u8]) -> Option<Tables> {
    match read(alloc, source) {
        Ok(project) => Some(found_in(&project)),
        Err(_) => None,
    }
}

// The project is borrowed here, so that no exit has to free it.
fn found_in(project: &Project) -> Tables {
    let (factor, width) = match &project.decimate {
        Some(taps) => (taps.factor().into(), taps.width().into()),
        None => (0, 0),
    };
    Tables {
        factor,
        width,
        has_splice: project.splice.is_some(),
    }
}

/// What the project of a name has.
pub(crate) fn tables_of<R: Files>(rt: &R, alloc: Global, name: &str) -> Option<Tables> {
    tables_in(alloc, &text_of(rt, alloc, name)?)
}

// Takes the room that the header of a WAVE file may have for sizes of 64 bits out of its first bytes, and returns how
// many bytes the file has without it. With room the format chunk is read again from the file of the output, if it can be.
fn without_room<R: Files>(rt: &R, task: Task, front: &mut [u8; FRONT], bytes: u64) -> Option<u64> {
    if id_at(front, 12) == *b"fmt " {
        return Some(bytes);
    }
    let (output, _) = output_of(task, Step::First)?;
    let (mut file, _) = reopen(rt, output).ok()?;
    file.seek(SeekFrom::Start(ROOM)).ok()?;
    file.read(front).ok()?;
    Some(bytes.saturating_sub(ROOM))
}

impl Line {
    /// Adds why a recording, the second, is not played by a project.
    pub(crate) fn explain_play<R: Files>(&mut self, rt: &R, played: Played, fault: StreamFault) {
        let (project, input) = played;
        match fault {
            StreamFault::TurnLimit => self.named(input, "IN", " has no end: name a file"),
            StreamFault::RateNotDivided | StreamFault::TooLarge => {
                let sound = sound_of(rt, self.alloc, input);
                if let (Some(sound), Some(tables)) = (sound, tables_of(rt, self.alloc, project)) {
                    self.named(input, "IN", "");
                    match fault {
                        StreamFault::TooLarge => self.say(LARGE, [size_of(sound, tables), 0, 0]),
                        _ => self.explain_unfit(rt, project, sound.rate as u64, tables.factor),
                    }
                }
            }
            _ => {}
        }
    }

    // Adds why the filter does not fit a rate, and which one does.
    fn explain_unfit<R: Files>(&mut self, rt: &R, project: &str, rate: u64, factor: u64) {
        self.say(" has {c0} Hz, which the factor {n1} of ", [rate, factor, 0]);
        self.quote("", project, " does not divide: ");
        match filter_for(rt, self.alloc, project, rate) {
            Some(path) => self.quote("", path.as_str(), " fits"),
            None => self.quote("", PICK, " prints the filter that fits a file"),
        }
    }

    /// Adds why a part of a recording, the second, is not played by a project.
    pub(crate) fn explain_part<R: Files>(
        &mut self,
        rt: &R,
        (project, input): Played,
        ends: Ends,
        fault: SpanFault,
    ) {
        match fault {
            SpanFault::NoMark => self.explain_marks(input, marks_of(rt, self.alloc, input)),
            SpanFault::PartReversed => self.push("what --to names is before what --from names"),
            SpanFault::PartOutside => {
                let sound = sound_of(rt, self.alloc, input);
                if let (Some(sound), Some(tables)) = (sound, tables_of(rt, self.alloc, project)) {
                    let factor = tables.factor.max(1);
                    let frames = (sound.count as u64).div_ceil(factor);
                    self.explain_end(input, ends, frames, sound.rate as u64 / factor);
                }
            }
        }
    }

    fn explain_marks(&mut self, input: &str, marks: u64) {
        let template = match marks {
            0 => " has no marks: name a time or a frame",
            1 => " has one mark, #0",
            _ => " has {c0} marks, #0 to #{n1}, which dsdarc info prints",
        };
        self.named(input, "IN", "");
        self.say(template, [marks, marks.saturating_sub(1), 0]);
    }

    // Adds which end of a part is after the end of a recording, and how long this is.
    fn explain_end(&mut self, input: &str, (from, to): Ends, frames: u64, rate: u64) {
        let text = match (is_after(from, frames, rate), is_after(to, frames, rate)) {
            (true, _) => "what --from names is after the end of ",
            (_, true) => "what --to names is after the end of ",
            _ => "a mark of the part is after the end of ",
        };
        self.push(text);
        self.named(input, "IN", ", which lasts ");
        self.time(frames, rate);
        self.say(" ({c0} frame{s0} at {c1} Hz)", [frames, rate, 0]);
    }

    /// Adds by how much the channels of a file are not whole bytes, and what to do.
    pub(crate) fn explain_rest<R: Files>(&mut self, rt: &R, input: &str, advice: &str) {
        if let Some(sound) = sound_of(rt, self.alloc, input) {
            let bits = sound.count as u64;
            self.named(input, "IN", "");
            self.say(REST, [bits, bits % 8, 0]);
        } else {
            self.named(input, "IN", " does not have whole bytes of bits: ");
        }
        self.push(advice);
    }

    /// Adds what a WAVE file of so many bytes holds, by the first of them, and which loudspeakers it names by a mask of the
    /// channels, if there is one.
    pub(crate) fn explain_wave<R: Files>(
        &mut self,
        rt: &R,
        task: Task,
        (front, bytes): (&[u8; FRONT], u64),
        mask: Option<u32>,
    ) {
        let is_rf64 = id_at(front, 0) == *b"RF64";
        let mut plain = *front;
        let Some(size) = without_room(rt, task, &mut plain, bytes) else {
            return;
        };
        self.explain_played(rt, task, &plain, size);
        if let Some(mask) = mask {
            self.say_speakers(&plain, mask);
        }
        if is_rf64 {
            self.push(IS_RF64);
        }
    }

    // Adds what a WAVE file of so many bytes holds, by the first of them: its rate, width, channels and duration. Then
    // comes what may surprise: a filter for another rate, a name that is that of another kind of file, no frames.
    fn explain_played<R: Files>(&mut self, rt: &R, task: Task, front: &[u8; FRONT], bytes: u64) {
        let (rate, frames) = self.say_wave(front, bytes);
        if let Some(project) = project_of(task) {
            self.explain_filter(rt, project, rate);
        }
        if let Task::PlayDop { .. } = task {
            self.explain_dop_played(rate);
        }
        if let Some((output, _)) = output_of(task, Step::First) {
            self.explain_name(output);
        }
        if frames == 0 {
            self.explain_silence(task);
        }
    }

    // Adds which loudspeakers a WAVE file names, by its first bytes and the mask of the channels.
    fn say_speakers(&mut self, front: &[u8; FRONT], mask: u32) {
        if mask == 0 {
            return self.push(NO_SPEAKERS);
        }
        if u16_at(Order::Little, front, 20) == PLAIN {
            return self.push(NO_MASK);
        }
        let mut is_begun = false;
        for (bit, name) in &SPEAKERS {
            if mask & *bit != 0 {
                self.push(if is_begun { ", " } else { "; loudspeakers " });
                self.push(name);
                is_begun = true;
            }
        }
    }

    // Adds what a WAVE file holds. Returns its rate, and how many frames it has.
    fn say_wave(&mut self, front: &[u8; FRONT], bytes: u64) -> (u64, u64) {
        let order = Order::Little;
        let (rate, format) = (u32_at(order, front, 24), u32_at(order, front, 16));
        let (frame, width) = (u16_at(order, front, 32), u16_at(order, front, 34));
        let sound = bytes.saturating_sub(u64::from(format).saturating_add(28));
        let (rate, frames) = (rate as u64, sound / u64::from(frame).max(1));
        let channels = u16_at(order, front, 22) as u64;
        let text = "{n0} Hz, {n1} bits, {c2} channel{s2}, ";
        self.say(text, [rate, width as u64, channels]);
        self.time(frames, rate);
        (rate, frames)
    }

    // Adds why a WAVE file has no frames.
    fn explain_silence(&mut self, task: Task) {
        match task {
            Task::Play { input, .. }
            | Task::PlayBetween { input, .. }
            | Task::PlayDop { input, .. } => {
                self.push("; ");
                self.named(input, "IN", " has no sound");
            }
            Task::PlayPart { .. } => self.push("; the part is empty: it begins where it ends"),
            _ => {}
        }
    }

    // Adds for which rates a ready filter is, where a file that it played to this rate has another.
    fn explain_filter<R: Files>(&mut self, rt: &R, project: &str, rate: u64) {
        let (folder, filter) = folder_and_name(project);
        let index = index_in(rt, self.alloc, folder);
        if let (Some(index), Some(tables)) = (index, tables_of(rt, self.alloc, project)) {
            let rate = rate.saturating_mul(tables.factor);
            self.explain_other(text_in(&index), filter, rate);
        }
    }

    // Adds for which rates a filter is by a list of them, if not for this one.
    fn explain_other(&mut self, index: &str, filter: &str, rate: u64) {
        for row in index.lines() {
            let (name, rates) = row_of(row);
            if name == filter && !rates.is_empty() && !has_rate(rates, rate) {
                return self.say_rates(name, rates, rate);
            }
        }
    }

    fn say_rates(&mut self, name: &str, rates: &str, rate: u64) {
        self.quote("; the filter ", name, " is for ");
        for (number, each) in rates.split(',').enumerate() {
            self.quote(if number > 0 { " or " } else { "" }, each, "");
        }
        self.say(" Hz, and the file has {n0} Hz: ", [rate, 0, 0]);
        self.quote("", PICK, " finds the right one");
    }

    // Adds that a file is a WAVE file, where its name says otherwise.
    fn explain_name(&mut self, output: &str) {
        let (_, name) = folder_and_name(output);
        let (_, ending) = name.rsplit_once('.').unwrap_or(("", ""));
        if is_other(ending) {
            self.push("; ");
            self.named(output, "OUT", NAMED);
        }
    }

    /// Adds what a project has in place of the table that is asked for.
    pub(crate) fn explain_table<R: Files>(&mut self, rt: &R, project: &str) {
        if let Some(tables) = tables_of(rt, self.alloc, project) {
            self.named(project, "PROJECT", ": ");
            self.push(kind_by(tables));
        }
    }
}

// What a project is.
fn kind_by(tables: Tables) -> &'static str {
    if tables.has_splice {
        CUE_LIST
    } else if tables.factor > 0 {
        FILTER
    } else {
        "it has no table at all"
    }
}

// How many bytes the sound of a WAVE file would have.
fn size_of(sound: Sound, tables: Tables) -> u64 {
    let samples = (sound.count as u64).checked_div(tables.factor).unwrap_or(0);
    let frame = (sound.channels as u64).saturating_mul(tables.width / 8);
    samples.saturating_mul(frame)
}

// The ready filter for a rate that is beside another and makes the same of its recordings.
fn filter_for<R: Files>(rt: &R, alloc: Global, project: &str, rate: u64) -> Option<String> {
    let (folder, filter) = folder_and_name(project);
    let index = index_in(rt, alloc, folder)?;
    let name = filter_in(text_in(&index), filter, rate)?;
    format!(in alloc; "{folder}/{name}").ok()
}

// The filter of a list that does this.
fn filter_in<'a>(index: &'a str, filter: &str, rate: u64) -> Option<&'a str> {
    let (_, made) = filter.split_once("-to-")?;
    for row in index.lines() {
        let (name, rates) = row_of(row);
        if has_rate(rates, rate) && name.split_once("-to-").unwrap_or(("", "")).1 == made {
            return Some(name);
        }
    }
    None
}

// The list of the filters of a folder.
fn index_in<R: Files>(rt: &R, alloc: Global, folder: &str) -> Option<Vec<u8>> {
    match format!(in alloc; "{folder}/{INDEX}") {
        Ok(path) => text_of(rt, alloc, path.as_str()),
        Err(_) => None,
    }
}

// Whether a name ends as that of another kind of file.
fn is_other(ending: &str) -> bool {
    for known in &ENDINGS {
        if ending.eq_ignore_ascii_case(known) {
            return true;
        }
    }
    false
}

// Whether a place is after the end of so many frames, of which this number make a second. Of a mark this isn't known.
fn is_after(place: Option<Place>, frames: u64, rate: u64) -> bool {
    match place {
        Some(Place::Time(nanoseconds)) => {
            let frame = u128::from(nanoseconds).saturating_mul(u128::from(rate)) / SECOND;
            frame > u128::from(frames)
        }
        Some(Place::Frame(number)) => number > frames,
        _ => false,
    }
}

fn text_in(bytes: &[u8]) -> &str {
    std::str::from_utf8(bytes).unwrap_or("")
}

// The folder of a path, and its last name.
fn folder_and_name(path: &str) -> (&str, &str) {
    path.rsplit_once('/').unwrap_or((".", path))
}

// The name of a filter in a row of the list, and the rates that it is for, with commas between them.
fn row_of(row: &str) -> (&str, &str) {
    let (name, rest) = row.split_once(' ').unwrap_or((row, ""));
    (name, rest.split_once(' ').unwrap_or((rest, "")).0)
}

fn has_rate(rates: &str, rate: u64) -> bool {
    for each in rates.split(',') {
        match each.parse::<u64>() {
            Ok(known) if known == rate => return true,
            _ => {}
        }
    }
    false
}

const LARGE: &str =
    " would make a WAVE file of {b0}, and 4,294 MB are the most: make it RF64 by --rf64, choose a filter \
     for a lower rate or 16 bits, or play it in parts";

const IS_RF64: &str = "; it is RF64, as it has more than 4,294 MB";

const NO_SPEAKERS: &str =
    "; no loudspeakers: an ID is none of theirs, or two channels have the same";

const NO_MASK: &str =
    "; with 16 bits and one or two channels a WAVE file can't name loudspeakers: players take the usual ones";

const REST: &str = " has {c0} bits per channel, {n1} more than whole bytes: ";

const CUE_LIST: &str = "it is a cue list, for edit and check; the ready filters are in filters/";

const FILTER: &str = "it is a filter, for play; edit and check want a table \"splice\"";

const NAMED: &str =
    " is a WAVE file, whatever its name: play writes no other, but a pipe from OUT - to another program \
     makes them";
