//! A project's takes and cues, and why no master is cut of them.

use crate::files::text_of;
use crate::line::Line;
use crate::recordings::sound_of;
use cut_core::CutFault;
use dsd_bits::MOST_BITS;
use form_core::ReadFault;
use project_core::{Cue, Splice};
use request_core::{Shape, splice_of};
use std::alloc::Global;
use std::rt::Files;

/// A project text, and its splice.
#[derive(Drop)]
pub(crate) struct Cutting {
    source: Vec<u8>,
    pub(crate) splice: Splice,
}

impl Cutting {
    /// The name of a take.
    pub(crate) fn take(&self, number: usize) -> &str {
        match self.splice.takes.get(number) {
            Some(name) => name.as_str(),
            None => "",
        }
    }

    /// How many bits of each channel all cues and bridges have.
    pub(crate) fn bits(&self) -> u64 {
        let mut bits = 0u64;
        for cue in &self.splice.cues {
            bits = bits.saturating_add(span_of(cue));
        }
        bits
    }

    /// How many cues have a bridge.
    pub(crate) fn bridges(&self) -> u64 {
        let mut bridges = 0u64;
        for cue in &self.splice.cues {
            bridges = bridges.saturating_add((cue.bridge > 0).into());
        }
        bridges
    }

    /// How many cues have a title.
    pub(crate) fn titles(&self) -> u64 {
        let mut titles = 0u64;
        for cue in &self.splice.cues {
            titles = titles.saturating_add(cue.title.is_some().into());
        }
        titles
    }
}

/// How many bits of each channel a cue has, with its bridge.
pub(crate) fn span_of(cue: &Cue) -> u64 {
    cue.stop
        .saturating_sub(cue.start)
        .saturating_add(cue.bridge) as u64
}

/// The project of a name, if it has a splice.
pub(crate) fn cutting_of<R: Files>(rt: &R, alloc: Global, name: &str) -> Option<Cutting> {
    let source = text_of(rt, alloc, name)?;
    match splice_of(alloc, &source) {
        Ok(splice) => Some(Cutting { source, splice }),
        Err(_) => None,
    }
}

impl Line {
    /// Adds which cue it is, and in which line.
    pub(crate) fn say_cue(&mut self, cutting: &Cutting, number: usize) {
        if let Ok(lines) = std::str::from_utf8(&cutting.source) {
            self.say_cue_in(lines, number);
        }
    }

    /// Adds the name of a take, and its number.
    pub(crate) fn say_take(&mut self, cutting: &Cutting, number: usize) {
        self.say_take_named(cutting.take(number), number);
    }

    /// The same of a take of this name.
    pub(crate) fn say_take_named(&mut self, name: &str, number: usize) {
        self.name(name);
        self.say(" (take {n0})", [number as u64, 0, 0]);
    }

    /// Adds a number of channels and a rate.
    pub(crate) fn say_shape(&mut self, before: &str, shape: Shape) {
        self.push(before);
        let numbers = [shape.channels as u64, shape.rate as u64, 0];
        self.say("{c0} channel{s0} at {c1} Hz", numbers);
    }

    /// Adds why a take is no recording, for this fault.
    pub(crate) fn explain_take<R: Files>(
        &mut self,
        rt: &R,
        name: &str,
        number: usize,
        why: ReadFault,
    ) {
        self.say_take_named(name, number);
        self.push(": ");
        self.explain_file(rt, name, why);
    }

    /// Adds why the takes are not cut.
    pub(crate) fn explain_cut_of<R: Files>(&mut self, rt: &R, cutting: &Cutting, fault: CutFault) {
        match fault {
            CutFault::TakeUnread(number, why) => {
                self.explain_take(rt, cutting.take(number), number, why)
            }
            CutFault::TakeMismatch(number) => {
                self.explain_mismatch(rt, cutting.take(0), cutting.take(number), number)
            }
            CutFault::MasterTooLong => self.say(LONG, [cutting.bits(), MOST, 0]),
            CutFault::NotWholeBytes => {
                let rest = cutting.bits() % 8;
                self.say(REST, [cutting.bits(), rest, 8 - rest])
            }
            CutFault::CueOutside(number) => {
                self.explain_stop(rt, cutting, number, (OUTSIDE, OUTSIDE_OF))
            }
            CutFault::NoRoomAfter(number) => {
                self.explain_stop(rt, cutting, number, (NO_ROOM, NO_ROOM_OF))
            }
            CutFault::NoRoomBefore(number) => self.explain_before(cutting, number),
            CutFault::TakeNumber | CutFault::Memory => {}
        }
    }

    /// Adds in what the first take and the one of a number differ, by their names.
    pub(crate) fn explain_mismatch<R: Files>(
        &mut self,
        rt: &R,
        first_name: &str,
        name: &str,
        number: usize,
    ) {
        let (first, other) = (
            shape_of(rt, self.alloc, first_name),
            shape_of(rt, self.alloc, name),
        );
        if let (Some(first), Some(other)) = (first, other) {
            self.say_take_named(first_name, 0);
            self.say_shape(" has ", first);
            self.push(", and ");
            self.say_take_named(name, number);
            self.say_shape(" has ", other);
            self.push(difference(first, other));
        }
    }

    // Adds why a cue or the bridge after it doesn't fit before the end of a take, by a text about the cue and one about
    // the take.
    fn explain_stop<R: Files>(
        &mut self,
        rt: &R,
        cutting: &Cutting,
        number: usize,
        (text, text_of_take): (&str, &str),
    ) {
        if let Some(cue) = cutting.splice.cues.get(number) {
            let bridge = cue.bridge as u64;
            self.say_cue(cutting, number);
            self.say(text, [cue.stop as u64, bridge, 0]);
            self.say_take(cutting, cue.take);
            if let Some(sound) = sound_of(rt, self.alloc, cutting.take(cue.take)) {
                let bits = sound.count as u64;
                self.say(text_of_take, [bits, bits.saturating_sub(bridge), 0]);
            }
        }
    }

    // Adds how late the cue after a bridge has to start.
    fn explain_before(&mut self, cutting: &Cutting, number: usize) {
        let cues = cutting.splice.cues.as_slice();
        let after = number.saturating_add(1);
        if let (Some(cue), Some(next)) = (cues.get(number), cues.get(after)) {
            let weights = cutting.splice.weights.len() as u64;
            let bridge = cue.bridge as u64;
            let needed = bridge.saturating_add(weights).saturating_sub(1);
            self.say_cue(cutting, after);
            self.say(BEFORE, [next.start as u64, bridge, needed]);
        }
    }
}

// The rate and the channels of the file of a name.
fn shape_of<R: Files>(rt: &R, alloc: Global, name: &str) -> Option<Shape> {
    match sound_of(rt, alloc, name) {
        Some(sound) => Some(Shape {
            rate: sound.rate,
            channels: sound.channels,
        }),
        None => None,
    }
}

// In what two takes differ.
fn difference(first: Shape, other: Shape) -> &'static str {
    match (first.rate == other.rate, first.channels == other.channels) {
        (true, _) => ": their channels differ, and all takes have to have as many",
        (_, true) => ": their rates differ, and all takes have to have the same",
        _ => ": their rates and channels differ, and all takes have to have the same",
    }
}

const MOST: u64 = MOST_BITS as u64;

const OUTSIDE: &str = " stops at {c0}; ";

const OUTSIDE_OF: &str = " has {c0} samples";

const NO_ROOM: &str = " stops at {c0}; its bridge reads {c1} bit{s1} after it, and ";

const NO_ROOM_OF: &str = " has {c0}: stop it at {c1} or earlier, or shorten the bridge";

const LONG: &str =
    "the cues and bridges have {c0} bits together, and {c1} are the most: make two masters of it";

const REST: &str =
    "the cues and bridges have {c0} bits together, {n1} more than whole bytes: let the last cue stop {n1} \
     earlier or {n2} later, or cut the master as dsf";

const BEFORE: &str =
    " starts at {c0}; the bridge before it has {c1} bit{s1} and reads {n2} before the cue: start it at {n2} or later, \
     or shorten the bridge";
