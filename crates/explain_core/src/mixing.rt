//! A mix's takes and clips, and why a master isn't compared with it or is rejected.

use crate::files::text_of;
use crate::line::Line;
use crate::recordings::{CERTIFICATE, RECORDING, kind_of, sound_of};
use cut_core::CutFault;
use ended_core::NullReason;
use mix_core::Mix;
use project_core::{Key, ProjectFault, Table};
use request_core::Fault;
use std::alloc::Global;
use std::rt::Files;

/// A mix text, and the mix that it states.
#[derive(Drop)]
pub(crate) struct Mixing {
    source: Vec<u8>,
    pub(crate) mix: Mix,
}

impl Mixing {
    // The name of a take.
    fn take(&self, number: usize) -> &str {
        match self.mix.takes.get(number) {
            Some(name) => name.as_str(),
            None => "",
        }
    }
}

/// The mix of a name, if its text states one.
pub(crate) fn mixing_of<R: Files>(rt: &R, alloc: Global, name: &str) -> Option<Mixing> {
    let source = text_of(rt, alloc, name)?;
    match mix_core::read(alloc, &source) {
        Ok(mix) => Some(Mixing { source, mix }),
        Err(_) => None,
    }
}

impl Line {
    /// Adds why no master is compared with a mix.
    pub(crate) fn explain_in_mix<R: Files>(&mut self, rt: &R, name: &str, fault: Fault) {
        match fault {
            Fault::Memory => self.push(MEMORY),
            Fault::Mix(fault) => {
                self.named(name, "MIX", ": ");
                self.explain_mix(rt, name, fault);
                if let ProjectFault::OutOfLimit(Key::Gains, Table::Clip(_)) = fault {
                    self.explain_gains(rt, name);
                }
            }
            Fault::Cut(fault) => {
                if let Some(mixing) = mixing_of(rt, self.alloc, name) {
                    self.named(name, "MIX", ": ");
                    self.explain_takes_of(rt, &mixing, fault);
                }
            }
            Fault::ClipOutside(number) => {
                if let Some(mixing) = mixing_of(rt, self.alloc, name) {
                    self.named(name, "MIX", ": ");
                    self.explain_clip(rt, &mixing, number);
                }
            }
            _ => {}
        }
    }

    // Adds why a mix text is refused. A recording or a certificate in its place is named as such.
    fn explain_mix<R: Files>(&mut self, rt: &R, name: &str, fault: ProjectFault) {
        match kind_of(rt, name) {
            RECORDING => self.push("it is a recording; MIX comes before MASTER"),
            CERTIFICATE => self.push("it is a certificate, and MIX is a text"),
            _ => self.explain_source(rt, name, fault),
        }
    }

    // Adds how many channels the takes have, where a clip has gains for another number of them.
    fn explain_gains<R: Files>(&mut self, rt: &R, name: &str) {
        if let Some(mixing) = mixing_of(rt, self.alloc, name) {
            let take = mixing.take(0);
            if let Some(sound) = sound_of(rt, self.alloc, take) {
                self.push("; ");
                self.say_take_named(take, 0);
                self.say(" has {c0} channel{s0}", [sound.channels as u64, 0, 0]);
            }
        }
    }

    // Adds what is wrong with a take of a mix.
    fn explain_takes_of<R: Files>(&mut self, rt: &R, mixing: &Mixing, fault: CutFault) {
        match fault {
            CutFault::TakeUnread(number, why) => {
                self.explain_take(rt, mixing.take(number), number, why)
            }
            CutFault::TakeMismatch(number) => {
                self.explain_mismatch(rt, mixing.take(0), mixing.take(number), number)
            }
            _ => {}
        }
    }

    // Adds where a clip ends, and how long its take is.
    fn explain_clip<R: Files>(&mut self, rt: &R, mixing: &Mixing, number: usize) {
        if let Some(clip) = mixing.mix.clips.get(number) {
            if let Ok(lines) = std::str::from_utf8(&mixing.source) {
                self.say_clip_in(lines, number);
            }
            let end = clip.start.saturating_add(clip.length);
            self.say(" ends at bit {c0} of ", [end as u64, 0, 0]);
            let take = mixing.take(clip.take);
            self.say_take_named(take, clip.take);
            if let Some(sound) = sound_of(rt, self.alloc, take) {
                self.say(SHORT, [sound.count as u64, 0, 0]);
            }
        }
    }

    /// Adds why a null test by a mix rejects a master.
    pub(crate) fn explain_not_null<R: Files>(
        &mut self,
        rt: &R,
        mix: &str,
        name: &str,
        reason: NullReason,
    ) {
        match reason {
            NullReason::Unread(fault) => {
                self.named(name, "MASTER", ": ");
                self.explain_file(rt, name, fault);
            }
            NullReason::Shape { found, wanted } => {
                self.named(name, "MASTER", "");
                self.say_shape(" has ", found);
                self.push(", and ");
                self.say_first_take(rt, mix);
                self.say_shape(" ", wanted);
            }
            NullReason::Length { found, wanted } => {
                self.named(name, "MASTER", "");
                self.say(LENGTH, [found as u64, wanted as u64, 0]);
            }
            NullReason::Loud { channel, place } => {
                self.named(name, "MASTER", "");
                self.say(LOUD, [place as u64, channel as u64, 0]);
            }
            NullReason::Residual { channel, place } => {
                self.named(name, "MASTER", "");
                self.say(RESIDUAL, [place as u64, channel as u64, 0]);
                self.say_limit(rt, mix);
            }
        }
    }

    // Adds the first take of the mix of a name.
    fn say_first_take<R: Files>(&mut self, rt: &R, mix: &str) {
        match mixing_of(rt, self.alloc, mix) {
            Some(mixing) => self.say_take_named(mixing.take(0), 0),
            None => self.push("the takes"),
        }
    }

    // Adds the limit of the mix of a name.
    fn say_limit<R: Files>(&mut self, rt: &R, mix: &str) {
        if let Some(mixing) = mixing_of(rt, self.alloc, mix) {
            self.say(", {c0}", [mixing.mix.limit, 0, 0]);
        }
    }
}

// What a null test holds.
const MEMORY: &str =
    "what the clips have of the takes is held, and what the master has in its place: \
     free some memory, or use a larger machine";

const SHORT: &str = ", which has {c0} bit{s0} per channel: start it earlier, or shorten it";

const LENGTH: &str = " has {c0} bits per channel; the mix has {c1} places";

const LOUD: &str =
    ": at bit {c0} of channel {n1} the master is too far from the mix to be judged: is it another take, or \
     another decoder?";

const RESIDUAL: &str = ": the residual at bit {c0} of channel {n1} is above the limit of the mix";
