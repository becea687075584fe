//! Why a master is rejected: which file or cue, and the numbers.

use crate::cutting::{Cutting, span_of};
use crate::line::Line;
use crate::recordings::{CERTIFICATE, RECORDING, kind_of, sound_of};
use cert_core::CertReason;
use form_core::ReadFault;
use request_core::Reason;
use std::alloc::Global;
use std::rt::Files;

impl Line {
    /// Adds why a master with its certificate is rejected.
    pub(crate) fn explain_verdict<R: Files>(
        &mut self,
        rt: &R,
        cutting: &Cutting,
        (master, cert): (&str, &str),
        reason: Reason,
    ) {
        match reason {
            Reason::CertHead(why) => {
                self.named(cert, "CERT", ": ");
                self.explain_head(rt, cutting, cert, why);
            }
            Reason::Cert(entry, why) => {
                self.named(cert, "CERT", ": ");
                let channels = channels_of(rt, self.alloc, cutting);
                self.explain_entry(cutting, entry as u64, channels);
                self.push(hint(why));
            }
            Reason::CertExtra => {
                self.named(cert, "CERT", ": ");
                self.push("something was added after its last entry");
            }
            Reason::MasterUnread(fault) => {
                self.named(master, "MASTER", ": ");
                self.explain_unread_master(rt, master, fault);
            }
            _ => {
                self.named(master, "MASTER", "");
                self.explain_master(cutting, reason);
            }
        }
    }

    fn explain_unread_master<R: Files>(&mut self, rt: &R, master: &str, fault: ReadFault) {
        match fault {
            ReadFault::UnknownForm if kind_of(rt, master) == CERTIFICATE => {
                self.push("it is a certificate; MASTER comes before CERT")
            }
            _ => self.explain_file(rt, master, fault),
        }
    }

    // Adds in what a master isn't that of the project.
    fn explain_master(&mut self, cutting: &Cutting, reason: Reason) {
        match reason {
            Reason::MasterShape { found, wanted } => {
                self.say_shape(" has ", found);
                self.push(", and ");
                self.say_take(cutting, 0);
                self.say_shape(" ", wanted);
            }
            Reason::MasterLength { found, wanted } => {
                self.say(LENGTH, [found as u64, wanted as u64, 0]);
            }
            Reason::MasterMarks => self.say(MARKS, [cutting.titles(), 0, 0]),
            Reason::CuedBit(channel, place) => {
                self.say(BIT, [place as u64, channel as u64, 0]);
                self.explain_bit(cutting, place as u64);
            }
            _ => {}
        }
    }

    // Adds where the bit at a place of the master comes from.
    fn explain_bit(&mut self, cutting: &Cutting, place: u64) {
        let mut rest = place;
        for (number, cue) in cutting.splice.cues.iter().enumerate() {
            let span = span_of(cue);
            if rest < span {
                let there = (cue.start as u64).saturating_add(rest);
                self.say("bit {c0} of ", [there, 0, 0]);
                self.say_take(cutting, cue.take);
                self.push(", by ");
                return self.say_cue(cutting, number);
            }
            rest = rest.saturating_sub(span);
        }
    }

    // Adds why the head of a certificate is not that of the project.
    fn explain_head<R: Files>(&mut self, rt: &R, cutting: &Cutting, cert: &str, why: CertReason) {
        match (kind_of(rt, cert), why) {
            (CERTIFICATE, CertReason::Cut) => self.push(CUT),
            (CERTIFICATE, _) => {
                let channels = channels_of(rt, self.alloc, cutting);
                let weights = cutting.splice.weights.len() as u64;
                self.say(HEAD, [weights, cutting.bridges(), channels]);
            }
            (RECORDING, _) => self.push("it is a recording; CERT comes last"),
            _ => self.explain_kind(rt, cert, "certificate"),
        }
    }

    // Adds for which bridge an entry is.
    fn explain_entry(&mut self, cutting: &Cutting, entry: u64, channels: u64) {
        self.say("entry {n0} is ", [entry, 0, 0]);
        let mut before = entry.checked_div(channels).unwrap_or(0);
        for (number, cue) in cutting.splice.cues.iter().enumerate() {
            if cue.bridge > 0 {
                if before == 0 {
                    let channel = entry.checked_rem(channels).unwrap_or(0);
                    self.say("for channel {n0} of the bridge after ", [channel, 0, 0]);
                    return self.say_cue(cutting, number);
                }
                before -= 1;
            }
        }
    }
}

// How many channels the first take of a project has.
fn channels_of<R: Files>(rt: &R, alloc: Global, cutting: &Cutting) -> u64 {
    match sound_of(rt, alloc, cutting.take(0)) {
        Some(sound) => sound.channels as u64,
        None => 1,
    }
}

// What may have happened.
fn hint(why: CertReason) -> &'static str {
    match why {
        CertReason::Cut => ", and the file ends inside it: fetch it again, or edit again",
        CertReason::Head | CertReason::Length => {
            ": the certificate belongs to another state of the project; edit again"
        }
        CertReason::Cost => ": the bridge was changed; edit again",
        _ => ": takes, weights or cues are not those of the certificate, or it is damaged",
    }
}

const LENGTH: &str = " has {c0} bits per channel; the cues and bridges have {c1} together";

const MARKS: &str =
    ": its marks are not those of the {c0} title{s0} of the project; info prints its marks";

const BIT: &str = ": bit {c0} of channel {n1} has to be ";

const CUT: &str = "it ends inside its head: fetch it again, or edit again";

const HEAD: &str =
    "it is not for {c0} weight{s0} and {c1} bridge{s1} in {c2} channel{s2}, which the project has, or of an \
     unknown version: edit again";
