//! Why a file is not played between others.

use crate::line::Line;
use crate::opening::{File, is_one};
use crate::recordings::sound_of;
use ended_core::NeighbourReason;
use request_core::Fault;
use std::rt::Files;
use words_core::Task;

// Why a file is no neighbour of another, of which the name is second.
type Beside<'a> = (File<'a>, &'a str);

impl Line {
    /// Adds why the file before one that is played is no neighbour of it.
    pub(crate) fn explain_previous<R: Files>(&mut self, rt: &R, task: Task, why: NeighbourReason) {
        if let Task::PlayBetween {
            input,
            previous: Some(name),
            ..
        } = task
        {
            self.explain_neighbour(rt, ((name, PREVIOUS), input), why);
        }
    }

    /// Adds why the file after one that is played is no neighbour of it.
    pub(crate) fn explain_next<R: Files>(&mut self, rt: &R, task: Task, why: NeighbourReason) {
        if let Task::PlayBetween {
            input,
            next: Some(name),
            ..
        } = task
        {
            self.explain_neighbour(rt, ((name, NEXT), input), why);
        }
    }

    fn explain_neighbour<R: Files>(&mut self, rt: &R, beside: Beside, why: NeighbourReason) {
        let ((name, word), _) = beside;
        match why {
            NeighbourReason::Unread => self.explain_first_unread(rt, (name, word)),
            NeighbourReason::Refused(Fault::FileUnread(fault) | Fault::FileRefused(fault)) => {
                self.named(name, word, ": ");
                self.explain_file(rt, name, fault);
            }
            NeighbourReason::Refused(_) => {}
            NeighbourReason::Rate | NeighbourReason::Channels => {
                self.explain_other_shape(rt, beside, why);
            }
            NeighbourReason::Rest => {
                self.named(name, word, REST);
                self.push(WITHOUT);
                self.push(word);
            }
        }
    }

    // Adds the rates or the channels of both files.
    fn explain_other_shape<R: Files>(
        &mut self,
        rt: &R,
        ((name, word), input): Beside,
        why: NeighbourReason,
    ) {
        let (own, other) = (
            sound_of(rt, self.alloc, name),
            sound_of(rt, self.alloc, input),
        );
        if let (Some(own), Some(other)) = (own, other) {
            let (text, first, second) = match why {
                NeighbourReason::Rate => (HERTZ, own.rate as u64, other.rate as u64),
                _ => (CHANNELS, own.channels as u64, other.channels as u64),
            };
            self.named(name, word, " has ");
            self.say(text, [first, 0, 0]);
            self.push(", and ");
            self.named(input, "IN", " ");
            self.say(text, [second, 0, 0]);
            self.push(WITHOUT);
            self.push(word);
        }
    }
}

/// Which word of a command a file is that is to be made, if it plays between others and reads that file: none, the input
/// or an option.
pub(crate) fn word_beside<R: Files>(rt: &R, task: Task, made: &str) -> &'static str {
    let Task::PlayBetween {
        input,
        previous,
        next,
        ..
    } = task
    else {
        return "";
    };
    if is_one(rt, made, input) {
        "IN"
    } else if is_named(rt, made, previous) {
        PREVIOUS
    } else if is_named(rt, made, next) {
        NEXT
    } else {
        ""
    }
}

// Whether a file that is to be made is one that an option names.
fn is_named<R: Files>(rt: &R, made: &str, read: Option<&str>) -> bool {
    match read {
        Some(read) => is_one(rt, made, read),
        None => false,
    }
}

const PREVIOUS: &str = "--previous";

const NEXT: &str = "--next";

const HERTZ: &str = "{c0} Hz";

const CHANNELS: &str = "{n0} channel{s0}";

const WITHOUT: &str = ": play it without ";

const REST: &str = " does not end with a whole byte of each channel";
