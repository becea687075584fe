//! The line that explains what a command came to.

use crate::cutting::cutting_of;
use crate::line::Line;
use crate::opening::{File, input_of, project_of};
use crate::recordings::{CERTIFICATE, RECORDING, kind_of};
use cut_core::CutFault;
use ended_core::{Ended, Explain, Explanation, Summed};
use form_core::ReadFault;
use project_core::ProjectFault;
use request_core::{Fault, Reason, SpanFault};
use sound_core::StreamFault;
use std::rt::{Env, Files};
use words_core::{Task, WordsFault};

/// Explains what a command came to: which file, key or word it was, what was seen or said of it, and what would fit. It
/// says nothing if a read fails or if memory runs out.
///
/// Files are looked at again, as they are by now. Nothing is written, and no pipe is opened.
#[derive(Clone, Copy)]
pub struct Explainer;

impl Explain for Explainer {
    fn explain_words<A: AllocGlobal>(&self, rt: &A, fault: WordsFault) -> Option<Explanation> {
        let mut line = Line::new(rt.alloc());
        line.explain_words(fault);
        line.end()
    }

    fn explain<R: Files + Env + AllocGlobal>(
        &self,
        rt: &R,
        task: Task,
        ended: Ended,
    ) -> Option<Explanation> {
        let mut line = Line::new(rt.alloc());
        line.explain_task(rt, task, ended);
        line.end()
    }

    fn explain_sum<R: Files + Env + AllocGlobal>(
        &self,
        rt: &R,
        file: Summed,
        ended: Ended,
    ) -> Option<Explanation> {
        let mut line = Line::new(rt.alloc());
        line.explain_summed(rt, file, ended);
        line.end()
    }
}

impl Line {
    fn explain_task<R: Files + Env + AllocGlobal>(&mut self, rt: &R, task: Task, ended: Ended) {
        match ended {
            Ended::Fault(fault) => self.explain_fault(rt, task, fault),
            Ended::Nothing(fault) => self.explain_nothing(rt, task, fault),
            Ended::NoPart(fault) => self.explain_no_part(rt, task, fault),
            Ended::NoPrevious(why) => self.explain_previous(rt, task, why),
            Ended::NoNext(why) => self.explain_next(rt, task, why),
            Ended::DopUnread(_) | Ended::NoChannelType => self.explain_input(rt, task, ended),
            Ended::ReadFailed => self.explain_unread(rt, task),
            Ended::WriteFailed(Some(failure)) => self.explain_unwritten(rt, task, &failure),
            Ended::Rejected(reason) => self.explain_rejected(rt, task, reason),
            Ended::NotNull(reason) => {
                if let Task::NullTest { mix, master } = task {
                    self.explain_not_null(rt, mix, master, reason);
                }
            }
            Ended::Played(front, bytes) => self.explain_wave(rt, task, (&front, bytes), None),
            Ended::Spoken(front, bytes, mask) => {
                self.explain_wave(rt, task, (&front, bytes), Some(mask));
            }
            Ended::Unprinted(error) => {
                self.push("standard output did not take the answer: ");
                self.say_error(&error);
            }
            _ => {}
        }
    }

    // Adds why the recording that a command reads can't be converted.
    fn explain_input<R: Files>(&mut self, rt: &R, task: Task, ended: Ended) {
        if let Some((name, word)) = input_of(task) {
            match ended {
                Ended::DopUnread(fault) => self.explain_dop(rt, name, fault),
                _ => self.named(name, word, NO_TYPE),
            }
        }
    }

    fn explain_rejected<R: Files>(&mut self, rt: &R, task: Task, reason: Reason) {
        if let Task::Check {
            project,
            master,
            cert,
        } = task
        {
            if let Some(cutting) = cutting_of(rt, self.alloc, project) {
                self.explain_verdict(rt, &cutting, (master, cert), reason);
            }
        }
    }

    fn explain_no_part<R: Files>(&mut self, rt: &R, task: Task, fault: SpanFault) {
        if let Task::PlayPart {
            project,
            input,
            from,
            to,
            ..
        } = task
        {
            self.explain_part(rt, (project, input), (from, to), fault);
        }
    }

    // Adds that the input is empty, which can't be looked at again where it is a pipe.
    fn explain_nothing<R: Files>(&mut self, rt: &R, task: Task, fault: Fault) {
        match (fault, input_of(task)) {
            (
                Fault::FileUnread(ReadFault::UnknownForm)
                | Fault::FileRefused(ReadFault::UnknownForm),
                Some((name, word)),
            ) => self.named(name, word, ": it is empty"),
            _ => self.explain_fault(rt, task, fault),
        }
    }

    fn explain_fault<R: Files>(&mut self, rt: &R, task: Task, fault: Fault) {
        if let Task::NullTest { mix, .. } = task {
            return self.explain_in_mix(rt, mix, fault);
        }
        match (input_of(task), fault) {
            (Some(file), _) => self.explain_in_file(rt, task, file, fault),
            (None, Fault::Memory) => self.push(CUT_MEMORY),
            _ => self.explain_in_project(rt, task, fault),
        }
    }

    // Adds why a command is refused that reads a recording that is no take.
    fn explain_in_file<R: Files>(&mut self, rt: &R, task: Task, (name, word): File, fault: Fault) {
        match fault {
            Fault::Memory => self.push(MEMORY),
            Fault::FileUnread(why) | Fault::FileRefused(why) => {
                self.named(name, word, ": ");
                self.explain_file(rt, name, why);
            }
            Fault::NotWholeBytes => self.explain_rest(rt, name, advice_of(task)),
            Fault::Stream(fault) => self.explain_stream(rt, task, fault),
            _ => self.explain_in_project(rt, task, fault),
        }
    }

    // Adds why a recording, or a part of it, is not played.
    fn explain_stream<R: Files>(&mut self, rt: &R, task: Task, fault: StreamFault) {
        match (task, fault) {
            (Task::PlayPart { input, .. }, StreamFault::TooLarge) => {
                self.push("the part of ");
                self.named(input, "IN", LARGE_PART);
            }
            (Task::PlayBetween { input, .. }, StreamFault::TooLarge) => {
                self.named(input, "IN", LARGE_BETWEEN);
            }
            (
                Task::Play { project, input, .. }
                | Task::PlayPart { project, input, .. }
                | Task::PlayBetween { project, input, .. },
                _,
            ) => self.explain_play(rt, (project, input), fault),
            (Task::PlayDop { input, .. }, _) => self.explain_play_dop(rt, input, fault),
            _ => {}
        }
    }

    fn explain_in_project<R: Files>(&mut self, rt: &R, task: Task, fault: Fault) {
        if let Some(project) = project_of(task) {
            match fault {
                Fault::Project(fault) => self.explain_refused_text(rt, project, fault),
                Fault::NoDecimation | Fault::NoSplice => self.explain_table(rt, project),
                Fault::Cut(fault) => self.explain_cutting(rt, project, fault),
                Fault::NotWholeBytes => self.explain_cutting(rt, project, CutFault::NotWholeBytes),
                _ => {}
            }
        }
    }

    // Adds why a project text is refused. A recording or a certificate in its place is named as such.
    fn explain_refused_text<R: Files>(&mut self, rt: &R, project: &str, fault: ProjectFault) {
        self.named(project, "PROJECT", ": ");
        match kind_of(rt, project) {
            RECORDING => self.push("it is a recording; PROJECT comes before the recordings"),
            CERTIFICATE => self.push("it is a certificate; PROJECT comes first"),
            _ => self.explain_source(rt, project, fault),
        }
    }

    fn explain_cutting<R: Files>(&mut self, rt: &R, project: &str, fault: CutFault) {
        if let Some(cutting) = cutting_of(rt, self.alloc, project) {
            self.named(project, "PROJECT", ": ");
            self.explain_cut_of(rt, &cutting, fault);
        }
    }
}

// What to do with a recording that ends inside a byte.
fn advice_of(task: Task) -> &'static str {
    match task {
        Task::PlayBetween { .. } => "play it without --previous and --next",
        _ => "convert it to dsf or dsf8",
    }
}

// What a command holds.
const MEMORY: &str = "what surrounds the sound is held whole, and a pipe that is converted: free \
                      some memory, or use a larger machine";

const CUT_MEMORY: &str = "what is cut of the takes is held, about as many bytes as the master has: \
                          free some memory, or use a larger machine";

const NO_TYPE: &str =
    " has IDs whose loudspeakers no channel type of DSF has; dsdarc info prints them: convert it without \
     --speakers, or to dsdiff";

const LARGE_PART: &str =
    " would make a WAVE file of more than 4,294 MB: make it RF64 by --rf64, or name shorter parts";

const LARGE_BETWEEN: &str =
    " would make a WAVE file of more than 4,294 MB: make it RF64 by --rf64, or choose a filter for a lower rate or 16 bits";
