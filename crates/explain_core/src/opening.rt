//! The files of a command: which one could not be opened, read or written, and what the system said of it.

use crate::cutting::cutting_of;
use crate::files::{Trouble, reopen, trouble_of};
use crate::joining::word_beside;
use crate::line::Line;
use crate::mixing::mixing_of;
use folder_core::{Failure, STANDARD, Step};
use place_core::Place;
use std::alloc::Global;
use std::fs::Metadata;
use std::io::{Error, ErrorKind};
use std::os::unix::fs::MetadataExt;
use std::rt::{Env, Files};
use std::{env, fs, io};
use words_core::Task;

/// The name of a file, and which word of the usage it is.
pub(crate) type File<'a> = (&'a str, &'static str);

/// The project of a command.
pub(crate) fn project_of(task: Task<'_>) -> Option<&str> {
    match task {
        Task::Play { project, .. }
        | Task::PlayPart { project, .. }
        | Task::PlayBetween { project, .. }
        | Task::Edit { project, .. }
        | Task::Check { project, .. } => Some(project),
        _ => None,
    }
}

/// The recording that a command reads, if it is no take.
pub(crate) fn input_of(task: Task<'_>) -> Option<File<'_>> {
    match task {
        Task::Info { file } => Some((file, "FILE")),
        Task::Convert { input, .. }
        | Task::ConvertDop { input, .. }
        | Task::Play { input, .. }
        | Task::PlayPart { input, .. }
        | Task::PlayBetween { input, .. }
        | Task::PlayDop { input, .. } => Some((input, "IN")),
        _ => None,
    }
}

/// The file that a command makes in a step, or judges.
pub(crate) fn output_of(task: Task<'_>, step: Step) -> Option<File<'_>> {
    match (task, step) {
        (Task::Play { output, .. }, _) => Some((output, "OUT")),
        (Task::PlayPart { output, .. }, _) => Some((output, "OUT")),
        (Task::PlayBetween { output, .. }, _) => Some((output, "OUT")),
        (Task::PlayDop { output, .. }, _) => Some((output, "OUT")),
        (Task::Convert { output, .. }, _) => Some((output, "OUT")),
        (Task::ConvertDop { output, .. }, _) => Some((output, "OUT")),
        (Task::Edit { master, .. }, Step::First) => Some((master, "MASTER")),
        (Task::Check { master, .. }, Step::First) => Some((master, "MASTER")),
        (Task::Edit { cert, .. }, Step::Second) => Some((cert, "CERT")),
        (Task::Check { cert, .. }, Step::Second) => Some((cert, "CERT")),
        _ => None,
    }
}

impl Line {
    /// Adds which file of a command can't be opened or read, the first in the order in which they are opened.
    pub(crate) fn explain_unread<R: Files + Env + AllocGlobal>(&mut self, rt: &R, task: Task) {
        match task {
            Task::Edit { project, .. } => self.explain_cut_files(rt, project),
            Task::Check {
                project,
                master,
                cert,
            } => {
                self.explain_cut_files(rt, project);
                self.explain_named(rt, (master, "MASTER"));
                self.explain_named(rt, (cert, "CERT"));
            }
            Task::NullTest { mix, master } => {
                self.explain_mixed(rt, mix);
                self.explain_named(rt, (master, "MASTER"));
            }
            _ => self.explain_played_files(rt, task),
        }
        if self.is_empty() {
            self.push(PART_WAY);
        }
    }

    // Adds what is wrong with a project or its takes.
    fn explain_cut_files<R: Files + Env + AllocGlobal>(&mut self, rt: &R, project: &str) {
        self.explain_named(rt, (project, "PROJECT"));
        if let Some(cutting) = cutting_of(rt, self.alloc, project) {
            self.explain_takes(rt, project, &cutting.splice.takes);
        }
    }

    // Adds what is wrong with a mix or its takes.
    fn explain_mixed<R: Files + Env + AllocGlobal>(&mut self, rt: &R, mix: &str) {
        self.explain_named(rt, (mix, "MIX"));
        if let Some(mixing) = mixing_of(rt, self.alloc, mix) {
            self.explain_takes(rt, mix, &mixing.mix.takes);
        }
    }

    // Adds what is wrong with a project or a recording that is no take.
    fn explain_played_files<R: Files>(&mut self, rt: &R, task: Task) {
        if let Some(project) = project_of(task) {
            self.explain_named(rt, (project, "PROJECT"));
        }
        if let (Some(file), true) = (input_of(task), self.is_empty()) {
            self.explain_named(rt, file);
            self.explain_unplayed(rt, task, file);
        }
    }

    /// Adds what is wrong with a file that can't be read.
    pub(crate) fn explain_first_unread<R: Files>(&mut self, rt: &R, file: File) {
        self.explain_named(rt, file);
        if self.is_empty() {
            self.push(PART_WAY);
        }
    }

    // Adds what is wrong with a file that is to be read, if nothing was said before.
    fn explain_named<R: Files>(&mut self, rt: &R, (name, word): File) {
        if self.is_empty() {
            if let Some(trouble) = trouble_of(rt, name) {
                self.named(name, word, ": ");
                self.explain_trouble(rt, name, trouble);
            }
        }
    }

    // Adds what of an input can't be played: all of a folder, or marks of what is read once.
    fn explain_unplayed<R: Files>(&mut self, rt: &R, task: Task, (name, word): File) {
        match (task, reopen(rt, name)) {
            (
                Task::Play { .. }
                | Task::PlayPart { .. }
                | Task::PlayBetween { .. }
                | Task::PlayDop { .. },
                Err(Trouble::Folder),
            ) => self.push("; workflows/play_all plays the files of a folder"),
            (Task::PlayPart { from, to, .. }, Err(Trouble::Stream)) => match (from, to) {
                (Some(Place::Mark(_)), _) | (_, Some(Place::Mark(_))) => {
                    self.named(name, word, MARKS)
                }
                _ => {}
            },
            _ => {}
        }
    }

    // Adds what is wrong with the first take that can't be read, if nothing was said before.
    fn explain_takes<R: Files + Env + AllocGlobal>(&mut self, rt: &R, of: &str, takes: &[String]) {
        for (number, take) in takes.iter().enumerate() {
            self.explain_one_take(rt, of, number, take.as_str());
        }
    }

    fn explain_one_take<R: Files + Env + AllocGlobal>(
        &mut self,
        rt: &R,
        of: &str,
        number: usize,
        take: &str,
    ) {
        if self.is_empty() {
            if let Some(trouble) = trouble_of(rt, take) {
                self.say_part_of(take, " (take {n0} of ", number, of);
                self.explain_trouble(rt, take, trouble);
                self.say_folder(rt, "; takes are looked up in ", take);
            }
        }
    }

    /// Adds the name of a file that is of this number in another, a project, a mix or a list. The text says in what.
    pub(crate) fn say_part_of(&mut self, name: &str, text: &str, number: usize, of: &str) {
        self.name(name);
        self.say(text, [number as u64, 0, 0]);
        self.name(of);
        self.push("): ");
    }

    /// Adds where names are looked up, after a text, if this one doesn't say it.
    pub(crate) fn say_folder<R: Env + AllocGlobal>(&mut self, rt: &R, before: &str, name: &str) {
        if let (Ok(path), false) = (env::current_dir(rt), name.starts_with('/')) {
            self.quote(before, path.as_str(), "");
        }
    }

    /// Adds which file of a command could not be written, and why.
    pub(crate) fn explain_unwritten<R: Files>(&mut self, rt: &R, task: Task, failure: &Failure) {
        if let Some(file) = output_of(task, failure.step) {
            let (name, word) = file;
            self.named(name, word, ": ");
            match (project_of(task), word_beside(rt, task, name)) {
                (Some(project), "") if is_taken(&failure.error) => {
                    self.explain_taken(rt, (project, input_of(task).is_none()), file, failure)
                }
                (Some(_), word) if is_taken(&failure.error) => {
                    self.quote("it is ", word, " too: give another name")
                }
                _ => self.explain_error(rt, name, &failure.error),
            }
            if failure.error.kind() == ErrorKind::IsADirectory {
                self.push("; name a file in it");
            }
        }
    }

    // Adds which file of a command one is that could not be made: its project, a take of it, or both files that are made.
    // Only the projects of cuts have takes.
    fn explain_taken<R: Files>(
        &mut self,
        rt: &R,
        (project, is_cut): (&str, bool),
        (name, word): File,
        failure: &Failure,
    ) {
        if is_one(rt, name, project) {
            return self.push("it is PROJECT too: give another name");
        }
        if !is_cut {
            return self.explain_error(rt, name, &failure.error);
        }
        match take_of(rt, self.alloc, project, name) {
            Some(take) => {
                self.say("it is take {n0} of ", [take, 0, 0]);
                self.quote("", project, " too: give another name");
            }
            None if word == "MASTER" => self.push("it is CERT too: give another name"),
            None => self.push("it is MASTER too: give another name"),
        }
    }
}

// The number of the take that a file is.
fn take_of<R: Files>(rt: &R, alloc: Global, project: &str, name: &str) -> Option<u64> {
    let cutting = cutting_of(rt, alloc, project)?;
    for (number, take) in cutting.splice.takes.iter().enumerate() {
        if is_one(rt, name, take) {
            return Some(number as u64);
        }
    }
    None
}

/// Whether a file that was to be made is one that is read.
pub(crate) fn is_one<R: Files>(rt: &R, made: &str, read: &str) -> bool {
    match (
        found(rt, made, "/proc/self/fd/1"),
        found(rt, read, "/proc/self/fd/0"),
    ) {
        (Ok(made), Ok(read)) => made.dev() == read.dev() && made.ino() == read.ino(),
        _ => false,
    }
}

// What the system knows of a file, or of this standard stream.
fn found<R: Files>(rt: &R, name: &str, stream: &str) -> io::Result<Metadata> {
    fs::metadata(rt, if name == STANDARD { stream } else { name })
}

// Whether a file could not be made as the command reads it, or makes it too.
fn is_taken(error: &Error) -> bool {
    error.raw_os_error().is_none() && error.kind() == ErrorKind::ResourceBusy
}

const PART_WAY: &str = "a read failed part way, or a file was changed while it was read";

const MARKS: &str =
    " is read once, and marks come after the sound: name times or frames, or write it to a file first";
