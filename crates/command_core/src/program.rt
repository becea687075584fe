//! The program on the system's files: its words, its disk and its output.

ghost use Rattle.std.specs.Prelude.{None};
ghost use Rattle.std.specs.Process.{exit_status};
ghost use Rattle.folder_core.specs.Files.{unknown_view};
ghost use Rattle.command_core.specs.Endings.{EndsWith};
ghost use Rattle.command_core.specs.Hosts.{unknown_state};

use crate::explaining::{Remembered, Shown, ended_of};
use crate::host::Host;
use crate::running::{run_asked, run_words};
use crate::spelling::spelled_words;
use ended_core::{Ended, Explain, Explanation, Summed};
use folder_core::{Disk, FRONT, WatchedFolder};
use std::alloc::Global;
use std::cell::Cell;
use std::io::{Error, Input};
use std::os::fd::AsFd;
use std::process::ExitCode;
use std::rt::{Clock, Env, Files};
use words_core::{Task, WordsFault, split_explain};

/// Does what the words of a runtime ask for on its disk, prints the outcome on its output, and returns the status with
/// which the program ends.
///
/// What was done or judged goes to standard output, a fault to standard error. If standard output is a file that was
/// written, what was done goes to standard error; if that is the same file, it isn't printed. `process` is the number
/// of the process. If `is_watched` is set, standard error shows how far a file is read that takes more than a second.
/// If it is set, or the first word is `--explain`, `explainer` explains a fault and a rejection by one more line there,
/// and for a file that was played one more line says what was written.
pub fn run_program<R: Env + Files + Clock + Input + Print + Eprint + AllocGlobal, E: Explain>(
    rt: &R,
    process: u32,
    is_watched: bool,
    explainer: &E,
) -> ExitCode
where
    R::File: AsFd,
    ensures status { EndsWith (exit_status result) }
{
    let count = Cell::new(0);
    let mut program = Program::new(rt, process, is_watched, explainer, &count);
    let Ok(all) = spelled_words(rt) else {
        return ExitCode::from(run_asked(&mut program, Err(WordsFault::Memory)));
    };
    let (is_asked, words) = split_explain(all.as_slice());
    program.is_explained = is_watched || is_asked;
    ExitCode::from(run_words(&mut program, words))
}

// The program: its runtime, what explains faults, the number of its process, whether standard error shows how far it
// is, and whether faults are explained there.
#[derive(Drop)]
struct Program<'a, R, E> {
    rt: &'a R,
    explainer: &'a E,
    process: u32,
    is_watched: bool,
    is_explained: bool,
    // Where it is counted how many bytes the file gave that was opened last.
    count: &'a Cell<u64>,
    // Where the line of a command goes that was done in the folder that was closed last, and what that remembers.
    answers: Answers,
    remembered: Remembered,
}

impl<'a, R, E> Program<'a, R, E> {
    fn new(
        rt: &'a R,
        process: u32,
        is_watched: bool,
        explainer: &'a E,
        count: &'a Cell<u64>,
    ) -> Self {
        Program {
            rt,
            explainer,
            process,
            is_watched,
            is_explained: is_watched,
            count,
            answers: Answers::ToOutput,
            remembered: Remembered {
                failure: None,
                front: None,
                given: 0,
            },
        }
    }
}

impl<'a, R: Files + Env + Clock + Input + Print + Eprint + AllocGlobal, E: Explain> Program<
    'a,
    R,
    E,
>
where
    R::File: AsFd,
{
    // What there is to say of what words came to.
    fn explained(&self, asked: Result<Task, WordsFault>, shown: &Shown) -> Option<Explanation> {
        match (asked, ended_of(shown, self.remembered)) {
            (Err(fault), _) => self.explainer.explain_words(self.rt, fault),
            (Ok(task), Some(ended)) => self.explainer.explain(self.rt, task, ended),
            (Ok(_), None) => None,
        }
    }

    // Prints a line that explains, if there is one.
    fn print_explained(&self, explained: Option<Explanation>) {
        if let Some(line) = explained {
            let _ = self.rt.eprintln(line.as_str());
        }
    }
}

impl<'a, R: Files + Env + Clock + Input + Print + Eprint + AllocGlobal, E: Explain> Host
    for Program<'a, R, E>
where
    R::File: AsFd,
{
    type Files = WatchedFolder<'a, Disk<'a, R>, R>;

    ghost state = { λ p. unknown_state };

    fn alloc(&self) -> Global {
        self.rt.alloc()
    }

    fn open_folder(&mut self, is_shown: bool) -> WatchedFolder<'a, Disk<'a, R>, R> {
        self.count.set(0);
        let disk = Disk::new(self.rt, self.process);
        WatchedFolder::new(self.rt, disk, is_shown && self.is_watched, self.count)
    }

    fn close_folder(&mut self, files: WatchedFolder<'a, Disk<'a, R>, R>) -> bool {
        let disk = files.into_inner();
        self.answers = match (disk.has_used_output(), disk.is_error_output()) {
            (false, _) => Answers::ToOutput,
            (true, true) if !self.is_watched => Answers::Nowhere,
            (true, _) => Answers::ToError,
        };
        self.remembered = Remembered {
            failure: disk.failure(),
            front: front_of(&self.answers, disk.front()),
            given: self.count.get(),
        };
        disk.has_wanted_memory()
    }

    fn print_answer(&mut self, line: &str) -> Result<(), Error> {
        match self.answers {
            Answers::ToOutput => self.rt.println(line),
            Answers::ToError => {
                let _ = self.rt.eprintln(line);
                Ok(())
            }
            Answers::Nowhere => Ok(()),
        }
    }

    fn print_sums(&mut self, line: &[u8], after: &str) -> Result<(), Error> {
        self.rt.write_all(line)?;
        self.rt.println(after)
    }

    fn print_fault(&mut self, line: &str) {
        let _ = self.rt.eprintln(line);
    }

    fn explain(&mut self, asked: Result<Task, WordsFault>, shown: &Shown) {
        if self.is_explained {
            self.print_explained(self.explained(asked, shown));
        }
    }

    fn explain_sum(&mut self, file: Summed, ended: Ended) {
        if self.is_explained {
            self.print_explained(self.explainer.explain_sum(self.rt, file, ended));
        }
    }
}

// Where the line of a command that was done goes.
#[derive(Clone, Copy)]
enum Answers {
    ToOutput,
    // Standard output is a file that was written.
    ToError,
    // Standard error is that file, too, and no terminal.
    Nowhere,
}

// How a file begins of which something may be said: nothing is where the line of what was done goes nowhere.
fn front_of(answers: &Answers, front: Option<[u8; FRONT]>) -> Option<[u8; FRONT]> {
    match answers {
        Answers::Nowhere => None,
        _ => front,
    }
}
