//! What the folder of the operating system remembers of its calls.

ghost use Rattle.std.specs.Prelude.{◌≡◌, ◌↔◌, IsTrue};
ghost use Rattle.std.specs.IoError.{error_kind};
ghost use Rattle.std.specs.declared.io.ErrorKind.TheVariants.{OutOfMemory};
ghost use Rattle.folder_core.specs.Disks.{IsFresh, RunsOut, failure_by, next_step, noting};

use std::io::{Error, ErrorKind};

/// Why a file could not be created, written or put in its place.
#[derive(Clone, Copy)]
pub struct Failure {
    /// Which file it was.
    pub step: Step,
    /// What the system said.
    pub error: Error,
}

/// Which of the files that a command makes.
#[derive(Clone, Copy)]
pub enum Step {
    /// The first.
    First,
    /// One after the first, or one whose place was to be held for later.
    Second,
}

/// What a [`Disk`](crate::Disk) remembers of its calls.
#[derive(Clone, Copy)]
pub struct Notes {
    /// Whether standard error is the same file as standard output.
    pub is_error_output: bool,
    /// Whether a file was not opened or created because memory ran out.
    pub wanted_memory: bool,
    /// Whether a file that was created is standard output.
    pub used_output: bool,
    /// Whether a file was put in its place.
    pub has_kept: bool,
    /// Why a file could not be created, written or put in its place, the first that could not.
    pub failure: Option<Failure>,
}

impl Notes {
    /// Nothing was done yet.
    pub(crate) fn new(is_error_output: bool) -> Notes
        ensures fresh { IsFresh result }
        ensures shared { result.is_error_output ≡ is_error_output }
    {
        Notes {
            is_error_output,
            wanted_memory: false,
            used_output: false,
            has_kept: false,
            failure: None,
        }
    }

    /// Which file is being made.
    pub(crate) fn step(&self) -> Step
        ensures { result ≡ next_step self.now }
    {
        if self.has_kept {
            Step::Second
        } else {
            Step::First
        }
    }

    /// Remembers an error, if it says that memory ran out.
    pub(crate) fn add_error(&mut self, error: Error)
        ensures { RunsOut (error_kind error) self.old self.new }
    {
        if is_out_of_memory(error) {
            self.wanted_memory = true;
        }
    }

    /// Remembers why a file that is made failed, if none did before.
    pub(crate) fn add_failure(&mut self, step: Step, error: Error)
        ensures { self.new ≡ noting (failure_by step error) self.old }
    {
        self.failure = self.failure.or(Some(Failure { step, error }));
    }

    /// Remembers both of an error.
    pub(crate) fn add_failed(&mut self, step: Step, error: Error)
        ensures { RunsOut (error_kind error) (noting (failure_by step error) self.old) self.new }
    {
        self.failure = self.failure.or(Some(Failure { step, error }));
        self.add_error(error);
    }
}

// Whether an error says that memory ran out.
fn is_out_of_memory(error: Error) -> bool
    ensures { IsTrue result ↔ (error_kind error ≡ OutOfMemory) }
{
    error.kind() == ErrorKind::OutOfMemory
}
