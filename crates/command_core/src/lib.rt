//! Commands over the files of a folder, what is reported of them, and the program.
//!
//! [`perform`] does a [`Task`] over a [`Folder`]. [`outcome_line`] and [`status`] are the line and the status for its
//! outcome. [`run_words`] is the program over any [`Host`], which has folders and prints: it does what words ask for,
//! and prints the outcome. [`run_program`] is the whole program, with a runtime's words, its disk and its output.
//! [`sum_line`] is the line that it prints of a file for `sum`, and [`is_as_listed`] judges a file by a line of a list.
//!
//! The words of the contracts:
//!
//! - `TaskComesTo task old new outcome` says what a command did to a folder, of which `old` is known before and `new`
//!   after it. What is reported is true of bytes that were read. If the folder's bytes are known, they are those that
//!   openings of the names gave. `AskedComesTo asked old new outcome` says the same of what words were read as, over a
//!   host (`specs/Commands.antt`).
//! - A `State` is what is known of a host: its files, and the text that it printed to standard output. `Prints` says
//!   that a text was printed after what was printed before (`specs/Hosts.antt`).
//! - `ShowsOutcome outcome line` says that this is the line of an outcome, `status_of` is the status with which the
//!   program ends (`specs/Outcomes.antt`). `fault_text` and `reason_text` are the texts of a fault and of a reason
//!   against a master (`specs/Texts.antt`).
//! - `SumLineComesTo name old new answer` says that an answer is the line of sums of bytes that were read of a file, or
//!   why there is none, `ListedComesTo name line old new answer` whether that line is the one of a list
//!   (`specs/Summing.antt`).
//! - `EndsWords words old new status` says what a run of the program comes to: the outcome is that of what the words
//!   ask for, its line was printed, and the status is its status (`specs/Endings.antt`). `EndsSums` says it of the
//!   files, lists and lines of `sum`, one after the other (`specs/SumEndings.antt`).
//! - `IsSpelled bytes text` says how bytes that may not be UTF-8 are text (`specs/Spelling.antt`).
//!
//! What it promises: an outcome reports what came about. What `edit` cut and what `check` accepts is a master, and none
//! costs less. What `nulltest` accepts differs from the mix, as heard, by at most the mix's limit. A master that both
//! accept is one recording of which both hold ([`checked_and_nulled`]). [`run_words`] does what the words ask for if they are read as a task, and changes nothing otherwise. It
//! ends with the status of the outcome, or of the fault that it couldn't be printed.
//!
//! ```text
//! let task = Task::Convert { form: Form::Dsf, input: "in.dff", output: "out.dsf", speakers: false };
//! match perform(alloc, task, &mut folder) {
//!     Ok(outcome) => outcome_line(alloc, &outcome)?,   // converted dropped 0; status(&outcome) is 0
//!     Err(sums) => ..                                   // only for Task::Sum
//! }
//! ```
#![tactic(auto)]

mod dop_texts;
mod ending;
mod explaining;
mod file_texts;
mod host;
mod judging;
mod laws;
mod listing;
mod masters;
mod outcome;
mod performing;
mod program;
mod running;
mod sources;
mod spelling;
mod sum_status;
mod summing;
mod sums;
mod texts;
mod writing;

pub use explaining::Shown;
pub use folder_core::{Folder, FolderFault, MemoryFolder, read_files, read_whole};
pub use form_core::{form_named, name_of};
pub use host::Host;
pub use laws::{checked_and_nulled, converted_shows_same_sums};
pub use outcome::{Outcome, outcome_line, status};
pub use performing::{SumTask, perform};
pub use program::run_program;
pub use running::{run, run_asked, run_words};
pub use sum_status::SumStatus;
pub use summing::{is_as_listed, sum_line};
pub use transfer_commands::Reported;
pub use words_core::Task;
