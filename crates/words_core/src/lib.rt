//! The words of a command line. [`Words`] are read once. They ask for a [`Task`], with the names of its files, or a
//! [`WordsFault`] says what is wrong with them.
//!
//! What it promises, beside that it is safe: the task is what the words say (`AsksFor words task`, of
//! `specs/Asked.antt`), by a grammar of command lines (`specs/Lines.antt`). A word is refused as no command only if it is
//! none. Which words are refused is tested by `tests/try_commands`.
//!
//! `IsReadAs line read` says what was read of a command line, and `IsReadUpTo words read` what was read of some words
//! (`specs/Reading.antt`).
//!
//! ```text
//! let (is_explained, words) = split_explain(&all);
//! match Words::read(alloc, words)?.task() {
//!     Ok(Task::Info { file }) => ..
//!     Err(WordsFault::UnknownCommand(word)) => ..
//! ```
#![tactic(auto)]

mod fault;
mod options;
mod reading;
mod task;
mod words;

pub use fault::{Misfit, WordsFault};
pub use options::{OptionName, Options, Taken, named, options_of};
pub use reading::Words;
pub use task::Task;
pub use words::{COMMANDS, NAMES, split_explain};
