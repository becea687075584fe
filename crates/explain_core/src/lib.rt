//! What explains a fault, after it: the [`Explainer`] says in one line which file, key or word it was, what was seen or
//! what the system said, and what would fit. Of a file that was played it says what was written. It does the same for a
//! file of `sum`.
//!
//! What it promises: it is safe. It has no contracts: that a line isn't empty is what its type says, `Explanation` of
//! `ended_core`. It writes nothing, opens no pipe, and holds little: what surrounds the sound of a file, and a project
//! text or a list. What its lines say is tested (`tests/try_commands`, `tests/try_explained`).
//!
//! The faults tell what was seen. Files are read again by the crates that read them first, and looked at only for what
//! no fault tells: the system's words, the line of a key, and what a file is that is no recording.
//!
//! ```text
//! Explainer.explain(rt, task, Ended::ReadFailed)    // zeros.dff (take 1 of edit.toml): No such file or directory; ..
//! ```
#![tactic(auto)]

mod cutting;
mod dop;
mod explaining;
mod faults;
mod files;
mod joining;
mod line;
mod mixing;
mod opening;
mod playing;
mod projects;
mod recordings;
mod summing;
mod verdicts;
mod words;

pub use explaining::Explainer;
