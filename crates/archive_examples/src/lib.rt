//! Worked examples of calls over whole files, as tests: what no command shows of them, and calls that no command makes.
//!
//! The parts of which files and masters are made are in `part_examples`, with what both share: its `fixtures`. What
//! commands show is in `tests/try_commands`.
#![tactic(auto)]

#[cfg(test)]
mod channels;
#[cfg(test)]
mod folders;
#[cfg(test)]
mod masters;
#[cfg(test)]
mod outcomes;
#[cfg(test)]
mod streams;
