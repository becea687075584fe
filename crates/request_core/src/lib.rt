//! What a call is asked for, and why it is refused. [`take_names`], [`splice_of`] and [`decimator_of`] return what a
//! project text has, and [`cut_files`] the cut of a project and its takes. [`cut_excerpts`] opens the cut from parts of
//! takes that were read before. A refusal is a fault ([`Fault`]), a part that isn't there ([`SpanFault`]), or the reason
//! against a master ([`Reason`]), with what was found of it and what was wanted.
//!
//! The words of the contracts:
//!
//! - `SaysTakes text names` says that a project text cuts the takes of these names, `SaysSplice text splice` and
//!   `SaysDecimator text decimator` that it has this splice or this decimator. `take_names_of`, `splice_of_text` and
//!   `decimator_of_text` are the readings in the order of the refusals (`specs/Projects.antt`).
//! - `SaysCut project files form cut` says that this is the cut of project and files, and `said_cut` is that reading in
//!   order (`specs/Cutting.antt`).
//! - `fault_of_file` and the like say which fault a fault of a lower call becomes (`specs/Faults.antt`).
#![tactic(auto)]

mod cutting;
mod fault;
mod projects;
mod reason;
mod span_fault;

pub use cut_core::Shape;
pub use cutting::{cut_excerpts, cut_files};
pub use fault::Fault;
pub use projects::{decimator_of, splice_of, take_names};
pub use reason::Reason;
pub use span_fault::SpanFault;
