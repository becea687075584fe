//! What a command came to, as far as there is something to explain: [`Ended`], with a [`NullReason`] for a master that a
//! null test rejects and a [`NeighbourReason`] for a file that isn't joined to another, and for a file of `sum` [`Summed`]. [`Explain`] is what explains it, by an [`Explanation`]. `main`
//! hands the program one, so the crate that explains and the one that runs commands don't wait for each other.
//!
//! What it promises: it is safe, and an explanation isn't empty. Whatever explains only makes a text: the program's status
//! is that of the outcome (`EndsWith` of `command_core`).
#![tactic(auto)]

mod ended;
mod explain;
mod explanation;
mod neighbour_reason;
mod null_reason;

pub use ended::{Ended, Summed};
pub use explain::Explain;
pub use explanation::Explanation;
pub use neighbour_reason::NeighbourReason;
pub use null_reason::NullReason;
