//! Whether a file is a master of a project and takes, and its bridges are the best there are, whoever made them.
//! Nothing here makes a master, and nothing searches: this crate builds on the costs of bridges (`cost_core`), on what
//! a certificate shows (`cert_core`) and on the cuts of takes (`cut_core`).
//!
//! [`check`] judges a master and its certificate, starting from project and files. For the cut of these,
//! [`find_master`] reads the master's file once, and [`check_found`] judges what was found of it ([`Found`]) with a
//! certificate that is judged while it is read. Each of them can be called alone, over any reader.
//!
//! While the sound of a master is read, a few groups of blocks at a time, an auditor (`auditor.rt`) compares it with
//! the cues (`cueing.rt`) and keeps the bits of the bridges (`ranges.rt`). Besides these at most three blocks of the
//! sound are held, and the channels of one. `comparing.rt` checks whether the rest is that of a master. A verdict walks
//! one list, the bridges of the cut by rising cue and then by rising channel: `entries.rt` judges their entries, and
//! their total cost is the sum over that list.
//!
//! The words of the contracts, besides those of [`cut_core`]:
//!
//! - `IsMaster project files file` says that a file is a master, whatever its bridges. `Accepts project files master
//!   cert cost` says that it is one, that the certificate shows each bridge to be least, and that this is their total
//!   cost (`specs/Accepting.antt`).
//! - `JudgesMaster cut form recording cert verdict`: what a verdict says (`specs/Judging.antt`).
//! - `IsFoundOf cut found recording`: this was found of the recording, and kept of its bridges (`specs/Kept.antt`).
//!   `IsFoundHeld cut file found` says that a file holds such a recording, or holds none for this fault, its first
//!   (`specs/Finding.antt`).
//!
//! What follows from `Accepts`, whoever made master and certificate, is the law on [`accepted_is_least`].
//!
//! ```text
//! check(alloc, &project, &takes, &master, &cert)?    // Accepted { total }, or Rejected(reason)
//!
//! let cut = cut_excerpts(splice, takes, None)?;
//! let found = find_master(alloc, &cut, &mut inlet)?;
//! check_found(alloc, &cut, &found, &mut reader)?
//! ```
#![tactic(auto)]

mod auditing;
mod auditor;
mod checking;
mod comparing;
mod cueing;
mod entries;
mod finding;
mod laws;
mod ranges;
mod reading;
mod verdict;

pub use checking::{check, check_found};
pub use finding::{CuedPlace, Found};
pub use laws::accepted_is_least;
pub use reading::find_master;
pub use request_core::Reason;
pub use verdict::Verdict;
