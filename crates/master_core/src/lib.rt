//! Masters of a cut: planned with least bridges and written with their certificate.
//!
//! [`plan`] takes all memory that writing needs, tells a [`Watch`] how large the files will be, and then searches each
//! bridge of a [`Cut`](cut_core::Cut). As it searches, and as [`certify`] writes, the watch is told how far it has come. [`write_master`] writes the file of the best master, and [`certify`] the certificate that shows
//! its bridges to be least, while its rows are made. Both walk one list, the bridges of the cut by rising cue and then by
//! rising channel: `choosing.rt` searches them, `certifying.rt` makes their rows again and writes their entries. Whether
//! a recording is a master, and what it costs, is defined by [`cut_core`].
//!
//! [`write_master`] writes the best master although its channels are never in memory: group by group, each channel's
//! part of it made from cues and chosen bridges (`parting.rt`, `writing.rt`, `filing.rt`). It uses memory that
//! [`master_room`] and [`master_ends`] reserved before, and takes none itself.
//!
//! The words of the contracts:
//!
//! - `IsBestMaster cut form recording cost`: the master whose every bridge is the first least one, and its cost
//!   (`specs/Best.antt`).
//! - `PlansMaster cut form bridges`: there is one list of best channels; what they cost, what is shown of them, and
//!   their file (`specs/Planning.antt`).
//! - `AreBridgesOf cut bridges`: the bridges of a cut with the first least bits of each; `Certifies cut bridges cert`:
//!   the certificate of them (`specs/Choosing.antt`, `specs/Certifying.antt`).
//! - `cert_of cut channels`: the certificate of a master, one text for each list of channels
//!   (`specs/Certificates.antt`). The law that it shows least bits to be least is on [`certificates_show`].
//! - `WritesBest cut to old new`, `WritesMaster cut form old new`: the sound of the best master, or its file, was
//!   appended. `IsRoomFor cut room`: it can be written with this reserved memory (`specs/Writing.antt`,
//!   `specs/Filing.antt`).
//!
//! ```text
//! let Planned { bridges, ends, mut room, cert_room } = plan(alloc, &cut, form, &watch)?;
//! write_master(&cut, &bridges, form, &ends, &mut room, &mut outlet)?;
//! let (came, outlet) = certify(&cut, &bridges, cert_room, outlet_of_certificate, &watch);
//! ```
#![tactic(auto)]

mod certifying;
mod choosing;
mod filing;
mod parting;
mod planning;
mod sizes;
mod watch;
mod writing;

pub use certifying::{CertifyingRoom, certificates_show, certify};
pub use choosing::ChosenBridges;
pub use filing::{master_ends, write_master};
pub use planning::{Planned, plan};
pub use watch::{Unwatched, Watch};
pub use writing::{MasterRoom, master_room};
