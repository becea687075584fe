//! From the bytes of files to the bytes of files: reading a recording of any form, converting it, playing it, cutting
//! masters from takes by cue lists, and checking masters.
//!
//! [`read_any`] reads a DSDIFF 1.5 or DSF 1.01 file ([`form_core`]), [`convert`] writes its recording in another
//! [`Form`], and [`play`] makes a RIFF WAVE file of it, decimated as a project text says. [`play_stream`] does this
//! from a reader to a writer. [`take_names`] lists the takes that a project text cuts, [`edit`] cuts its master from
//! them and certifies it, [`plan_master`] does the same up to the writing, and [`check`] judges a master and its
//! certificate, whoever made them. The calls for one recording are from [`transfer_core`], judging is from
//! [`judge_core`], cuts are from [`cut_core`], and masters from [`master_core`]. This crate has the calls that cut
//! masters, starting from project and files.
//!
//! The words of the contracts:
//!
//! - `Converts`, `Plays` and `SaysTakes` (`transfer_core`): what a file converts to, what project and file play, and
//!   which takes a text cuts.
//! - `SaysCut project files form cut` (`judge_core`) says that this is the cut of project and files.
//! - `Edits project files form master cost` says that these bytes are the file of the master with the first least
//!   bridges, and that this is their cost. `IsCertificate project files file cert` says that these bytes are its
//!   certificate, of which there is one (`specs/Editing.antt`).
//! - `IsMaster project files file` (`judge_core`) says that a file is a master, whatever its bridges;
//!   `Accepts project files master cert cost` that it is, and that the certificate shows each bridge to be least.
//!
//! Each of `Converts`, `Plays`, `SaysTakes` and `SaysCut` also has a reading in the order of the refusals, to the
//! result or the first fault: `converted_of`, `played_of`, `take_names_of`, `said_cut`. A call returns the result of
//! its reading, or is refused as it is, unless memory runs out. The law on [`read_in_order`] joins relation and
//! reading. What follows from `Accepts`, whoever made master and certificate, is the law on [`accepted_is_least`]. That
//! a least master is accepted with its certificate is the law on [`least_is_accepted`].
//!
//! ```text
//! let converted = convert(alloc, &file, Form::Dsf)?;
//! let wave = play(alloc, &project, &file)?;
//! let edited = edit(alloc, &project, &takes, Form::Dsdiff)?;
//! check(alloc, &project, &takes, &edited.master, &edited.cert)?    // Accepted { total: edited.total }
//! ```
#![tactic(auto)]

mod editing;
mod laws;
mod planning;

pub use cut_core::CutFault;
pub use editing::{Edited, edit};
pub use form_core::{Form, Opened, ReadFault, read_any};
pub use judge_core::{Reason, Verdict, accepted_is_least, check};
pub use laws::{least_is_accepted, read_in_order};
pub use master_core::Watch;
pub use planning::{PlannedMaster, plan_master};
pub use sound_core::StreamFault;
pub use transfer_core::{Converted, Fault, WaveRange, convert, play, play_stream, take_names};
