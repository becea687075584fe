//! A splice with what it reads of its takes, ready to be cut: what masters are made of and judged by.
//!
//! [`Cut::open`] reads the takes of a splice from their files and checks all that a cut needs: the takes are alike,
//! each cue ends within its take, the master is within its limit and each bridge has room. A [`Cut`] keeps this, so its
//! cues, their bits, the window of each bridge, the list of all bridges and the marks of the titles are there without
//! further checks. Of the takes it holds what it reads: the bits of its cues, and those that the bridges next to them
//! read. [`take_excerpts`] keeps these bits of a recording, which is then no longer needed, and [`Cut::of`] makes the
//! cut from what was kept of all takes.
//!
//! The words of the contracts: `CutContent` is a splice with the bits of its cues and the windows of its bridges,
//! `cut_with splice takes` is that of whole takes, and `CanCut` what holds of every cut. `OpensCut splice files form
//! cut` says that the files hold takes with this cut, and that a file of the form, if one is given, can be cut from
//! them. `cut_of splice files form` reads in the order of the refusals, to the cut or the first fault
//! (`specs/Opening.antt`). Both say the same of a cut, by the law on [`opens_in_order`]. `cue_bits cut c i` and `window
//! cut c i` are the bits of cue `i` and the window of the bridge after it in channel `c` (`specs/Cuts.antt`).
//! `AreExcerpts splice takes hs` says that `hs` was read from these takes (`specs/Excerpts.antt`). `bridges cut` is the
//! places of all bridges in their one order (`specs/Bridges.antt`).
//!
//! What a master of a cut is, is said here too, for those that make it and those that judge it. `IsMasterOf cut form
//! recording` says that a recording is one, whatever its bridges, and `total_cost` is the sum over its whole channels
//! (`specs/Masters.antt`). `claims cut channels` is what a certificate must show for these channels, bridge by bridge.
//! `IsCertOf` says that it does, and `windows_total` is the sum over the bridges (`specs/Claims.antt`).
//!
//! ```text
//! let cut = Cut::open(alloc, splice, &files, Some(Form::Dsdiff))?;
//! for place in cut.bridges(alloc)?.iter() {
//!     let window = cut.window(alloc, *place)?;
//! }
//! ```
#![tactic(auto)]

mod bridges;
mod cues;
mod cut;
mod excerpts;
mod fault;
mod fitting;
mod laws;
mod takes;
mod titles;

pub use bridges::BridgePlace;
pub use cut::{CuedBits, Cut};
pub use excerpts::{Excerpts, ranges_of, take_excerpts};
pub use fault::CutFault;
pub use fitting::{Shape, differ};
pub use laws::opens_in_order;
pub use takes::{excerpts_of_file, excerpts_of_files, push_excerpts};
