//! Files under names: a folder of them, and files of it read and written whole.
//!
//! A [`Folder`] opens files, creates them and puts what was created under its name. [`MemoryFolder`] is one in memory,
//! whose bytes are known. A [`Disk`] is that of the operating system: its names are paths, and `-` for the standard
//! streams, what it opens is a [`DiskInput`], and what it creates is a [`DiskFile`], which gets its name only once it
//! is kept, whole.
//!
//! - [`read_file`] reads a file to its end, [`read_files`] several in turn, [`read_whole`] what any reader has left.
//! - [`reads_through`] reads a file to its end and keeps none of it, [`reads_to_end`] what any reader has left.
//! - [`write_file`] creates a file and writes it, [`hand_back`] ends one that was written.
//! - A [`GappedFile`] is for callers that need no byte of two [`Gaps`] in it: a folder on a disk passes over these.
//! - A [`WatchedFolder`] shows on a terminal how far the files of another folder are read, in per cent with the time
//!   left if their [`KnownLength`] is known, and how far [`Work`] has come that [`Folder::show_work`] reports.
//!
//! Definitions that contracts use, from `specs/Files.antt` except for the last four:
//!
//! - `F.view` is what is known of a folder, a `View`: whether the bytes of its readers and writers are known, what an
//!   opening of each name gives, at one time and another, what was put under each name last, and whether giving a file
//!   up leaves an old one as it was.
//! - `IsReadOf view name bytes` says that bytes were read under a name: an opening of it gives them, if the folder's
//!   bytes are known. `AreReadOf view names files` says the same of several names, and `IsPut view name bytes` that
//!   bytes were put there. `Opens view name` says that the name could be opened.
//! - `KeepsOthers name old new` says that only the file of this name may have changed. `IsPutInPart name old new bytes`
//!   says that the file is as it was, or holds a prefix of these bytes, and this only if no old file had to be kept.
//! - `watched_folder` and `watched_file` are what is watched (`specs/WatchedFolders.antt`), `gapped_file` is what is
//!   read except for gaps, `gapped_place` the place of its next byte, `gaps_of` its gaps (`specs/GappedFiles.antt`).
//! - `notes_of` is what a disk remembers of its calls, its [`Notes`] (`specs/Disks.antt`).
//! - `protected_files` are the files that a disk does not replace (`specs/Protecting.antt`).
//!
//! What it promises, over a folder whose bytes are known: what is read is what an opening of that name gives, and what
//! was written is what is put under a name. A write that failed leaves the old file, or a prefix if there was none, and
//! no other file is touched. Every reading ends: a reader that goes on for ever is given up. Nothing is known of the
//! bytes of a disk's files: its calls say what it remembers of them, and what is on the disk is tested.
//!
//! ```text
//! let project = read_file(alloc, &mut folder, "project.toml")?;
//! write_file(&mut folder, "out.dsf", &bytes)?;
//!
//! let mut disk = Disk::new(rt, process);
//! let file = disk.create("out.dsf")?;          // is written as .out.dsf.dsdarc-PROCESS-0
//! disk.keep("out.dsf", file)?;                 // is out.dsf now
//! ```
#![tactic(auto)]

mod direct;
mod disk;
mod disk_file;
mod disk_input;
mod ending;
mod fault;
mod files;
mod folder;
mod gapped_file;
mod leftovers;
mod memory_folder;
mod notes;
mod opened;
mod places;
mod progress;
mod watched_folder;

pub use disk::Disk;
pub use disk_file::{DiskFile, FRONT};
pub use disk_input::DiskInput;
pub use ending::{reads_through, reads_to_end};
pub use fault::FileFault;
pub use files::{hand_back, read_file, read_files, read_whole, write_file};
pub use folder::{Folder, FolderFault, Work};
pub use gapped_file::{Gap, GappedFile, Gaps};
pub use memory_folder::MemoryFolder;
pub use notes::{Failure, Notes, Step};
pub use opened::STANDARD;
pub use watched_folder::{KnownLength, WatchedFile, WatchedFolder};
