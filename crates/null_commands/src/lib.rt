//! The null test of files of a folder, and the lines that are printed of it.
//!
//! [`null_test_files`] reads a mix, the takes that it names and a master, and compares the master with the mix
//! (`null_core`). [`tested_lines`] are the lines that say what was heard.
//!
//! The words of the contracts, over any folder, of which `old` is known before and `new` after:
//!
//! - `TestComesTo mix master old new result` says what a null test of files returned, by bytes that were read of them
//!   (`specs/Testing.antt`). `AreMixSources` says which bytes were read of a mix and its takes (`specs/Sources.antt`).
//! - `Accepts text files master residual` (`null_core`): the master nulls with the mix's limit, no place is too loud,
//!   and this is the greatest residual.
//! - `ShowsTested tested text` says that these are the lines (`specs/Lines.antt`).
//! - `fault_of_null` is a fault of the null test as a fault of a call (`specs/Faults.antt`).
//!
//! What it promises: a master is accepted exactly if the bytes that were read of the mix, the takes and the master say
//! so. If the folder's bytes are known, these are those of the named files. A fault of the takes is returned only if the
//! master could be opened. No file changes.
//!
//! ```text
//! let tested = null_test_files(alloc, &mut folder, "fade.mix.toml", "master.dff")?;
//! tested_lines(alloc, &tested)?    // channel 0 first 6 last 8 .. accepted residual 28 dBFS -1.15
//! ```
#![tactic(auto)]

mod fault;
mod lines;
mod masters;
mod sources;
mod tested;
mod testing;

pub use fault::{TestFault, fault_of_null};
pub use lines::tested_lines;
pub use tested::Tested;
pub use testing::null_test_files;
