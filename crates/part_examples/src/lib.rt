//! Worked examples of the parts of which files and masters are made, as tests: bits, chunks, devices, the sound of both
//! formats, samples, decoded sound, residuals and WAVE files; costs, bits and certificates of bridges; mix texts and gains;
//! and the texts of faults.
//!
//! What they share, with those of `archive_examples`, is in [`fixtures`]: small files, and devices that fail where they
//! are asked to. Whole files are in `archive_examples`. What commands show is in `tests/try_commands`.
#![tactic(auto)]

#[cfg(test)]
mod between;
#[cfg(test)]
mod bits;
#[cfg(test)]
mod bridges;
#[cfg(test)]
mod certificate_checking;
#[cfg(test)]
mod certificate_writing;
#[cfg(test)]
mod certificates;
#[cfg(test)]
mod chunks;
#[cfg(test)]
mod costs;
#[cfg(test)]
mod decimation;
#[cfg(test)]
mod decoding;
#[cfg(test)]
mod devices;
pub mod fixtures;
#[cfg(test)]
mod formats;
#[cfg(test)]
mod gains;
#[cfg(test)]
mod mixes;
#[cfg(test)]
mod nulling;
#[cfg(test)]
mod refusals;
#[cfg(test)]
mod residuals;
#[cfg(test)]
mod streams;
#[cfg(test)]
mod texts;
#[cfg(test)]
mod wave;
