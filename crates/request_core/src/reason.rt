//! Why a master is rejected.

use cert_core::CertReason;
use cut_core::Shape;
use form_core::ReadFault;
use thiserror::Error;

/// Why a master is rejected: the first reason that applies.
///
/// A reason's text is its name, then its channel and place, or its entry, and what the certificate lacks, each after a
/// space. What else was seen is not part of the text.
#[derive(Clone, Copy, Debug, PartialEq, Eq, Error)]
pub enum Reason {
    /// The master's file can't be read as a recording, for this fault, its first.
    #[error("MasterUnread")]
    MasterUnread(ReadFault),
    /// It has another sample rate or another number of channels than the takes.
    #[error("MasterShape")]
    MasterShape {
        /// What the master has.
        found: Shape,
        /// What the takes have.
        wanted: Shape,
    },
    /// Its channels don't have as many bits as the cues and bridges together.
    #[error("MasterLength")]
    MasterLength {
        /// How many bits each of its channels has.
        found: usize,
        /// How many the cues and bridges have together.
        wanted: usize,
    },
    /// It is a DSDIFF file, and its marks aren't those of the titles.
    #[error("MasterMarks")]
    MasterMarks,
    /// In this channel the bit at this place isn't that of the cue there.
    #[error("CuedBit {0} {1}")]
    CuedBit(usize, usize),
    /// The certificate's head isn't the expected one.
    #[error("CertHead {0}")]
    CertHead(CertReason),
    /// The certificate's entry of this number doesn't show its bridge to be least.
    #[error("Cert {0} {1}")]
    Cert(usize, CertReason),
    /// The certificate's last entry is followed by more bytes.
    #[error("CertExtra")]
    CertExtra,
}
