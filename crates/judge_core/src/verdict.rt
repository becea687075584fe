//! The result of checking a master.

use request_core::Reason;

/// The result of checking a master.
#[derive(Clone, Copy)]
pub enum Verdict {
    /// It holds the cues, and no bridge could cost less. This is what all bridges of all channels cost.
    Accepted { total: u128 },
    /// It isn't such a master, or the certificate doesn't show it.
    Rejected(Reason),
}
