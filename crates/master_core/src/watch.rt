//! What is told how far long work has come.

/// What is told how far the search for bridges, or the writing of their certificate, has come. No clause speaks of it.
pub trait Watch {
    /// Before the search: how many bytes the master's file will have, and its certificate at most.
    fn tell_sizes(&self, master: u64, most_of_certificate: u64) {
        let _ = (master, most_of_certificate);
    }

    /// How many of all bridges were searched, or written to the certificate.
    fn tell(&self, done: usize, all: usize);
}

/// What tells nothing.
pub struct Unwatched {}

impl Watch for Unwatched {
    fn tell(&self, _done: usize, _all: usize) {}
}
