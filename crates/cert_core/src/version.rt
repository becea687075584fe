//! The versions of a certificate.

/// How a certificate spells its rows.
#[derive(Clone, Copy)]
pub enum Version {
    /// Each value whole, in eight bytes.
    One,
    /// The least value, how many bytes each excess over it has, and the excesses.
    Two,
}
