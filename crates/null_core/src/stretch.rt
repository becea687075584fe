//! Stretches.

/// Judged places near each other, with fewer places between them than `audible` has taps.
#[derive(Clone, Copy)]
pub struct Stretch {
    /// The first judged place.
    pub first: usize,
    /// The last judged place.
    pub last: usize,
    /// The greatest residual at the judged places.
    pub residual: u64,
    /// The first place that has it.
    pub place: usize,
}
