//! Two rows of bounds, one after the other.

ghost use Rattle.cost_core.specs.StateCosts.{trellis_of};
ghost use Rattle.cert_core.specs.Within.{AreRows};

use cost_core::Window;

/// Two rows of a window, one after the other: that of `level` and that of the level after it. No value of the first is
/// above the greatest bound.
#[derive(Clone, Copy)]
pub(crate) struct TwoRows<'a> {
    /// The window whose states they have.
    pub(crate) window: &'a Window,
    /// The level of the first.
    pub(crate) level: usize,
    /// The row of `level`.
    pub(crate) previous: &'a [u64],
    /// The row of the level after it.
    pub(crate) row: &'a [u64],
    pub(crate) ghost rows: { AreRows (trellis_of window.now) level previous.now row.now },
}
