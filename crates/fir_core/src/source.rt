//! What is played.

ghost use Rattle.std.specs.Prelude.{◌≡◌, ◌*◌, ◌≤◌, length};
ghost use Rattle.fir_core.specs.Windows.{aligned};

use crate::tables::Tables;
use crate::taps::Taps;

/// Bytes whose first bits are played by a decimator, and its tables.
#[derive(Clone, Copy)]
pub(crate) struct Source<'a> {
    pub(crate) taps: &'a Taps,
    pub(crate) tables: &'a Tables,
    pub(crate) bytes: &'a [u8],
    pub(crate) count: usize,
    pub(crate) ghost same: { tables.now ≡ aligned taps.now.taps taps.now.delay },
    pub(crate) ghost enough: { count ≤ 8 * length bytes.now },
}
