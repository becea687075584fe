//! What each byte adds to the windows that contain it, laid out as rows, and the places of bytes in them.

ghost use Rattle.std.specs.Prelude.{◌≡◌, ◌+◌, ◌*◌, ◌/◌, ◌%◌, ◌<◌, ◌≤◌, length};
ghost use Rattle.fir_core.specs.Lookup.{IsBlock, IsLaid, IsSpot};

/// Taps in whole groups of eight, the lookup of all places in a step of `step` bytes, and how many windows a row spans.
#[derive(Clone, Copy)]
pub(crate) struct Lookup<'a> {
    pub(crate) taps: &'a [i32],
    pub(crate) entries: &'a [i32],
    pub(crate) step: usize,
    pub(crate) span: usize,
    pub(crate) ghost laid: { IsLaid taps.now entries.now step span },
}

/// Bytes over which the taps are summed in windows that begin at each step's first byte, and one of the bytes, or the
/// end after them, by the last window that begins with it or before it and its place from there on.
#[derive(Clone, Copy)]
pub(crate) struct Spot<'a> {
    pub(crate) lookup: Lookup<'a>,
    pub(crate) bytes: &'a [u8],
    pub(crate) p: usize,
    pub(crate) window: usize,
    pub(crate) place: usize,
    pub(crate) ghost spot: { IsSpot lookup.step p window place },
    pub(crate) ghost within: { p ≤ length bytes.now },
}

/// Eight bytes from `p` on, the places in the rows of what each of them adds to some windows from window `start` on,
/// and the window before which these end.
#[derive(Clone, Copy)]
pub(crate) struct Block<'a> {
    pub(crate) lookup: Lookup<'a>,
    pub(crate) bytes: &'a [u8],
    pub(crate) p: usize,
    pub(crate) start: usize,
    pub(crate) number: usize,
    pub(crate) limit: usize,
    pub(crate) at: [usize; 8],
    pub(crate) ghost block: { IsBlock lookup.taps.now bytes.now lookup.step lookup.entries.now p start number at },
    pub(crate) ghost below: { start + number ≤ limit },
}

/// The same rows, with the step as a constant.
#[inline(always)]
pub(crate) fn with_step<'a>(lookup: Lookup<'a>, step: usize) -> Lookup<'a>
    requires { step ≡ lookup.step }
    ensures taps { result.taps ≡ lookup.entry.taps }
    ensures step { result.step ≡ lookup.entry.step }
    ensures span { result.span ≡ lookup.entry.span }
{
    Lookup {
        taps: lookup.taps,
        entries: lookup.entries,
        step,
        span: lookup.span,
    }
}

/// How many windows of some bytes eight bytes reach, rounded up to whole groups of eight. If steps are multiples of
/// eight bytes, eight bytes from a multiple of eight on are in one.
pub(crate) fn span_of(size: usize, step: usize) -> usize
    requires few { size ≤ 513 }
    requires some { 1 ≤ step }
    ensures wide { size ≤ result * step }
    ensures loose { 0 < step % 8 → size + 7 ≤ result * step }
    ensures narrow { result ≤ 1024 }
    ensures eights { result % 8 ≡ 0 }
{
    let more = if step % 8 == 0 { 0 } else { 7 };
    (size + more).div_ceil(step).div_ceil(8) * 8
}
