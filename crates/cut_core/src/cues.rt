//! The cues of a splice, and the bits that were read for them from their takes.

ghost use Rattle.std.specs.Prelude.{◌≡◌, ◌+◌, ◌^◌, ◌<◌, ◌≤◌, length, map};
ghost use Rattle.splice_core.specs.Cues.{cue_content};
ghost use Rattle.splice_core.specs.Splices.{splice_content};
ghost use Rattle.cost_core.specs.Windows as fades;
ghost use Rattle.cut_core.specs.Cuts.{IsCueOf, span};
ghost use Rattle.cut_core.specs.Excerpts.{HasStretch, cue_shape, excerpts_content, excerpts_of_cue, excerpts_shape, stretch_at};

use crate::excerpts::Excerpts;
use dsd_bits::Bits;
use splice_core::{Cue, Splice};

/// How many cues a splice has.
pub(crate) fn cue_number(splice: &Splice) -> usize
    ensures value { result ≡ length (splice_content splice.now).cues }
    ensures some { 1 ≤ result }
    ensures few { result ≤ 256 }
{
    splice.cues.len()
}

/// Cue `i` of a splice.
pub(crate) fn cue_at(splice: &Splice, number: usize) -> &Cue
    requires { number < length (splice_content splice.now).cues }
    ensures value { cue_content result.now ≡ fades.splice_cue (splice_content splice.now) number }
    ensures fits { IsCueOf (splice_content splice.now) (cue_content result.now) }
{
    &splice.cues[number]
}

/// How many bits of each channel of the master cue `i` and the bridge after it take.
pub(crate) fn span_at(splice: &Splice, number: usize) -> usize
    requires { number < length (splice_content splice.now).cues }
    ensures value { result ≡ span (fades.splice_cue (splice_content splice.now) number) }
    ensures bound { result ≤ 2 ^ 36 + 4096 }
{
    let cue = cue_at(splice, number);
    cue.stop - cue.start + cue.bridge
}

/// What was read of the take that a cue is cut from.
pub(crate) fn take_of<'a>(splice: &Splice, takes: &'a [Excerpts], cue: usize) -> &'a Excerpts
    requires cue { cue < length (splice_content splice.now).cues }
    requires takes { length takes.now ≡ length (splice_content splice.now).takes }
    ensures excerpts { excerpts_content result.now ≡ excerpts_of_cue (splice_content splice.now) takes.now cue }
    ensures shape { excerpts_shape (excerpts_content result.now) ≡ cue_shape (splice_content splice.now) takes.now cue }
{
    &takes[cue_at(splice, cue).take]
}

/// The bits that were read for a cue in a channel.
pub(crate) fn stretch<'a>(
    splice: &Splice,
    takes: &'a [Excerpts],
    channel: usize,
    cue: usize,
) -> &'a Bits
    requires cue { cue < length (splice_content splice.now).cues }
    requires takes { length takes.now ≡ length (splice_content splice.now).takes }
    requires there { HasStretch (splice_content splice.now) (map excerpts_content takes.now) channel cue }
    ensures { result.now ≡ stretch_at (splice_content splice.now) (map excerpts_content takes.now) channel cue }
{
    &take_of(splice, takes, cue).stretches[cue][channel]
}
