//! What is found in a channel.

ghost use Rattle.std.specs.Prelude.{◌≡◌, ℕ, ◌+◌, ◌%◌, ◌^◌, ◌<◌, ◌≤◌, IfOk, length};
ghost use Rattle.null_core.specs.Judging.{IsJudgedTo, JudgesChannel, JudgesSpan, judged_items};
ghost use Rattle.null_core.specs.Own.{IsEdited};
ghost use Rattle.null_core.specs.Parts.{IsAsked, asked_content};

use crate::asked::Asked;
use crate::channel::Channel;
use crate::chunk::{Chunk, Workspace, judge_chunk};
use crate::edited::{Span, next_span};
use crate::joining::join_stretch;
use crate::stretch::Stretch;
use crate::watch::Watch;
use std::alloc::{AllocError, Global};

// How many places a chunk spans at most, judged or not.
const CHUNK_PLACES: usize = 65_536;

// A channel that is compared, and what is told how far it has come.
#[derive(Drop)]
struct Compared<'a, 'b, 'c, W> {
    bits: &'a Channel<'b>,
    watch: &'c W,
}

/// The stretches of a channel, or the first place that is too loud: its error is `2^31` or more in absolute value, and it
/// is within reach of a judged place. Memory is that of the stretches, and of blocks of a fixed size. `watch` is told up to
/// which place of the channel this has come. Err is out of memory.
pub fn judge_channel<W: Watch>(
    alloc: Global,
    asked: Asked<'_>,
    bits: &Channel<'_>,
    watch: &W,
) -> Result<Result<Vec<Stretch>, usize>, AllocError>
    requires { IsAsked (asked_content asked) }
    ensures { IfOk result (λ found. JudgesChannel (asked_content asked.entry) bits.now (judged_items found)) }
{
    let mut workspace = Workspace::new(alloc);
    let compared = Compared { bits, watch };
    let mut stretches = Vec::new(alloc);
    let mut from = 0;
    while let Some(span) = next_span(asked, bits, from) {
        let loud = judge_span(asked, &compared, span, &mut workspace, &mut stretches)?;
        if let Some(place) = loud {
            return Ok(Err(place));
        }
        from = span.stop;
    }
    Ok(Ok(stretches))
}

// Adds the stretches of a span, or returns the first place that is too loud.
fn judge_span<W: Watch>(
    asked: Asked<'_>,
    compared: &Compared<'_, '_, '_, W>,
    span: Span,
    workspace: &mut Workspace,
    stretches: &mut Vec<Stretch>,
) -> Result<Option<usize>, AllocError>
    requires asked { IsAsked (asked_content asked) }
    requires some { span.start < span.stop }
    requires inside { span.stop ≤ length compared.now.bits.now }
    requires edited { (n : ℕ) → span.start ≤ n → n < span.stop → IsEdited (asked_content asked) compared.now.bits.now n }
    requires so_far { IsJudgedTo (asked_content asked) compared.now.bits.now span.start stretches.old.items }
    ensures { IfOk result (JudgesSpan (asked_content asked.entry) compared.now.bits.now span.stop stretches.new.items) }
{
    // A channel has at most 2^36 bits, so no place overflows.
    let bits = compared.bits;
    let count = bits.len();
    let tap_number = asked.audible.len();
    let mut first = span.start.next_multiple_of(asked.every);
    while first < span.stop {
        let last = chunk_end(first, span.stop, asked.every, tap_number);
        match judge_chunk(asked, bits, Chunk { first, last }, workspace)? {
            Err(place) => return Ok(Some(place)),
            Ok(stretch) => join_stretch(stretches, stretch, tap_number)?,
        }
        compared.watch.tell(last, count);
        first = last + asked.every;
    }
    Ok(None)
}

// The last judged place of the chunk that begins at a judged place before `stop`. If `audible` is shorter than the way
// to the next one, this is the first one itself: nothing reads the errors between.
fn chunk_end(first: usize, stop: usize, every: usize, tap_number: usize) -> usize
    requires place { first < stop }
    requires some { 1 ≤ every }
    requires due { first % every ≡ 0 }
    ensures after { first ≤ result }
    ensures before { result < stop }
    ensures due { result % every ≡ 0 }
    ensures small { result < first + 2 ^ 16 }
    ensures reached { first < result → every ≤ tap_number }
{
    if tap_number < every {
        return first;
    }
    first + (stop - 1 - first).min(CHUNK_PLACES - 1) / every * every
}
