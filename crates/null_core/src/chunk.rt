//! Judged places that are looked at together.

ghost use Rattle.std.specs.Prelude.{IfOk};
ghost use Rattle.null_core.specs.Chunks.{IsChunk, JudgesChunk};
ghost use Rattle.null_core.specs.Judging.{IsQuietTo};
ghost use Rattle.null_core.specs.Parts.{IsAsked, asked_content};

use crate::around::list_errors_around;
use crate::asked::Asked;
use crate::channel::Channel;
use crate::mixing::MixSpace;
use crate::peak::peak_of;
use crate::stretch::Stretch;
use std::alloc::{AllocError, Global};

/// Judged places, each `every` places after the one before.
#[derive(Clone, Copy)]
pub(crate) struct Chunk {
    /// The first one.
    pub first: usize,
    /// The last one.
    pub last: usize,
}

/// Memory that each chunk uses again. A chunk spans at most `2^16` places, and the windows read fewer than that beyond it.
#[derive(Drop)]
pub(crate) struct Workspace {
    /// What the mix is made in.
    pub space: MixSpace,
    /// The errors that the windows read.
    pub errors: Vec<i64>,
    /// The residuals.
    pub sums: Vec<i64>,
}

impl Workspace {
    /// Nothing yet.
    pub(crate) fn new(alloc: Global) -> Workspace {
        Workspace {
            space: MixSpace {
                sound: Vec::new(alloc),
                mixed: Vec::new(alloc),
            },
            errors: Vec::new(alloc),
            sums: Vec::new(alloc),
        }
    }
}

/// A chunk as a stretch, or the first place that is too loud.
pub(crate) fn judge_chunk(
    asked: Asked<'_>,
    bits: &Channel<'_>,
    chunk: Chunk,
    workspace: &mut Workspace,
) -> Result<Result<Stretch, usize>, AllocError>
    requires asked { IsAsked (asked_content asked) }
    requires chunk { IsChunk (asked_content asked) bits.now chunk }
    requires quiet { IsQuietTo (asked_content asked) bits.now chunk.first }
    ensures { IfOk result (JudgesChunk (asked_content asked.entry) bits.now chunk) }
{
    let every = asked.every;
    let span = chunk.last - chunk.first;
    let loud = list_errors_around(
        &mut workspace.errors,
        &mut workspace.space,
        asked,
        bits,
        chunk.first,
        span + asked.audible.len(),
    )?;
    if let Some(place) = loud {
        return Ok(Err(place));
    }
    workspace.sums.resize(span / every + 1, 0)?;
    let peak = peak_of(asked.audible, &workspace.errors, every, &mut workspace.sums);
    Ok(Ok(Stretch {
        first: chunk.first,
        last: chunk.last,
        residual: peak.size,
        place: chunk.first + peak.index * every,
    }))
}
