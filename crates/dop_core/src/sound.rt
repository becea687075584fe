//! The samples of a file, read from an inlet and looked at.

ghost use Rattle.std.specs.Prelude.{◌≡◌, ◌<◌, ◌≤◌, ◌^◌, IfErr, IfOk};
ghost use Rattle.dop_core.specs.Fronts.{Announces};
ghost use Rattle.dop_core.specs.Pieces.{IfRefused, IsOutside, NamesAfter};
ghost use Rattle.dop_core.specs.Sounds.{ReadsSound, Scans};

use crate::fault::DopFault;
use crate::head::DopHead;
use crate::markers::{Marks, marks_on};
use crate::pieces::read_piece;
use crate::shape::Announced;
use crate::stop::DopStop;
use chunk_core::Inlet;
use std::io::Read;

// How many frames are looked at at a time.
const MOST_FRAMES: usize = 4096;

/// What is known of samples that were read.
#[derive(Clone, Copy)]
pub(crate) struct Scanned {
    /// How many bytes there are, at most those of all frames.
    pub there: usize,
    /// The markers of all frames, if all are there.
    pub marks: Marks,
}

/// Reads the samples after the bytes before them, and returns which marker comes first: 1 if it is 0xFA.
///
/// Refusals: `DataCut`, `PartFrame`, `BadMarker`; `ReadFailed`, `Memory`.
pub(crate) fn read_sound<R: Read>(
    inlet: &mut Inlet<R>,
    piece: &mut Vec<u8>,
    front: &[u8],
    said: &Announced,
) -> Result<usize, DopStop>
    requires { Announces front.now said.now }
    ensures ok { IfOk result (ReadsSound R.remaining inlet.old inlet.new said.now) }
    ensures named { IfErr result (λ stop. IfRefused stop (NamesAfter R.remaining inlet.old inlet.new front.now)) }
{
    let whole = 3 * (said.head.frames * said.head.channels);
    let scanned = scan_frames(inlet, piece, &said.head)?;
    if scanned.there < whole {
        return Err(cut(said.size, scanned.there));
    }
    let extra = said.size - whole;
    if !read_piece(inlet, piece, extra)? {
        return Err(cut(said.size, whole + piece.len()));
    }
    if extra > 0 {
        return Err(DopStop::Refused(DopFault::PartFrame));
    }
    match scanned.marks.broken {
        Some(frame) => Err(DopStop::Refused(DopFault::BadMarker(frame as u64))),
        None => Ok(scanned.marks.first),
    }
}

// Reads whole frames, and looks at their markers.
fn scan_frames<R: Read>(
    inlet: &mut Inlet<R>,
    piece: &mut Vec<u8>,
    head: &DopHead,
) -> Result<Scanned, DopStop>
    requires some { 1 ≤ head.now.channels }
    requires six { head.now.channels ≤ 6 }
    requires few { head.now.frames ≤ 2 ^ 32 }
    ensures ok { IfOk result (Scans R.remaining inlet.old inlet.new head.now) }
    ensures fault { IfErr result IsOutside }
{
    let mut marks = Marks {
        first: 0,
        broken: None,
    };
    let mut done = 0;
    while done < head.frames {
        let frames = (head.frames - done).min(MOST_FRAMES);
        if !read_piece(inlet, piece, 3 * (frames * head.channels))? {
            let there = 3 * (done * head.channels) + piece.len();
            return Ok(Scanned { there, marks });
        }
        marks = marks_on(marks, done, piece, head.channels, frames);
        done += frames;
    }
    let there = 3 * (done * head.channels);
    Ok(Scanned { there, marks })
}

// The file ends after so many bytes of its data chunk.
fn cut(size: usize, there: usize) -> DopStop
    requires few { size < 2 ^ 32 }
    ensures { result ≡ DopStop.Refused (DopFault.DataCut size there) }
{
    DopStop::Refused(DopFault::DataCut {
        size: size as u32,
        there: there as u64,
    })
}
