//! A file of DoP samples, looked at before its bits are taken out.

ghost use Rattle.std.specs.Prelude.{◌≡◌, ◌<◌, [], IfErr, IfOk, false, length, true};
ghost use Rattle.dop_core.specs.Fronts.{Announces};
ghost use Rattle.dop_core.specs.Outlines.{IsOutline, ReadsOutline, ReadsRest};
ghost use Rattle.dop_core.specs.Pieces.{IfRefused, NamesAfter};

use crate::fault::DopFault;
use crate::front::read_front;
use crate::head::DopHead;
use crate::pieces::hold_until;
use crate::reading::count_from;
use crate::shape::{Announced, read_announced};
use crate::sound::read_sound;
use crate::stop::DopStop;
use chunk_core::Inlet;
use std::alloc::Global;
use std::io::Read;

/// What a file of DoP samples has around its samples, and what that says.
#[derive(Drop)]
pub struct DopOutline {
    /// What the header says.
    pub(crate) head: DopHead,
    /// How many bits each channel has.
    pub(crate) count: usize,
    /// Which marker comes first: 1 if it is 0xFA.
    pub(crate) first: usize,
    /// The bytes before the samples.
    pub(crate) front: Vec<u8>,
    /// The bytes after them.
    pub(crate) back: Vec<u8>,
}

impl DopOutline {
    /// How many bits each channel has.
    pub fn count(&self) -> usize
        ensures { result ≡ self.now.count }
    {
        self.count
    }
}

/// Looks through a file of DoP samples: it reads all of it, and holds what is before the samples and after them, and of
/// these a piece at a time.
///
/// Refusals: `Refused` with the fault that [`crate::read`] returns of the file; `ReadFailed`, `Memory`. Of a file that
/// is refused as much is read as tells its fault.
pub fn scan_dop<R: Read>(alloc: Global, inlet: &mut Inlet<R>) -> Result<DopOutline, DopStop>
    ensures outline { IfOk result IsOutline }
    // The bytes that were read, up to the end of the file, are the outline with some samples.
    ensures read { IfOk result (ReadsOutline R.remaining inlet.old inlet.new) }
    // The first fault of what was read, and of the reader's file.
    ensures named { IfErr result (λ stop. IfRefused stop (NamesAfter R.remaining inlet.old inlet.new [])) }
{
    let mut piece = Vec::new(alloc);
    let front = read_front(alloc, inlet, &mut piece)?;
    let said = read_announced(&front)?;
    scan_after(alloc, inlet, &mut piece, front, said)
}

// Looks through what follows the bytes before the samples.
fn scan_after<R: Read>(
    alloc: Global,
    inlet: &mut Inlet<R>,
    piece: &mut Vec<u8>,
    front: Vec<u8>,
    said: Announced,
) -> Result<DopOutline, DopStop>
    requires { Announces front.items said }
    ensures outline { IfOk result IsOutline }
    ensures read { IfOk result (ReadsRest R.remaining inlet.old inlet.new) }
    ensures front { IfOk result (λ o. o.front.items ≡ front.items) }
    ensures named { IfErr result (λ stop. IfRefused stop (NamesAfter R.remaining inlet.old inlet.new front.items)) }
{
    let first = read_sound(inlet, piece, &front, &said)?;
    let mut back = Vec::new(alloc);
    hold_until(inlet, piece, &mut back, usize::MAX)?;
    if is_open(said.size, &back) {
        return Err(DopStop::Refused(DopFault::NoSize(0)));
    }
    let count = count_from(&back, said.size % 2, said.head.frames)?;
    Ok(DopOutline {
        head: said.head,
        count,
        first,
        front,
        back,
    })
}

// Whether a data chunk has the size 0, and yet the file goes on.
fn is_open(size: usize, back: &[u8]) -> bool
    ensures yes { result ≡ true → (size ≡ 0) × (0 < length back.now) }
    ensures no { result ≡ false → size ≡ 0 → length back.now ≡ 0 }
{
    size == 0 && !back.is_empty()
}
