//! The header of a file, up to its sound.

ghost use Rattle.std.specs.Prelude.{◌≡◌, ◌+◌, ◌-◌, ◌<◌, ◌++◌, List, ℕ, IfErr, IfOk, OnOk, Err};
ghost use Rattle.chunk_core.specs.Inlets.{inlet_reader};
ghost use Rattle.dsd_bits.specs.Sounds.{IfFound, IfMore, IfRefused};
ghost use Rattle.dsdiff_core.specs.declared.fault.DsdiffFault.TheVariants.{NotDsdiff};
ghost use Rattle.dsdiff_core.specs.Reading.{recording_of};
ghost use Rattle.dsdiff_core.specs.Walks.{IsWalked};
ghost use Rattle.form_core.specs.Opening.{opened_of};
ghost use Rattle.sound_core.specs.Files.{IsBeforeSound, IsHeaderFault, IsRefused, LeadsToSound, StopsBeforeSound};
ghost use Rattle.sound_core.specs.Headers.{IfSure, IfWanted, sound_stated};
ghost use Rattle.sound_core.specs.Causes.{IsCauseIn, IsNamed};
ghost use Rattle.sound_core.specs.Readers.{Counts, HasRead, HoldsAll, IsAtStart, IsReading, IsSame};

use crate::cause::Cause;
use crate::fault::StreamFault;
use crate::reader::SoundReader;
use chunk_core::{Order, head};
use dsd_bits::Sound;
use dsdiff_core::DsdiffFault;
use form_core::{ReadFault, read_any};
use std::alloc::{AllocError, Global};
use std::io::Read;

// How many bytes of data a chunk has that takes more than one read.
const LONG: u64 = 65_536;

/// What the first bytes of a file say about its sound, in either format.
#[derive(Clone, Copy)]
pub(crate) enum HeaderAnswer {
    /// The sound.
    Found(Sound),
    /// More bytes are wanted. The chunks before this place were walked, and need not be again.
    More(usize),
    /// No file that begins so holds a recording: what is known of its first fault.
    Refused(Cause),
}

/// Reads the prefix of a file, until it tells of the file's sound: this is the answer, and what was read is ahead,
/// which may end in the sound or after it. A chunk before the sound is looked at once, however many reads it takes.
///
/// Refusals: `FileRefused` where no file that begins so holds a recording, or the file is at its end: what is known of
/// its first fault is the reader's cause; `ReadFailed`, `TurnLimit` and `Memory`.
pub(crate) fn read_header<R: Read>(
    alloc: Global,
    reader: &mut SoundReader<'_, R>,
) -> Result<Sound, StreamFault>
    requires { IsAtStart reader.old }
    ensures same { IsSame reader.old reader.new }
    ensures reading { OnOk result (IsReading reader.new) }
    ensures given { OnOk result (HoldsAll reader.new) }
    ensures read { OnOk result (HasRead R.remaining reader.old reader.new reader.new.ahead.now.items) }
    ensures states { IfOk result (LeadsToSound reader.new.ahead.now.items) }
    ensures named { IfErr result (IsNamed ⊥ R.remaining reader.old.inlet.now reader.new) }
    ensures counts { Counts reader.old reader.new result }
    ensures fault { IfErr result (IsHeaderFault (R.remaining (inlet_reader reader.old.inlet.now))) }
    ensures stopped { IfErr result (StopsBeforeSound R.remaining reader.old.inlet.now reader.new.inlet.now) }
{
    let mut walked = 16;
    loop {
        let count = reader.read_more()?;
        if count == 0 {
            reader.cause = Cause::Fault(fault_of(alloc, reader.ahead.as_slice())?);
            return Err(StreamFault::FileRefused);
        }
        match stated_by(alloc, reader.ahead.as_slice(), walked, count)? {
            HeaderAnswer::Found(sound) => return Ok(sound),
            HeaderAnswer::More(at) => walked = at,
            HeaderAnswer::Refused(cause) => {
                reader.cause = cause;
                return Err(StreamFault::FileRefused);
            }
        }
    }
}

/// The first fault of a whole file that holds no recording. It fails for want of memory alone; of a file that holds one
/// it says nothing else.
pub(crate) fn fault_of(alloc: Global, file: &[u8]) -> Result<ReadFault, AllocError>
    ensures { IfOk result (λ e. opened_of file.now ≡ Err e) }
{
    match read_any(alloc, file) {
        Ok(_) => Err(AllocError),
        Err(ReadFault::Memory) => Err(AllocError),
        Err(fault) => Ok(fault),
    }
}

// What the prefix of a file states its sound. The chunks before a place were walked, and so many bytes are new.
fn stated_by(
    alloc: Global,
    prefix: &[u8],
    walked: usize,
    count: usize,
) -> Result<HeaderAnswer, AllocError>
    requires walked { IsWalked prefix.now walked }
    ensures found { IfOk result (λ x. IfFound (sound_stated x) (LeadsToSound prefix.now)) }
    ensures refused { IfOk result (λ x. IfRefused (sound_stated x) ((rest : List ℕ) → IsRefused (prefix.now ++ rest))) }
    ensures more { IfOk result (λ x. IfMore (sound_stated x) (IsRefused prefix.now)) }
    ensures before { IfOk result (λ x. IfMore (sound_stated x) (IsBeforeSound prefix.now)) }
    ensures walked { IfOk result (λ x. IfWanted x (IsWalked prefix.now)) }
    ensures sure { IfOk result (λ x. IfSure x (IsCauseIn prefix.now)) }
{
    match dsdiff_core::locate(alloc, prefix, walked)? {
        dsdiff_core::Located::Found(sound) => Ok(HeaderAnswer::Found(sound)),
        dsdiff_core::Located::More(at) => stated_later(alloc, prefix, at, count),
        dsdiff_core::Located::Refused(fault) => Ok(stated_otherwise(prefix, walked, fault)),
        dsdiff_core::Located::Unstated(at) => Ok(HeaderAnswer::Refused(Cause::Unstated(at))),
        dsdiff_core::Located::PastForm(at) => Ok(HeaderAnswer::Refused(Cause::PastForm(at))),
        dsdiff_core::Located::NoSound => Ok(HeaderAnswer::Refused(Cause::NoSound)),
    }
}

// The same where the chunk at a place isn't whole. If it is long, and its head has just come, the chunks before it may
// tell already that no file that begins so holds a recording. Then its data need not be held.
fn stated_later(
    alloc: Global,
    prefix: &[u8],
    at: usize,
    count: usize,
) -> Result<HeaderAnswer, AllocError>
    requires walked { IsWalked prefix.now at }
    requires refused { IsRefused prefix.now }
    requires before { IsBeforeSound prefix.now }
    ensures found { IfOk result (λ x. IfFound (sound_stated x) (LeadsToSound prefix.now)) }
    ensures refused { IfOk result (λ x. IfRefused (sound_stated x) ((rest : List ℕ) → IsRefused (prefix.now ++ rest))) }
    ensures more { IfOk result (λ x. IfMore (sound_stated x) (IsRefused prefix.now)) }
    ensures before { IfOk result (λ x. IfMore (sound_stated x) (IsBeforeSound prefix.now)) }
    ensures walked { IfOk result (λ x. IfWanted x (IsWalked prefix.now)) }
    ensures sure { IfOk result (λ x. IfSure x (IsCauseIn prefix.now)) }
{
    let Some(chunk) = head(Order::Big, prefix, at) else {
        return Ok(HeaderAnswer::More(at));
    };
    let new = prefix.len() - at < count.saturating_add(12);
    if chunk.size <= LONG || !new {
        return Ok(HeaderAnswer::More(at));
    }
    match dsdiff_core::faulty_start(alloc, prefix, at)? {
        Some(start) => Ok(HeaderAnswer::Refused(Cause::Faulty(start))),
        None => Ok(HeaderAnswer::More(at)),
    }
}

// The same where each DSDIFF file that begins so has this fault.
fn stated_otherwise(prefix: &[u8], walked: usize, fault: DsdiffFault) -> HeaderAnswer
    requires walked { IsWalked prefix.now walked }
    requires refused { (rest : List ℕ) → recording_of (prefix.now ++ rest) ≡ Err fault }
    ensures found { IfFound (sound_stated result) (LeadsToSound prefix.now) }
    ensures refused { IfRefused (sound_stated result) ((rest : List ℕ) → IsRefused (prefix.now ++ rest)) }
    ensures more { IfMore (sound_stated result) (IsRefused prefix.now) }
    ensures before { IfMore (sound_stated result) (IsBeforeSound prefix.now) }
    ensures walked { IfWanted result (IsWalked prefix.now) }
    ensures sure { IfSure result (IsCauseIn prefix.now) }
{
    match fault {
        DsdiffFault::NotDsdiff => stated_by_blocks(prefix, walked),
        fault => HeaderAnswer::Refused(Cause::Fault(ReadFault::from(fault))),
    }
}

// The same where no file that begins so is a DSDIFF file.
fn stated_by_blocks(prefix: &[u8], walked: usize) -> HeaderAnswer
    requires walked { IsWalked prefix.now walked }
    requires refused { (rest : List ℕ) → recording_of (prefix.now ++ rest) ≡ Err NotDsdiff }
    ensures found { IfFound (sound_stated result) (LeadsToSound prefix.now) }
    ensures refused { IfRefused (sound_stated result) ((rest : List ℕ) → IsRefused (prefix.now ++ rest)) }
    ensures more { IfMore (sound_stated result) (IsRefused prefix.now) }
    ensures before { IfMore (sound_stated result) (IsBeforeSound prefix.now) }
    ensures walked { IfWanted result (IsWalked prefix.now) }
    ensures sure { IfSure result (IsCauseIn prefix.now) }
{
    match dsf_core::locate(prefix) {
        dsf_core::Located::Found(sound) => HeaderAnswer::Found(sound),
        dsf_core::Located::More(_) => HeaderAnswer::More(walked),
        dsf_core::Located::Refused(fault) => {
            HeaderAnswer::Refused(Cause::Fault(ReadFault::from(fault)))
        }
    }
}
