//! Masters, read from their files.

ghost use Rattle.std.specs.Prelude.{◌≡◌, ◌+◌, ◌≤◌, ◌^◌, ℕ, List, IfErr, IfOk, IsErrOf};
ghost use Rattle.chunk_core.specs.Inlets.{inlet_failures, inlet_reader, inlet_reads};
ghost use Rattle.form_core.specs.Steps.{map_err};
ghost use Rattle.null_core.specs.Candidates.{FillsFile, FillsGiven, HoldsCandidate, IsCandidateOf, IsHeardOf, IsOfSome};
ghost use Rattle.null_core.specs.Files.{IsReadGiven, IsReadLeft};
ghost use Rattle.sound_core.specs.Faults.{IsReadingFault, failed_reads};
ghost use Rattle.sound_core.specs.Naming.{IfRefusedAs, IsExact, NamesFault, plain};
ghost use Rattle.sound_core.specs.Outlines.{IsOutlineFault};
ghost use Rattle.sound_core.specs.Readers.{RunsOut};

use crate::channel::Channel;
use crate::filler::Filler;
use crate::master::Master;
use crate::mixed::Mixed;
use crate::verdict::{Heard, Verdict, judge, misfit, unheard};
use crate::watch::Watch;
use chunk_core::Inlet;
use form_core::{ReadFault, has_shape};
use sound_core::{Outline, StreamFault, Unread, read_named};
use std::alloc::{AllocError, Global};
use std::io::Read;

/// What a master's file holds, as far as a mix needs it.
#[derive(Drop)]
pub enum Candidate<'a> {
    /// A master with the sample rate and number of channels of the takes, and with as many bits in each channel as the
    /// mix has places.
    Fitting(Master<'a>),
    /// A recording that has not, and the verdict for that. Its bits are not held.
    Misfit(Verdict),
}

// The file of a master without its sound, and the channels of the sound if the master fits.
#[derive(Drop)]
struct Filled<'a> {
    // The bytes before and after the sound, and what they say.
    outline: Outline,
    // The channels, if the master fits.
    channels: Vec<Channel<'a>>,
}

/// What the file of a master holds, or the first fault of a file that doesn't hold a recording, which
/// [`read_any`](form_core::read_any) returns too. The file is read once. Of a master that fits, the bits are held that
/// the takes don't have where they are asked for. Besides these, at most three blocks of 65,536 bytes of the sound are
/// held at a time, and the channels of one.
///
/// Refusals: those of [`read_take`](crate::read_take).
pub fn read_master<'a, R: Read>(
    alloc: Global,
    mixed: &'a Mixed,
    inlet: &mut Inlet<R>,
) -> Result<Result<Candidate<'a>, ReadFault>, StreamFault>
    // It is what the reader's file holds, or is the file's first fault.
    ensures found { IfOk result (IsReadLeft (HoldsCandidate mixed.now) R.remaining inlet.old) }
    // The same of the bytes that were read, if the reader's bytes aren't known.
    ensures any_reader { IfOk result (IsReadGiven (HoldsCandidate mixed.now) R.remaining inlet.old inlet.new) }
    ensures fault { IfErr result IsReadingFault }
    ensures read_failed { inlet_failures inlet.new ≡ inlet_failures inlet.old + failed_reads result }
    // Whatever is returned, there were at most 2^40 reads.
    ensures reads { inlet_reads inlet.new ≤ inlet_reads inlet.old + 2 ^ 40 }
    ensures turn_limit { IsErrOf result StreamFault.TurnLimit → RunsOut inlet.old inlet.new }
{
    match fill(alloc, mixed, inlet) {
        Ok(filled) => Ok(Ok(candidate_of(mixed, filled))),
        Err(Unread::Refused(fault)) => Ok(Err(fault)),
        Err(Unread::Stream(fault)) => Err(fault),
    }
}

// Reads the file of a master once, as `read_outline` does, and fills channels with its sound if it fits the mix.
fn fill<'a, R: Read>(
    alloc: Global,
    mixed: &'a Mixed,
    inlet: &mut Inlet<R>,
) -> Result<Filled<'a>, Unread>
    // The reader's file is one of which this was held.
    ensures ok { IfOk result (FillsFile (R.remaining (inlet_reader inlet.old)) mixed.now) }
    // The same of the bytes that were read, if the reader's bytes aren't known.
    ensures any_reader { IfOk result (FillsGiven R.remaining inlet.old inlet.new mixed.now) }
    // The first fault of what was read, and of the reader's file.
    ensures named { IfErr result (λ u. IfRefusedAs u (NamesFault R.remaining inlet.old inlet.new)) }
    ensures exact { IfErr result IsExact }
    ensures fault { IfErr result (λ u. IsOutlineFault (R.remaining (inlet_reader inlet.old)) (plain u)) }
    ensures read_failed { inlet_failures inlet.new ≡ inlet_failures inlet.old + failed_reads (map_err plain result) }
    ensures reads { inlet_reads inlet.new ≤ inlet_reads inlet.old + 2 ^ 40 }
    ensures turn_limit { IfErr result (λ u. plain u ≡ StreamFault.TurnLimit → RunsOut inlet.old inlet.new) }
{
    let mut filler = Filler::new(alloc, mixed);
    match read_named(alloc, inlet, &mut filler) {
        Ok(outline) => Ok(Filled {
            outline,
            channels: filler.channels,
        }),
        Err(fault) => Err(fault),
    }
}

// What a master's file holds, of which this was held.
fn candidate_of<'a>(mixed: &Mixed, filled: Filled<'a>) -> Candidate<'a>
    requires { IsOfSome mixed.now filled }
    ensures { IsCandidateOf mixed.now filled.entry result }
{
    let Filled { outline, channels } = filled;
    has_shape(&outline.recording);
    match misfit(mixed, &outline.recording, outline.sound.count) {
        Some(verdict) => Candidate::Misfit(verdict),
        None => Candidate::Fitting(Master::new(outline.recording, channels)),
    }
}

/// Judges what a master's file holds by a mix, as [`judge`] judges a master. Err is out of memory.
pub fn judge_candidate<W: Watch>(
    alloc: Global,
    mixed: &Mixed,
    candidate: &Candidate<'_>,
    watch: &W,
) -> Result<Heard, AllocError>
    // Whichever file it was read from, this is what is heard of the recording there.
    ensures { (file : List ℕ) → HoldsCandidate mixed.now file candidate.now → IfOk result (IsHeardOf mixed.now file) }
{
    match candidate {
        Candidate::Fitting(master) => judge(alloc, mixed, master, watch),
        Candidate::Misfit(verdict) => Ok(unheard(alloc, *verdict)),
    }
}
