//! Stretches of a file's sound, kept while the file is read once.

ghost use Rattle.std.specs.Prelude.{◌≡◌, ◌+◌, ◌-◌, ◌<◌, ◌≤◌, ◌^◌, IfErr, IfOk};
ghost use Rattle.chunk_core.specs.Inlets.{inlet_failures, inlet_reader, inlet_reads};
ghost use Rattle.sound_core.specs.Faults.{failed_reads};
ghost use Rattle.sound_core.specs.Keeping.{GivesStretches, HoldsStretches};
ghost use Rattle.form_core.specs.Steps.{map_err};
ghost use Rattle.sound_core.specs.Naming.{IfRefusedAs, IsExact, NamesFault, plain};
ghost use Rattle.sound_core.specs.Outlines.{IsOutlineFault};
ghost use Rattle.sound_core.specs.Readers.{RunsOut};

use crate::fault::{StreamFault, Unread};
use crate::keeper::Keeper;
use crate::outline::Outline;
use crate::taking::read_named;
use chunk_core::Inlet;
use dsd_bits::{BitRange, Bits};
use std::alloc::Global;
use std::io::Read;

/// A file without its sound, and stretches of the sound.
#[derive(Drop)]
pub struct Kept {
    /// The bytes before and after the sound, and what they say.
    pub outline: Outline,
    /// For each requested range the bits of each channel there.
    pub stretches: Vec<Vec<Bits>>,
}

/// Reads a file once, as [`crate::read_outline`] does, and keeps the bits of each channel of its sound in each of these
/// ranges. They may be in any order and overlap. Of a range that extends past the sound's end, what there is of it is
/// kept. Besides that, at most three blocks of 65,536 bytes of the sound are held at a time, and the channels of one.
///
/// Refusals: those of [`crate::read_outline`].
pub fn read_stretches<R: Read>(
    alloc: Global,
    inlet: &mut Inlet<R>,
    ranges: &[BitRange],
) -> Result<Kept, Unread>
    // The reader's file is the outline with some sound, and these are the stretches of its channels.
    ensures ok { IfOk result (HoldsStretches (R.remaining (inlet_reader inlet.old)) ranges.now) }
    // The same of the bytes that were read, if the reader's bytes aren't known.
    ensures any_reader { IfOk result (GivesStretches R.remaining inlet.old inlet.new ranges.now) }
    // The first fault of what was read, and of the reader's file.
    ensures named { IfErr result (λ u. IfRefusedAs u (NamesFault R.remaining inlet.old inlet.new)) }
    ensures exact { IfErr result IsExact }
    ensures fault { IfErr result (λ u. IsOutlineFault (R.remaining (inlet_reader inlet.old)) (plain u)) }
    ensures read_failed { inlet_failures inlet.new ≡ inlet_failures inlet.old + failed_reads (map_err plain result) }
    // Whatever is returned, there were at most 2^40 reads.
    ensures reads { inlet_reads inlet.new ≤ inlet_reads inlet.old + 2 ^ 40 }
    ensures turn_limit { IfErr result (λ u. plain u ≡ StreamFault.TurnLimit → RunsOut inlet.old inlet.new) }
{
    let mut keeper = Keeper::new(alloc, ranges);
    match read_named(alloc, inlet, &mut keeper) {
        Ok(outline) => Ok(Kept {
            outline,
            stretches: keeper.stretches,
        }),
        Err(fault) => Err(fault),
    }
}
