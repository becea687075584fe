//! A sink that plays a sound as DoP samples while its file is read.

ghost use Rattle.std.specs.Prelude.{◌≡◌, ◌+◌, ◌-◌, ◌<◌, ◌^◌, IfErr, OnErr, OnOk};
ghost use Rattle.chunk_core.specs.Outlets.{Puts, PutsPrefix, outlet_failures, outlet_writer};
ghost use Rattle.dsd_bits.specs.Sounds.{IsSound};
ghost use Rattle.sound_core.specs.Faults.{IsBeforeWriting, IsWritingFault, failed_writes};
ghost use Rattle.dop_core.specs.Sinks.{IsDopFault, OpensDop, head_of_sound};
ghost use Rattle.dop_core.specs.Writing.{dop_tail};

use crate::header::{push_head, push_tail};
use chunk_core::Outlet;
use dsd_bits::Sound;
use native_core::{Layout, native_joins, push_native};
use sound_core::{SoundPart, SoundSink, StreamFault, put};
use std::alloc::Global;
use std::io::Write;
use wave_core::WaveFault;

/// A sink that plays a sound to an outlet: what is before its samples, and the samples of each part as it comes.
#[derive(Drop)]
pub(crate) struct DopSink<'a, W> {
    /// Where the bytes go.
    pub(crate) outlet: &'a mut Outlet<W>,
    /// What is written next.
    pub(crate) out: &'a mut Vec<u8>,
}

impl<'a, W: Write> SoundSink for DopSink<'a, W> {
    ghost use Rattle.std.specs.Prelude.{◌-◌, ◌<◌, ◌^◌};
    ghost use Rattle.chunk_core.specs.Outlets.{outlet_failures};
    ghost use Rattle.dop_core.specs.Sinks.{IsDopPlaying, RefusesDop};

    ghost ready = { λ k. outlet_failures k.outlet.now < 2 ^ 64 - 1 };

    ghost has = { λ first k s done bytes. IsDopPlaying W.contents first k s done bytes };

    ghost refused = { λ first k s came f. RefusesDop W.contents first k s came f };

    fn begin(&mut self, alloc: Global, sound: Sound) -> Result<(), StreamFault> {
        native_joins();
        put_head(alloc, &sound, self.out, self.outlet)
    }

    fn take(&mut self, alloc: Global, part: SoundPart, bytes: &[u8]) -> Result<(), StreamFault> {
        native_joins();
        self.out.clear();
        push_native(
            alloc,
            self.out,
            bytes,
            part.stretch(),
            part.sound.interleaving,
            Layout::Dop,
        )?;
        put(self.outlet, self.out.as_slice())
    }
}

// Writes what is before the samples of a sound.
//
// Refusals, in this order: `RateNotDivided`, `TooLarge`, before anything is written; `Memory`, `WriteFailed`.
fn put_head<W: Write>(
    alloc: Global,
    sound: &Sound,
    out: &mut Vec<u8>,
    outlet: &mut Outlet<W>,
) -> Result<(), StreamFault>
    requires sound { IsSound sound.now }
    requires ready { outlet_failures outlet.old < 2 ^ 64 - 1 }
    ensures ok { OnOk result (OpensDop sound.now (W.contents (outlet_writer outlet.old))
        (W.contents (outlet_writer outlet.new))) }
    ensures err { OnErr result (PutsPrefix W.contents outlet.old outlet.new (head_of_sound sound.now)) }
    ensures fault { IfErr result (IsDopFault sound.now) }
    ensures unwritten { IfErr result (λ f. IsBeforeWriting f → outlet_writer outlet.new ≡ outlet_writer outlet.old) }
    ensures failures { outlet_failures outlet.new ≡ outlet_failures outlet.old + failed_writes result }
{
    if sound.rate % 16 != 0 {
        return Err(StreamFault::RateNotDivided);
    }
    out.clear();
    match push_head(alloc, out, sound) {
        Ok(()) => put(outlet, out.as_slice()),
        Err(WaveFault::TooLarge) => Err(StreamFault::TooLarge),
        Err(WaveFault::Memory) => Err(StreamFault::Memory),
    }
}

/// Writes what follows the samples of a sound.
///
/// Refusals: `Memory`, `WriteFailed`.
pub(crate) fn put_tail<W: Write>(
    sound: &Sound,
    out: &mut Vec<u8>,
    outlet: &mut Outlet<W>,
) -> Result<(), StreamFault>
    requires sound { IsSound sound.now }
    requires ready { outlet_failures outlet.old < 2 ^ 64 - 1 }
    ensures ok { OnOk result (Puts W.contents outlet.old outlet.new (dop_tail sound.now.channels sound.now.count)) }
    ensures err { OnErr result (PutsPrefix W.contents outlet.old outlet.new
        (dop_tail sound.now.channels sound.now.count)) }
    ensures fault { IfErr result IsWritingFault }
    ensures failures { outlet_failures outlet.new ≡ outlet_failures outlet.old + failed_writes result }
{
    out.clear();
    push_tail(out, sound)?;
    put(outlet, out.as_slice())
}
