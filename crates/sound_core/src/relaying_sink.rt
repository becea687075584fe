//! What writes a sound in another interleaving while its file is read.

use crate::fault::StreamFault;
use crate::part::SoundPart;
use crate::relaying::NewFile;
use crate::sink::SoundSink;
use crate::writing::put;
use chunk_core::Outlet;
use dsd_bits::Sound;
use interleave_core::push_reinterleaved;
use std::alloc::Global;
use std::io::Write;

/// What writes a target's head to an outlet, and then a sound, interleaved as the target says. It refuses any other
/// sound than the one that it has.
#[derive(Drop)]
pub(crate) struct RelayingSink<'a, 't, W> {
    /// What is written around the sound, and how it is interleaved between.
    pub(crate) target: NewFile<'t>,
    /// The sound.
    pub(crate) sound: Sound,
    /// Where the bytes go.
    pub(crate) outlet: &'a mut Outlet<W>,
    /// What is written next.
    pub(crate) out: &'a mut Vec<u8>,
}

impl<'a, 't, W: Write> SoundSink for RelayingSink<'a, 't, W> {
    ghost use Rattle.sound_core.specs.Relays.{IsRelaying, MayBegin, RefusesRelaying};

    ghost ready = { λ k. MayBegin k };

    ghost has = { λ first k s done bytes. IsRelaying W.contents first k s done bytes };

    ghost refused = { λ first k s came f. RefusesRelaying W.contents first k s came f };

    fn begin(&mut self, _alloc: Global, sound: Sound) -> Result<(), StreamFault> {
        if sound != self.sound {
            return Err(StreamFault::FileRefused);
        }
        put(self.outlet, self.target.head)
    }

    fn take(&mut self, alloc: Global, part: SoundPart, bytes: &[u8]) -> Result<(), StreamFault> {
        self.out.clear();
        push_reinterleaved(
            alloc,
            self.out,
            bytes,
            part.stretch(),
            part.sound.interleaving,
            self.target.interleaving,
        )?;
        put(self.outlet, self.out.as_slice())
    }
}
