//! What is written around the frames.

ghost use Rattle.std.specs.Prelude.{◌≡◌, ◌+◌, ◌-◌, ◌/◌, ◌<◌, ◌≤◌, ◌^◌, IfErr, OnErr, OnOk};
ghost use Rattle.chunk_core.specs.Outlets.{Puts, PutsPrefix, outlet_failures, outlet_writer};
ghost use Rattle.dsd_bits.specs.Sounds.{IsSound};
ghost use Rattle.player_core.specs.Laws.{total_frames};
ghost use Rattle.player_core.specs.Outlets.{OnOutlet};
ghost use Rattle.wave_core.specs.Contents.{spec_of};
ghost use Rattle.sound_core.specs.Faults.{IsBeforeWriting, IsWritingFault, failed_writes};
ghost use Rattle.player_core.specs.Wave.{IsOpeningFault, OpensWave, wave_file_size, sound_header, pad_of};

use crate::spec::wave_spec;
use chunk_core::Outlet;
use dsd_bits::Sound;
use fir_core::Taps;
use sound_core::{StreamFault, put};
use std::io::Write;
use wave_core::{WaveFault, WaveHead, WaveSpec};

/// How many frames are played of a sound.
pub(crate) fn total_frames(taps: &Taps, sound: &Sound) -> u64
    ensures { result ≡ total_frames taps.now sound.now }
{
    sound.count.div_ceil(taps.factor() as usize) as u64
}

// What the WAVE file of a sound says.
fn spec_of(taps: &Taps, sound: &Sound) -> WaveSpec
    requires { IsSound sound.now }
    ensures spec { result ≡ spec_of sound.now.channels (sound.now.rate / taps.now.factor) taps.now.width }
    ensures factor { 8 ≤ taps.now.factor }
{
    wave_spec(taps, sound.channels, sound.rate)
}

/// How many bytes the WAVE file of a sound has.
pub(crate) fn file_size(taps: &Taps, sound: &Sound, head: WaveHead) -> u64
    requires { IsSound sound.now }
    ensures { result ≡ wave_file_size head taps.now sound.now }
{
    spec_of(taps, sound).file_size_as(head, total_frames(taps, sound))
}

/// Writes the header of the WAVE file of a sound.
///
/// Refusals, in this order: `RateNotDivided`, `TooLarge`, before anything is written; `Memory`, `WriteFailed`.
pub(crate) fn put_header<W: Write>(
    taps: &Taps,
    sound: &Sound,
    head: WaveHead,
    out: &mut Vec<u8>,
    outlet: &mut Outlet<W>,
) -> Result<(), StreamFault>
    requires sound { IsSound sound.now }
    requires ready { outlet_failures outlet.old < 2 ^ 64 - 1 }
    ensures ok { OnOk result (OnOutlet W.contents outlet.old outlet.new (OpensWave head taps.now sound.now)) }
    ensures err { OnErr result (PutsPrefix W.contents outlet.old outlet.new (sound_header head taps.now sound.now)) }
    ensures least { OnOk result (8 ≤ taps.now.factor) }
    ensures fault { IfErr result (IsOpeningFault head taps.now sound.now) }
    ensures unwritten { IfErr result (λ f. IsBeforeWriting f → outlet_writer outlet.new ≡ outlet_writer outlet.old) }
    ensures failures { outlet_failures outlet.new ≡ outlet_failures outlet.old + failed_writes result }
{
    if !taps.rate_fits(sound.rate) {
        return Err(StreamFault::RateNotDivided);
    }
    out.clear();
    match spec_of(taps, sound).push_header_as(out, head, total_frames(taps, sound)) {
        Ok(()) => put(outlet, out.as_slice()),
        Err(WaveFault::TooLarge) => Err(StreamFault::TooLarge),
        Err(WaveFault::Memory) => Err(StreamFault::Memory),
    }
}

/// Writes what follows the frames of a sound: a byte if theirs are an odd number.
///
/// Refusals: `Memory`, `WriteFailed`.
pub(crate) fn put_pad<W: Write>(
    taps: &Taps,
    sound: &Sound,
    out: &mut Vec<u8>,
    outlet: &mut Outlet<W>,
) -> Result<(), StreamFault>
    requires sound { IsSound sound.now }
    requires ready { outlet_failures outlet.old < 2 ^ 64 - 1 }
    ensures ok { OnOk result (Puts W.contents outlet.old outlet.new (pad_of taps.now sound.now)) }
    ensures err { OnErr result (PutsPrefix W.contents outlet.old outlet.new (pad_of taps.now sound.now)) }
    ensures fault { IfErr result IsWritingFault }
    ensures failures { outlet_failures outlet.new ≡ outlet_failures outlet.old + failed_writes result }
{
    out.clear();
    spec_of(taps, sound).push_pad(out, total_frames(taps, sound))?;
    put(outlet, out.as_slice())
}
