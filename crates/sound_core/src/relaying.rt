//! A file of a known outline, its sound re-interleaved.

ghost use Rattle.std.specs.Prelude.{◌≡◌, ◌↔◌, ◌⊎◌, ◌+◌, ◌%◌, ◌-◌, ◌<◌, ◌≤◌, ◌^◌, IfErr, IsErrOf, IsTrue, OnOk};
ghost use Rattle.chunk_core.specs.Inlets.{inlet_failures, inlet_reader, inlet_reads};
ghost use Rattle.chunk_core.specs.Outlets.{outlet_failures, outlet_writer};
ghost use Rattle.sound_core.specs.Faults.{failed_reads, failed_writes};
ghost use Rattle.sound_core.specs.Outlines.{AreStated, around_of};
ghost use Rattle.sound_core.specs.Readers.{CanFail, RunsOut};
ghost use Rattle.sound_core.specs.Relays.{MayBegin, IsRelayFault, IsSameAround, RelayFails, Relays, RelaysPrefix, RelaysGiven};

use crate::fault::StreamFault;
use crate::outline::Outline;
use crate::reader::can_fail;
use crate::relaying_sink::RelayingSink;
use crate::taking::read_into;
use crate::writing::put;
use chunk_core::{Inlet, Outlet};
use dsd_bits::Interleaving;
use std::alloc::Global;
use std::io::{Read, Write};

/// What is written around a sound, and how the sound between is interleaved.
#[derive(Clone, Copy)]
pub struct NewFile<'a> {
    /// How the sound between is interleaved.
    pub interleaving: Interleaving,
    /// The bytes before the sound.
    pub head: &'a [u8],
    /// The bytes after it.
    pub tail: &'a [u8],
}

/// Reads a file of this outline as [`read_into`] does, and writes the target's head, the file's sound interleaved as
/// the target says, and the target's tail.
///
/// Refusals: `FileRefused` where the file isn't a sound in the outline; `ReadFailed`, `WriteFailed`, `Memory`;
/// `TurnLimit` after `2^40` reads, or at once if the inlet had counted `2^63` reads or bytes, or inlet or outlet as
/// many failures as they can. Whatever is answered, there were no more than `2^40` reads. A prefix was written then;
/// after `WriteFailed` not all of it was.
pub fn relay<R: Read, W: Write>(
    alloc: Global,
    outline: &Outline,
    target: &NewFile<'_>,
    inlet: &mut Inlet<R>,
    outlet: &mut Outlet<W>,
) -> Result<(), StreamFault>
    requires stated { AreStated (around_of outline.now) }
    requires whole { target.now.interleaving ≡ Interleaving.Bytes → outline.now.sound.count % 8 ≡ 0 }
    // The reader's file is the outline with some sound, and what is made of it was written.
    ensures ok { OnOk result (Relays (R.remaining (inlet_reader inlet.old)) target.now (around_of outline.now)
        (W.contents (outlet_writer outlet.old)) (W.contents (outlet_writer outlet.new))) }
    // The same of the bytes that were read, as many as were counted, if the reader's bytes aren't known.
    ensures any_reader { OnOk result (RelaysGiven R.remaining inlet.old inlet.new target.now (around_of outline.now)
        (W.contents (outlet_writer outlet.old)) (W.contents (outlet_writer outlet.new))) }
    // After a refusal a prefix was written, and after `WriteFailed` not all of it.
    ensures prefix { IfErr result (RelaysPrefix (R.remaining (inlet_reader inlet.old)) target.now (around_of outline.now)
        (W.contents (outlet_writer outlet.old)) (W.contents (outlet_writer outlet.new))) }
    ensures fault { IfErr result (IsRelayFault (R.remaining (inlet_reader inlet.old)) (around_of outline.now)) }
    ensures read_failed { inlet_failures inlet.new ≡ inlet_failures inlet.old + failed_reads result }
    ensures write_failed { outlet_failures outlet.new ≡ outlet_failures outlet.old + failed_writes result }
    // Whatever is answered, there were at most 2^40 reads.
    ensures reads { inlet_reads inlet.new ≤ inlet_reads inlet.old + 2 ^ 40 }
    ensures turn_limit { IsErrOf result StreamFault.TurnLimit
        → (CanFail outlet.old → ⊥) ⊎ RunsOut inlet.old inlet.new }
{
    if !can_fail(outlet) {
        return Err(StreamFault::TurnLimit);
    }
    let mut out = Vec::new(alloc);
    let mut sink = RelayingSink {
        target: *target,
        sound: outline.sound,
        outlet,
        out: &mut out,
    };
    relay_by(alloc, outline, inlet, &mut sink)
}

// Relays a file of this outline by a sink of its sound that didn't begin.
fn relay_by<R: Read, W: Write>(
    alloc: Global,
    outline: &Outline,
    inlet: &mut Inlet<R>,
    sink: &mut RelayingSink<'_, '_, W>,
) -> Result<(), StreamFault>
    requires stated { AreStated (around_of outline.now) }
    requires sound { sink.old.sound ≡ outline.now.sound }
    requires sink_ready { MayBegin sink.old }
    ensures same { sink.new.outlet.ghost_name ≡ sink.old.outlet.ghost_name }
    ensures ok { OnOk result (Relays (R.remaining (inlet_reader inlet.old)) sink.old.target (around_of outline.now)
        (W.contents (outlet_writer sink.old.outlet.now)) (W.contents (outlet_writer sink.new.outlet.now))) }
    ensures any_reader { OnOk result (RelaysGiven R.remaining inlet.old inlet.new sink.old.target
        (around_of outline.now) (W.contents (outlet_writer sink.old.outlet.now))
        (W.contents (outlet_writer sink.new.outlet.now))) }
    ensures failures { OnOk result (outlet_failures sink.new.outlet.now ≡ outlet_failures sink.old.outlet.now) }
    ensures fault { IfErr result (RelayFails W.contents (R.remaining (inlet_reader inlet.old)) sink.old.target
        (around_of outline.now) sink.old.outlet.now sink.new.outlet.now) }
    ensures read_failed { inlet_failures inlet.new ≡ inlet_failures inlet.old + failed_reads result }
    ensures reads { inlet_reads inlet.new ≤ inlet_reads inlet.old + 2 ^ 40 }
    ensures turn_limit { IsErrOf result StreamFault.TurnLimit → RunsOut inlet.old inlet.new }
{
    let again = read_into(alloc, inlet, sink)?;
    if !is_same_around(&again, outline) {
        return Err(StreamFault::FileRefused);
    }
    put(sink.outlet, sink.target.tail)
}

// Whether two outlines have the same around the sound.
fn is_same_around(again: &Outline, outline: &Outline) -> bool
    ensures { IsTrue result ↔ IsSameAround (around_of again.now) (around_of outline.now) }
{
    again.gap == outline.gap
        && again.ends == outline.ends
        && again.head.as_slice() == outline.head.as_slice()
        && again.back.as_slice() == outline.back.as_slice()
}
