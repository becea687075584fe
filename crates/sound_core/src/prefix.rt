//! The prefix of a file, up to its sound, read by itself.

ghost use Rattle.std.specs.Prelude.{◌≡◌, ◌+◌, ◌≤◌, ◌^◌, IfErr, IfOk};
ghost use Rattle.chunk_core.specs.Inlets.{inlet_failures, inlet_reader, inlet_reads};
ghost use Rattle.form_core.specs.Steps.{map_err};
ghost use Rattle.sound_core.specs.Faults.{failed_reads};
ghost use Rattle.sound_core.specs.Files.{IsHeaderFault, LeadsToSound};
ghost use Rattle.sound_core.specs.Naming.{IfRefusedAs, IsExact, NamesFault, plain};
ghost use Rattle.sound_core.specs.Readers.{RunsOut};
ghost use Rattle.sound_core.specs.Reads.{Reads};

use crate::fault::{StreamFault, Unread};
use crate::header::read_header;
use crate::naming::unread;
use crate::reader::{SoundReader, can_count, new_block};
use chunk_core::Inlet;
use dsd_bits::Sound;
use std::alloc::Global;
use std::io::Read;

/// The first bytes of a file, and the sound that they describe.
#[derive(Drop)]
pub struct Prefix {
    /// What the sound is, and where it is.
    pub sound: Sound,
    /// All that was read: the bytes before the sound, and perhaps some of it, and of what follows it.
    pub bytes: Vec<u8>,
}

/// Reads a file until its first bytes describe its sound, and returns both. The inlet has the rest left, so a file that
/// can be read only once can be looked at before it is read. Of a file that is refused as much more is read as tells
/// its first fault, at most to its end or that of its DSDIFF form. Nothing of its sound is held.
///
/// Refusals: `Refused` with the fault that [`form_core::read_any`] answers, where no file that begins so holds a
/// recording; `Stream` with `ReadFailed`, `TurnLimit` after `2^40` reads, or at once if the inlet had counted `2^63`
/// reads or bytes, or as many failures as it can, or `Memory`.
pub fn read_prefix<R: Read>(alloc: Global, inlet: &mut Inlet<R>) -> Result<Prefix, Unread>
    // The bytes were read, and describe the sound.
    ensures read { IfOk result (λ f. Reads R.remaining inlet.old inlet.new f.bytes.items) }
    ensures states { IfOk result (λ f. LeadsToSound f.bytes.items f.sound) }
    // The first fault of what was read, and of the reader's file.
    ensures named { IfErr result (λ u. IfRefusedAs u (NamesFault R.remaining inlet.old inlet.new)) }
    ensures exact { IfErr result IsExact }
    ensures fault { IfErr result (λ u. IsHeaderFault (R.remaining (inlet_reader inlet.old)) (plain u)) }
    ensures read_failed { inlet_failures inlet.new ≡ inlet_failures inlet.old + failed_reads (map_err plain result) }
    // Whatever is returned, there were at most 2^40 reads.
    ensures reads { inlet_reads inlet.new ≤ inlet_reads inlet.old + 2 ^ 40 }
    ensures turn_limit { IfErr result (λ u. plain u ≡ StreamFault.TurnLimit → RunsOut inlet.old inlet.new) }
{
    if !can_count(inlet) {
        return Err(Unread::Stream(StreamFault::TurnLimit));
    }
    let Ok(mut block) = new_block(alloc) else {
        return Err(Unread::Stream(StreamFault::Memory));
    };
    let mut ahead = Vec::new(alloc);
    let mut reader = SoundReader::new(inlet, &mut block, &mut ahead);
    match read_header(alloc, &mut reader) {
        Ok(sound) => Ok(Prefix {
            sound,
            bytes: reader.take_ahead(alloc),
        }),
        Err(fault) => Err(unread(alloc, fault, &mut reader)),
    }
}
