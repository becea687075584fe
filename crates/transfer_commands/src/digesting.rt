//! Digests a sound while its file is read: a hasher for each channel.

ghost use Rattle.std.specs.Prelude.{◌≡◌, ◌<◌, [], ℕ, IfOk, get_or, length};
ghost use Rattle.sha2.specs.Hashers.{Holds256};
ghost use Rattle.sha2.specs.declared.Sha256.{Sha256 as Hasher};
ghost use Rattle.transfer_commands.specs.Digesting.{AreUpdated, HoldNothing};
ghost use Rattle.transfer_commands.specs.Summing.{AreDigestsBy};

use dsd_bits::{Bits, Sound};
use interleave_core::unlace;
use sha2::{Digest, Sha256};
use sound_core::{SoundPart, SoundSink, StreamFault};
use std::alloc::{AllocError, Global};

/// What digests a sound: a hasher of the packed bits of each channel.
#[derive(Drop)]
pub(crate) struct Digester {
    hashers: Vec<Sha256>,
}

impl Digester {
    /// A digester before any sound. It takes no memory.
    pub(crate) fn new(alloc: Global) -> Digester {
        Digester {
            hashers: Vec::new(alloc),
        }
    }

    /// The SHA-256 of each channel's packed bits.
    pub(crate) fn finish(self, alloc: Global) -> Result<Vec<[u8; 32]>, AllocError>
        ensures { IfOk result (λ made. AreDigestsBy self.hashers.items made.items) }
    {
        let Digester { hashers } = self;
        let mut made = Vec::new(alloc);
        for hasher in hashers {
            made.push(hasher.finalize())?;
        }
        Ok(made)
    }
}

impl SoundSink for Digester {
    ghost use Rattle.std.specs.Prelude.{◌≡◌, ⊤};
    ghost use Rattle.sound_core.specs.declared.fault.StreamFault.TheVariants.{Memory};
    ghost use Rattle.transfer_commands.specs.Digesting.{IsDigesting};

    ghost ready = { λ k. ⊤ };

    ghost has = { λ first k s done bytes. IsDigesting k s done bytes };

    ghost refused = { λ first k s came f. f ≡ Memory };

    fn begin(&mut self, alloc: Global, sound: Sound) -> Result<(), StreamFault> {
        self.hashers = new_hashers(alloc, sound.channels)?;
        Ok(())
    }

    fn take(&mut self, alloc: Global, part: SoundPart, bytes: &[u8]) -> Result<(), StreamFault> {
        let channels = unlace(alloc, bytes, part.stretch(), part.sound.interleaving)?;
        update_all(&mut self.hashers, &channels);
        Ok(())
    }
}

// So many hashers of no bytes.
fn new_hashers(alloc: Global, number: usize) -> Result<Vec<Sha256>, AllocError>
    ensures { IfOk result (λ made. HoldNothing made.items number) }
{
    let mut made = Vec::new(alloc);
    for _channel in 0..number {
        made.push(Sha256::new())?;
    }
    Ok(made)
}

// Adds the packed bits of each channel to its hasher.
fn update_all(hashers: &mut [Sha256], channels: &[Bits])
    requires { length hashers.old ≡ length channels.now }
    ensures { AreUpdated channels.now hashers.old hashers.new }
{
    for (c, hasher) in hashers.iter_mut().enumerate() {
        hasher.update(channels[c].as_bytes());
    }
}
