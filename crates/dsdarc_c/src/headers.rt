//! What the prefix of a file states its sound, whichever its format.

ghost use Rattle.std.specs.Prelude.{◌≡◌, ◌++◌, List, ℕ, IfOk};
ghost use Rattle.dsd_bits.specs.declared.sound.SoundAt.TheVariants as SoundAt;
ghost use Rattle.dsd_bits.specs.Sounds.{IfFound, IfMore, IfRefused};
ghost use Rattle.dsdiff_core.specs.Headers.{sound_at};
ghost use Rattle.dsdiff_core.specs.Walks.{IsWalked};
ghost use Rattle.sound_core.specs.Files.{IsRefused, LeadsToSound};
ghost use Rattle.dsdarc_c.specs.Headers.{IfWanted, sound_stated};
ghost use Rattle.dsdarc_c.specs.Pushing.{IsUnstated};

use dsd_bits::{Sound, SoundAt};
use std::alloc::{AllocError, Global};

/// What the prefix of a file states.
#[derive(Clone, Copy)]
pub(crate) enum Stated {
    /// The sound.
    Found(Sound),
    /// More bytes are needed. The chunks before this place were walked, and need not be again.
    More(usize),
    /// No file that begins so holds a recording.
    Refused,
}

/// What the prefix of a file states its sound. The chunks before the place `walked` were walked already.
pub(crate) fn stated_by(alloc: Global, header: &[u8], walked: usize) -> Result<Stated, AllocError>
    requires { IsWalked header.now walked }
    ensures found { IfOk result (λ x. IfFound (sound_stated x) (LeadsToSound header.now)) }
    ensures refused { IfOk result (λ x. IfRefused (sound_stated x) ((rest : List ℕ) → IsRefused (header.now ++ rest))) }
    ensures more { IfOk result (λ x. IfMore (sound_stated x) (IsUnstated header.now)) }
    ensures walked { IfOk result (λ x. IfWanted x (IsWalked header.now)) }
{
    match dsdiff_core::locate(alloc, header, walked)? {
        dsdiff_core::Located::Found(sound) => Ok(Stated::Found(sound)),
        dsdiff_core::Located::More(at) => Ok(Stated::More(at)),
        _ => Ok(stated_by_blocks(header, walked)),
    }
}

// The same where no file that begins so is a DSDIFF file that holds a recording.
fn stated_by_blocks(header: &[u8], walked: usize) -> Stated
    requires walked { IsWalked header.now walked }
    requires no_form { sound_at header.now ≡ SoundAt.Refused }
    ensures found { IfFound (sound_stated result) (LeadsToSound header.now) }
    ensures refused { IfRefused (sound_stated result) ((rest : List ℕ) → IsRefused (header.now ++ rest)) }
    ensures more { IfMore (sound_stated result) (IsUnstated header.now) }
    ensures walked { IfWanted result (IsWalked header.now) }
{
    match dsf_core::sound_at(header) {
        SoundAt::Found(sound) => Stated::Found(sound),
        SoundAt::More => Stated::More(walked),
        SoundAt::Refused => Stated::Refused,
    }
}
