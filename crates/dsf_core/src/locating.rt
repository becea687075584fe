//! Where a file holds its sound, as its first bytes say.

ghost use Rattle.std.specs.Prelude.{◌≡◌, ◌≤◌, ◌++◌, List, ℕ, length, true};
ghost use Rattle.dsd_bits.specs.declared.blocks.BitOrder.{BitOrder};
ghost use Rattle.dsd_bits.specs.Contents.{Content};
ghost use Rattle.dsd_bits.specs.Sounds.{HasSound, IfFound, IfMore, IfRefused, IsSound, has_blocks};
ghost use Rattle.dsf_core.specs.Files.{IsDsf};
ghost use Rattle.dsf_core.specs.Headers.{HoldsHead, IsAccepted, IsLocated, is_cut, located, sound_at, without_fault};

use crate::fault::DsfFault;
use crate::header::read_header;
use dsd_bits::{Interleaving, Sound, SoundAt};

/// What the first bytes of a DSF 1.01 file say about its sound.
#[derive(Clone, Copy, PartialEq, Eq)]
pub enum Located {
    /// Where the sound is, and what it is. This holds for every accepted file that begins like this.
    Found(Sound),
    /// More bytes are needed: these do not hold the whole header of the data chunk. A file that ends here has this
    /// fault.
    More(DsfFault),
    /// The fault of every file that begins like this.
    Refused(DsfFault),
}

/// Where the sound of a DSF 1.01 file is, and what it is, from the first bytes of the file alone. Otherwise it is the
/// fault that [`crate::read`] returns: for a file that ends with these bytes (`NotDsf`, `HeadCut`), or for every file
/// that begins with them.
///
/// It takes no memory.
pub fn locate(prefix: &[u8]) -> Located
    ensures stated { IsLocated prefix.now result }
    // In the order of refusals.
    ensures exact { result ≡ located prefix.now }
{
    answer(prefix)
}

// The same, in the order of refusals alone.
#[tactic(auto, unfolding(crate::specs::Headers::located))]
fn answer(prefix: &[u8]) -> Located
    ensures { result ≡ located prefix.now }
{
    if prefix.len() < 4 {
        return Located::More(DsfFault::NotDsf);
    }
    match read_header(prefix) {
        Ok(header) => Located::Found(header.sound),
        Err(fault) if is_cut(fault) => Located::More(fault),
        Err(fault) => Located::Refused(fault),
    }
}

// Whether a fault says that a header is cut short.
fn is_cut(fault: DsfFault) -> bool
    ensures { result ≡ is_cut fault }
{
    match fault {
        DsfFault::HeadCut(_) => true,
        _ => false,
    }
}

/// Where the sound of a DSF 1.01 file is, as [`locate`] returns it, without the faults:
/// - `More`: the bytes do not hold the whole header of the data chunk.
/// - `Refused`: [`crate::read`] accepts no file that begins like this.
/// - `Found`: every accepted file that begins like this has this sound: its rate, its channels, its count and the order
///   of its bits. The blocks that the channels need are the `size` bytes from `start` on.
///
/// It takes no memory.
pub fn sound_at(prefix: &[u8]) -> SoundAt
    ensures found { IfFound result (λ s. (rest : List ℕ) (r : Content) (order : BitOrder)
        → IsDsf (prefix.now ++ rest) r order
        → HasSound (prefix.now ++ rest) r s × (s.interleaving ≡ Interleaving.Blocks order)) }
    ensures limits { IfFound result IsSound }
    ensures within { IfFound result (λ s. s.start ≤ length prefix.now) }
    ensures interleaving { IfFound result (λ s. has_blocks s.interleaving ≡ true) }
    ensures refused { IfRefused result ((rest : List ℕ) → IsAccepted (prefix.now ++ rest) → ⊥) }
    ensures more { IfMore result (HoldsHead prefix.now → ⊥) }
    // In the order of refusals.
    ensures exact { result ≡ sound_at prefix.now }
{
    without_fault(locate(prefix))
}

// The same without the faults.
fn without_fault(located: Located) -> SoundAt
    ensures { result ≡ without_fault located }
{
    match located {
        Located::Found(sound) => SoundAt::Found(sound),
        Located::More(_) => SoundAt::More,
        Located::Refused(_) => SoundAt::Refused,
    }
}
