//! The frames of a sound between two pieces of it.

ghost use Rattle.std.specs.Prelude.{◌≡◌, ◌+◌, ◌≤◌, List, ℕ, IfOk, length};
ghost use Rattle.dsd_bits.specs.declared.sound.Sound.{Sound};
ghost use Rattle.player_core.specs.PartView.{part_rest};
ghost use Rattle.player_core.specs.declared.parts.PartPlayer.{PartPlayer};
ghost use Rattle.dsdarc_c.specs.Playing.{HasPlayed, PlaysOn};

use fir_core::Taps;
use player_core::PausedPart;
use std::alloc::AllocError;

/// Plays the next bytes of a sound of which so many are left, and appends the bytes of frames that are due; after the
/// last byte those of all others too, and then no player is left.
pub(crate) fn play_on(
    taps: &Taps,
    paused: PausedPart,
    bytes: &[u8],
    left: usize,
    pending: &mut Vec<u8>,
) -> Result<Option<PausedPart>, AllocError>
    requires few { length bytes.now ≤ left }
    requires left { (s : Sound) × (start : ℕ) × (before : List ℕ) × (given : List ℕ) × (p : PartPlayer)
        × HasPlayed taps.now s start before given p paused × (length before + left ≡ (part_rest p).size) }
    ensures { IfOk result (λ played. (s : Sound) (start : ℕ) (before given : List ℕ) (p : PartPlayer)
        → HasPlayed taps.now s start before given p paused → length before + left ≡ (part_rest p).size
        → PlaysOn taps.now s start before bytes.now given pending.old.items pending.new.items p played) }
{
    let mut player = paused.resume(taps);
    player.feed(bytes, pending)?;
    if bytes.len() == left {
        player.finish(pending)?;
        return Ok(None);
    }
    Ok(Some(PausedPart::of(player)))
}
