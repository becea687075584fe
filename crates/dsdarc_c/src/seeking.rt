//! Goes to a frame: from which byte on the file is pushed then.

ghost use Rattle.std.specs.Prelude.{◌≡◌, ◌≢◌, ◌+◌, ◌≤◌, ◌⊎◌, [], List, ℕ, IfErr, IfOk, MatchResult, Some, length};
ghost use Rattle.player_core.specs.Laws.{total_frames};
ghost use Rattle.dsdarc_c.specs.Pushing.{IsPushedHeader, IsPushing};
ghost use Rattle.dsdarc_c.specs.Seeking.{GoesTo, RefusesSeek};
ghost use Rattle.dsdarc_c.specs.Whole.{BeginsWith, PlaysPushedFile, WaitsWhole, waiting};

use crate::fault::PlayFault;
use crate::pushing::{Pushing, Stage};
use crate::within_sound::{push_sound, rest_from};
use dsd_bits::Sound;
use std::alloc::Global;

/// Goes to a frame: the byte of the file from which on it is pushed then.
///
/// Refusals: `NotYet` before the sound is known, `AfterFault` after another refusal, `PastEnd` if the sound has no
/// such frame; these change nothing. `Memory` is the last answer.
pub(crate) fn seek(alloc: Global, p: &mut Pushing, frame: u64) -> Result<u64, PlayFault>
    requires { IsPushing p.old }
    ensures keeps { IsPushing p.new }
    // From there on it plays the same file; after a refusal, what was pulled before is still of its frames.
    ensures plays { (file : List ℕ) (start : ℕ) (pulled : List ℕ) → PlaysPushedFile file start pulled p.old
        → MatchResult result (λ _. PlaysPushedFile file frame [] p.new) (λ _. PlaysPushedFile file start pulled p.new) }
    ensures place { IfOk result (λ place. p.new.place ≡ place) }
    ensures accepted { IfOk result (GoesTo p.old frame) }
    ensures refused { IfErr result (RefusesSeek p.old frame) }
    // An answer leaves a player that goes on.
    ensures goes_on { IfOk result (λ _. p.new.stage ≢ Stage.Failed) }
    // But for memory, a refusal changes nothing.
    ensures same { IfErr result (λ fault. (fault ≡ PlayFault.Memory) ⊎ (p.new ≡ p.old)) }
    // Whole frames wait then, or nothing; after a refusal if whole frames waited before it.
    ensures anew { IfOk result (λ _. WaitsWhole p.new) }
    ensures whole { WaitsWhole p.old → WaitsWhole p.new }
    // What is known of the sound stays.
    ensures stated { p.new.stated ≡ p.old.stated }
    ensures taps { p.new.taps ≡ p.old.taps }
{
    let sound = sound_with_head(p)?;
    if frame > sound.count.div_ceil(p.taps.factor() as usize) as u64 {
        return Err(PlayFault::PastEnd);
    }
    seek_in(alloc, p, sound, frame as usize)
}

// The sound that is after the prefix of a file.
fn sound_with_head(p: &Pushing) -> Result<Sound, PlayFault>
    requires { IsPushing p.now }
    ensures header { IfOk result (IsPushedHeader p.now.header.items) }
    ensures known { IfOk result (λ sound. p.now.stated ≡ Some sound) }
    ensures begins { (file : List ℕ) (start : ℕ) (pulled : List ℕ) → PlaysPushedFile file start pulled p.now
        → IfOk result (λ _. BeginsWith file p.now.header.items) }
    ensures refused { IfErr result (λ fault. (frame : ℕ) → RefusesSeek p.now frame fault) }
{
    match &p.stage {
        Stage::Sound(sound, _, _) => Ok(*sound),
        Stage::After(sound, _) => Ok(*sound),
        Stage::Header(_) => Err(PlayFault::NotYet),
        Stage::Failed => Err(PlayFault::AfterFault),
    }
}

/// Goes to a frame of the sound.
pub(crate) fn seek_in(
    alloc: Global,
    p: &mut Pushing,
    sound: Sound,
    frame: usize,
) -> Result<u64, PlayFault>
    requires known { p.old.stated ≡ Some sound }
    requires header { IsPushedHeader p.old.header.items sound }
    requires frame { frame ≤ total_frames p.old.taps sound }
    ensures keeps { IsPushing p.new }
    ensures plays { (file : List ℕ) → BeginsWith file p.old.header.items
        → IfOk result (λ _. PlaysPushedFile file frame [] p.new) }
    ensures goes_on { IfOk result (λ _. p.new.stage ≢ Stage.Failed) }
    ensures failed { IfErr result (λ _. (p.new.stage ≡ Stage.Failed) × (waiting p.new ≡ [])) }
    ensures memory { IfErr result (λ fault. fault ≡ PlayFault.Memory) }
    ensures place { IfOk result (λ place. p.new.place ≡ place) }
    ensures within { IfOk result (λ place. (sound.start ≤ place) × (place ≤ sound.start + sound.size)) }
    ensures first { frame ≡ 0 → IfOk result (λ place. place ≡ sound.start) }
    ensures whole { WaitsWhole p.new }
    ensures cleared { IfErr result (λ _. length p.new.pending.items ≡ 0) }
    ensures stated { p.new.stated ≡ p.old.stated }
    ensures taps { p.new.taps ≡ p.old.taps }
{
    p.stage = Stage::Failed;
    p.pending.clear();
    p.pulled = 0;
    p.taps.keep_tables(alloc)?;
    let rest = rest_from(alloc, &p.taps, sound, frame)?;
    let place = sound.start + (sound.size - rest.left);
    p.place = place;
    push_sound(alloc, p, rest, &[])?;
    Ok(place as u64)
}
