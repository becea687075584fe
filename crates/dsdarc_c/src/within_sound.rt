//! Takes bytes within the sound: they are played, from whichever frame on.

ghost use Rattle.std.specs.Prelude.{◌≡◌, ◌≢◌, ◌+◌, ◌-◌, ◌%◌, ◌≤◌, [], List, ℕ, IfErr, IfOk, Option, Some, length, min};
ghost use Rattle.dsd_bits.specs.Sounds.{IsSound};
ghost use Rattle.fir_core.specs.Decimator.{Decimator};
ghost use Rattle.player_core.specs.Laws.{total_frames};
ghost use Rattle.dsdarc_c.specs.Pushing.{IsAtStage, IsPausedOrDone, IsPushedHeader, IsPushing, IsRest, IsWithinSound, KeepsSound};
ghost use Rattle.dsdarc_c.specs.Whole.{BeginsWith, HasAt, PlaysPushedFile, PlaysRestOf, PlaysSoundOf, PlaysStageOf, WaitsWhole, waiting};

use crate::fault::PlayFault;
use crate::playing::play_on;
use crate::pushing::{Pushing, Stage};
use dsd_bits::{Interleaving, Sound};
use fir_core::Taps;
use player_core::{PartPlayer, PausedPart};
use std::alloc::{AllocError, Global};

/// What is left to be played of a sound.
#[derive(Drop)]
pub(crate) struct Rest {
    /// The sound.
    pub(crate) sound: Sound,
    /// The player that goes on with it.
    pub(crate) paused: PausedPart,
    /// How many of its bytes are to come.
    pub(crate) left: usize,
}

/// What is left of a sound from a frame on, before any byte of it.
pub(crate) fn rest_from(
    alloc: Global,
    taps: &Taps,
    sound: Sound,
    frame: usize,
) -> Result<Rest, AllocError>
    requires is_sound { IsSound sound }
    requires whole { sound.interleaving ≡ Interleaving.Bytes → sound.count % 8 ≡ 0 }
    requires frame { frame ≤ total_frames taps.now sound }
    ensures rest { IfOk result (λ rest. (rest.sound ≡ sound) × IsRest taps.now rest) }
    ensures plays { (file header : List ℕ) → BeginsWith file header → IfOk result (λ rest. PlaysSoundOf taps.now file
        frame [] header (sound.start + (sound.size - rest.left)) rest.sound rest.paused rest.left) }
    ensures first { frame ≡ 0 → IfOk result (λ rest. rest.left ≡ sound.size) }
{
    let total = sound.count.div_ceil(taps.factor() as usize);
    let player = PartPlayer::new(alloc, taps, sound, frame, total)?;
    let left = sound.size.saturating_sub(player.start());
    Ok(Rest {
        sound,
        paused: PausedPart::of(player),
        left,
    })
}

/// Takes bytes of the sound, and plays them.
pub(crate) fn push_sound(
    alloc: Global,
    p: &mut Pushing,
    rest: Rest,
    piece: &[u8],
) -> Result<usize, PlayFault>
    requires known { p.old.stated ≡ Some rest.sound }
    requires failed { p.old.stage ≡ Stage.Failed }
    requires sound { IsWithinSound p.old.taps p.old.header.items p.old.place rest.sound rest.paused rest.left }
    requires few { length piece.now ≤ 65536 }
    ensures keeps { IsPushing p.new }
    ensures takes { IfOk result (λ n. n ≡ min (length piece.now) rest.left) }
    ensures plays { (file : List ℕ) (start : ℕ) (pulled : List ℕ) → PlaysSoundOf p.old.taps file start pulled
        p.old.header.items p.old.place rest.sound rest.paused rest.left → HasAt file p.old.place piece.now
        → PlaysPushedFile file start pulled p.new }
    ensures place { IfOk result (λ n. p.new.place ≡ p.old.place + n) }
    ensures goes_on { IfOk result (λ _. p.new.stage ≢ Stage.Failed) }
    ensures failed { IfErr result (λ _. (p.new.stage ≡ Stage.Failed) × (waiting p.new ≡ [])) }
    ensures memory { IfErr result (λ fault. fault ≡ PlayFault.Memory) }
    ensures whole { WaitsWhole p.new }
    ensures cleared { IfErr result (λ _. length p.new.pending.items ≡ 0) }
    ensures stated { p.new.stated ≡ p.old.stated }
    ensures taps { p.new.taps ≡ p.old.taps }
{
    let Rest {
        sound,
        paused,
        left,
    } = rest;
    let (bytes, _) = piece.split_at(piece.len().min(left));
    p.pending.clear();
    p.pulled = 0;
    match play_on(&p.taps, paused, bytes, left, &mut p.pending) {
        Ok(played) => {
            p.place += bytes.len();
            p.stage = next_stage(alloc, sound, played, left - bytes.len());
            Ok(bytes.len())
        }
        Err(_) => {
            p.pending.clear();
            Err(PlayFault::Memory)
        }
    }
}

// The stage after a piece of a sound: the player that goes on with the `left` bytes that remain, or the sound's end.
fn next_stage(alloc: Global, sound: Sound, played: Option<PausedPart>, left: usize) -> Stage
    ensures keeps { (d : Decimator) (header : List ℕ) (place : ℕ) → IsPushedHeader header sound
        → IsPausedOrDone d sound played left → place + left ≡ sound.start + sound.size
        → IsAtStage d header place result }
    ensures plays { (d : Decimator) (file : List ℕ) (start : ℕ) (out header : List ℕ) (place : ℕ)
        → PlaysRestOf d file start out header place sound played left
        → PlaysStageOf d file start out header place result }
    ensures goes_on { result ≢ Stage.Failed }
    ensures known { (kept : Option Sound) → kept ≡ Some sound → KeepsSound result kept }
{
    match played {
        Some(paused) => Stage::Sound(sound, paused, left),
        None => Stage::After(sound, Vec::new(alloc)),
    }
}
