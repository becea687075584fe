//! Takes bytes within the sound for a player without a filter: their bits are given, from whichever frame on.

ghost use Rattle.std.specs.Prelude.{◌≡◌, ◌≢◌, ◌+◌, ◌-◌, ◌<◌, ◌≤◌, ◌++◌, [], List, ℕ, IfErr, IfOk, Option, Some, length, min};
ghost use Rattle.native_core.specs.Runs.{IsGiven, total_frames};
ghost use Rattle.native_core.specs.declared.layout.Layout.{Layout};
ghost use Rattle.dsdarc_c.specs.Bare.{IsAtBareStage, IsBare, IsRunAt, IsRunOrDone, KeepsBareSound, MakesNone, bare_waiting};
ghost use Rattle.dsdarc_c.specs.BareWhole.{PlaysBareStage, PlaysBits, PlaysRun, PlaysRunOrAll};
ghost use Rattle.dsdarc_c.specs.Joined.{IsOwn};
ghost use Rattle.dsdarc_c.specs.Pushing.{IsPushedHeader};
ghost use Rattle.dsdarc_c.specs.Whole.{BeginsWith, HasAt};

use crate::bare::{Bare, BareStage};
use crate::fault::PlayFault;
use dsd_bits::Sound;
use native_core::BitRun;
use std::alloc::Global;

/// Takes bytes of the sound, and gives the bits in them.
pub(crate) fn push_run(
    alloc: Global,
    p: &mut Bare,
    sound: Sound,
    run: BitRun,
    piece: &[u8],
) -> Result<usize, PlayFault>
    requires known { p.old.stated ≡ Some sound }
    requires failed { p.old.stage ≡ BareStage.Failed }
    requires header { IsPushedHeader p.old.header.items sound }
    requires run { IsRunAt p.old.layout p.old.place sound run }
    requires few { length piece.now ≤ 65536 }
    ensures keeps { IsBare p.new }
    ensures takes { IfOk result (λ n. n ≡ min (length piece.now) (sound.start + sound.size - p.old.place)) }
    ensures plays { (file : List ℕ) (start : ℕ) (pulled : List ℕ) → PlaysRun file start pulled p.old.header.items
        p.old.place sound run → HasAt file p.old.place piece.now → PlaysBits file start pulled p.new }
    ensures place { IfOk result (λ n. p.new.place ≡ p.old.place + n) }
    ensures goes_on { IfOk result (λ _. p.new.stage ≢ BareStage.Failed) }
    ensures failed { IfErr result (λ _. (p.new.stage ≡ BareStage.Failed) × (bare_waiting p.new ≡ [])) }
    ensures memory { IfErr result (λ fault. fault ≡ PlayFault.Memory) }
    ensures own { IfOk result (λ _. IsOwn p.new.stage sound) }
    ensures stated { p.new.stated ≡ p.old.stated }
    ensures layout { p.new.layout ≡ p.old.layout }
{
    let left = sound.size - run.fed();
    let (bytes, _) = piece.split_at(piece.len().min(left));
    p.pending.clear();
    p.pulled = 0;
    match run.feed(alloc, bytes, &mut p.pending) {
        Ok(next) => {
            p.place += bytes.len();
            p.stage = next_stage(alloc, sound, next);
            Ok(bytes.len())
        }
        Err(_) => {
            p.pending.clear();
            Err(PlayFault::Memory)
        }
    }
}

// The stage after a piece of a sound: the run that goes on, or the sound's end.
fn next_stage(alloc: Global, sound: Sound, next: Option<BitRun>) -> BareStage
    ensures goes_on { result ≢ BareStage.Failed }
    ensures own { IsOwn result sound }
    ensures known { (kept : Option Sound) → kept ≡ Some sound → KeepsBareSound result kept }
    ensures none { (pending : List ℕ) → MakesNone result pending }
    ensures keeps { (layout : Layout) (header : List ℕ) (place : ℕ) → IsPushedHeader header sound
        → IsRunOrDone layout place sound next → IsAtBareStage layout header place result }
    ensures plays { (layout : Layout) (file : List ℕ) (start : ℕ) (out header : List ℕ) (place : ℕ)
        → PlaysRunOrAll layout file start out header place sound next
        → PlaysBareStage layout file start out header place result }
{
    match next {
        Some(run) => BareStage::Sound(sound, run),
        None => BareStage::After(sound, Vec::new(alloc)),
    }
}

/// Goes to a frame of the sound.
pub(crate) fn start_run(
    alloc: Global,
    p: &mut Bare,
    sound: Sound,
    frame: usize,
) -> Result<u64, PlayFault>
    requires known { p.old.stated ≡ Some sound }
    requires header { IsPushedHeader p.old.header.items sound }
    requires frame { frame ≤ total_frames p.old.layout sound }
    ensures keeps { IsBare p.new }
    ensures plays { (file : List ℕ) → BeginsWith file p.old.header.items
        → IfOk result (λ _. PlaysBits file frame [] p.new) }
    ensures goes_on { IfOk result (λ _. p.new.stage ≢ BareStage.Failed) }
    ensures failed { IfErr result (λ _. (p.new.stage ≡ BareStage.Failed) × (bare_waiting p.new ≡ [])) }
    ensures memory { IfErr result (λ fault. fault ≡ PlayFault.Memory) }
    ensures place { IfOk result (λ place. p.new.place ≡ place) }
    ensures within { IfOk result (λ place. (sound.start ≤ place) × (place ≤ sound.start + sound.size)) }
    ensures first { frame ≡ 0 → IfOk result (λ place. place ≡ sound.start) }
    ensures own { IfOk result (λ _. IsOwn p.new.stage sound) }
    ensures stated { p.new.stated ≡ p.old.stated }
    ensures layout { p.new.layout ≡ p.old.layout }
{
    p.stage = BareStage::Failed;
    p.pending.clear();
    p.pulled = 0;
    let run = BitRun::new(alloc, p.layout, sound, frame);
    let place = sound.start + run.fed();
    p.place = place;
    push_run(alloc, p, sound, run, &[])?;
    Ok(place as u64)
}
