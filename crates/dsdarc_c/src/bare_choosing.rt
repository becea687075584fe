//! Chooses how a sound is given, and goes to a frame of its bits.

ghost use Rattle.std.specs.Prelude.{◌≡◌, ◌≢◌, ◌+◌, ◌≤◌, ◌⊎◌, [], List, ℕ, IfErr, IfOk, MatchResult, OnOk, Ok, Some, length};
ghost use Rattle.dsd_bits.specs.declared.sound.Sound.{Sound};
ghost use Rattle.fir_core.specs.Decimator.{Decimator};
ghost use Rattle.native_core.specs.declared.layout.Layout.{Layout};
ghost use Rattle.dsdarc_c.specs.Bare.{IsBare, bare_waiting};
ghost use Rattle.dsdarc_c.specs.BareCalls.{GoesToBits, RefusesBareSeek, RefusesChoice, RefusesFilter};
ghost use Rattle.dsdarc_c.specs.BareWhole.{PlaysBits};
ghost use Rattle.dsdarc_c.specs.Joined.{IsNotOpen, IsOwn};
ghost use Rattle.dsdarc_c.specs.Pushing.{IsPushedHeader, IsPushing};
ghost use Rattle.dsdarc_c.specs.Whole.{BeginsWith, PlaysPushedFile};

use crate::bare::{Bare, BareStage};
use crate::bare_sound::start_run;
use crate::fault::PlayFault;
use crate::pushing::Pushing;
use crate::taking::start_sound;
use dsd_bits::Sound;
use fir_core::Taps;
use native_core::Layout;
use std::alloc::Global;

/// Gives the sound that comes next as bits in this layout.
///
/// Refusals: `NotYet` before the sound is known, `Chosen` after another choice, `AfterFault` after a refusal of the file,
/// `RateNotDivided` for DoP samples of a rate that 16 doesn't divide; these change nothing. `Memory` is the last answer.
pub(crate) fn choose(alloc: Global, p: &mut Bare, layout: Layout) -> Result<(), PlayFault>
    requires { IsBare p.old }
    ensures keeps { IsBare p.new }
    // From the first frame on it plays the same file.
    ensures plays { (file : List ℕ) (start : ℕ) (pulled : List ℕ) → PlaysBits file start pulled p.old
        → OnOk result (PlaysBits file 0 [] p.new) }
    ensures chosen { OnOk result ((p.new.layout ≡ layout) × (p.new.place ≡ p.old.place) × (p.new.stated ≡ p.old.stated)) }
    ensures goes_on { OnOk result (p.new.stage ≢ BareStage.Failed) }
    ensures own { (sound : Sound) → p.old.stage ≡ BareStage.Open sound → OnOk result (IsOwn p.new.stage sound) }
    ensures refused { IfErr result (RefusesChoice p.old layout) }
    // But for memory, a refusal changes nothing.
    ensures same { IfErr result (λ fault. (fault ≡ PlayFault.Memory) ⊎ (p.new ≡ p.old)) }
    ensures layout { (p.new.layout ≡ p.old.layout) ⊎ (p.new.layout ≡ layout) }
{
    let sound = open_sound(p)?;
    if !divides(layout, sound.rate) {
        return Err(PlayFault::RateNotDivided);
    }
    p.layout = layout;
    start_run(alloc, p, sound, 0)?;
    Ok(())
}

/// Whether a layout has whole frames in a second.
pub(crate) fn divides(layout: Layout, rate: u32) -> bool {
    match layout {
        Layout::Bytes(_) => true,
        Layout::Dop => rate % 16 == 0,
    }
}

/// The sound that comes next, before the choice.
pub(crate) fn open_sound(p: &Bare) -> Result<Sound, PlayFault>
    requires { IsBare p.now }
    ensures open { IfOk result (λ sound. p.now.stage ≡ BareStage.Open sound) }
    ensures closed { IfErr result (λ _. IsNotOpen p.now.stage) }
    ensures header { IfOk result (IsPushedHeader p.now.header.items) }
    ensures known { IfOk result (λ sound. p.now.stated ≡ Some sound) }
    ensures place { IfOk result (λ sound. p.now.place ≡ sound.start) }
    ensures begins { (file : List ℕ) (start : ℕ) (pulled : List ℕ) → PlaysBits file start pulled p.now
        → IfOk result (λ _. BeginsWith file p.now.header.items) }
    ensures refused { IfErr result (λ fault. ((layout : Layout) → RefusesChoice p.now layout fault) × ((d : Decimator) → RefusesFilter p.now d fault)) }
{
    match &p.stage {
        BareStage::Open(sound) => Ok(*sound),
        BareStage::Header(_) => Err(PlayFault::NotYet),
        BareStage::Sound(_, _) => Err(PlayFault::Chosen),
        BareStage::After(_, _) => Err(PlayFault::Chosen),
        BareStage::Failed => Err(PlayFault::AfterFault),
    }
}

/// A player with this filter of the same file, which goes on where this one is.
///
/// Refusals: as those of `choose`, and `RateNotDivided` if the filter doesn't divide the sound's rate.
pub(crate) fn with_filter(alloc: Global, p: &Bare, taps: Taps) -> Result<Pushing, PlayFault>
    requires { IsBare p.now }
    ensures keeps { IfOk result IsPushing }
    // It plays the file from the first frame on.
    ensures plays { (file : List ℕ) (start : ℕ) (pulled : List ℕ) → PlaysBits file start pulled p.now
        → IfOk result (PlaysPushedFile file 0 []) }
    ensures made { IfOk result (λ made. (made.taps ≡ taps) × (made.place ≡ p.now.place)) }
    ensures refused { IfErr result (RefusesFilter p.now taps) }
{
    let sound = open_sound(p)?;
    if !taps.rate_fits(sound.rate) {
        return Err(PlayFault::RateNotDivided);
    }
    let mut made = Pushing::new(alloc, taps);
    made.header.extend_from_slice(p.header.as_slice())?;
    start_sound(alloc, &mut made, sound)?;
    Ok(made)
}

/// Goes to a frame of the bits: the byte of the file from which on it is pushed then.
///
/// Refusals: `NotYet` before the sound is known, `NoChoice` before the choice, `AfterFault` after another refusal,
/// `PastEnd` if the sound has no such frame; these change nothing. `Memory` is the last answer.
pub(crate) fn seek_bits(alloc: Global, p: &mut Bare, frame: u64) -> Result<u64, PlayFault>
    requires { IsBare p.old }
    ensures keeps { IsBare p.new }
    // From there on it plays the same file; after a refusal, what was pulled before is still of its frames.
    ensures plays { (file : List ℕ) (start : ℕ) (pulled : List ℕ) → PlaysBits file start pulled p.old
        → MatchResult result (λ _. PlaysBits file frame [] p.new) (λ _. PlaysBits file start pulled p.new) }
    ensures place { IfOk result (λ place. p.new.place ≡ place) }
    ensures accepted { IfOk result (GoesToBits p.old frame) }
    ensures refused { IfErr result (RefusesBareSeek p.old frame) }
    ensures goes_on { IfOk result (λ _. p.new.stage ≢ BareStage.Failed) }
    // But for memory, a refusal changes nothing.
    ensures same { IfErr result (λ fault. (fault ≡ PlayFault.Memory) ⊎ (p.new ≡ p.old)) }
    ensures stated { p.new.stated ≡ p.old.stated }
    ensures layout { p.new.layout ≡ p.old.layout }
{
    let sound = given_sound(p)?;
    if frame > sound.count.div_ceil(p.layout.unit()) as u64 {
        return Err(PlayFault::PastEnd);
    }
    start_run(alloc, p, sound, frame as usize)
}

// The sound whose bits are given.
fn given_sound(p: &Bare) -> Result<Sound, PlayFault>
    requires { IsBare p.now }
    ensures header { IfOk result (IsPushedHeader p.now.header.items) }
    ensures known { IfOk result (λ sound. p.now.stated ≡ Some sound) }
    ensures begins { (file : List ℕ) (start : ℕ) (pulled : List ℕ) → PlaysBits file start pulled p.now
        → IfOk result (λ _. BeginsWith file p.now.header.items) }
    ensures refused { IfErr result (λ fault. (frame : ℕ) → RefusesBareSeek p.now frame fault) }
{
    match &p.stage {
        BareStage::Sound(sound, _) => Ok(*sound),
        BareStage::After(sound, _) => Ok(*sound),
        BareStage::Header(_) => Err(PlayFault::NotYet),
        BareStage::Open(_) => Err(PlayFault::NoChoice),
        BareStage::Failed => Err(PlayFault::AfterFault),
    }
}
