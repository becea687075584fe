//! Takes bytes of files that follow each other.

ghost use Rattle.std.specs.Prelude.{◌≡◌, ◌≢◌, ◌+◌, ◌<◌, ◌≤◌, ◌^◌, ◌++◌, [], Ok, List, ℕ, IfErr, IfOk, IsFalse, IsTrue, OnOk, length};
ghost use Rattle.dsd_bits.specs.declared.sound.Sound.{Sound};
ghost use Rattle.joined_core.specs.Givers.{HasGiven, IsGiver, Way, way_of};
ghost use Rattle.dsdarc_c.specs.Bare.{IsBare};
ghost use Rattle.dsdarc_c.specs.BareCalls.{TakesBare};
ghost use Rattle.dsdarc_c.specs.BareWhole.{PlaysBits};
ghost use Rattle.dsdarc_c.specs.Joined.{Fits, IfOwn, IsBeforeOwn, IsHeld, IsJoined, IsNotOwn, IsOfShape, IsOwn, IsTaken, Misfits, joined_waiting, own_layout};
ghost use Rattle.dsdarc_c.specs.JoinedCalls.{RefusesFile, RefusesGiving, RefusesJoined, RefusesNext, TakesJoined, WhyNot};
ghost use Rattle.dsdarc_c.specs.JoinedWhole.{PlaysJoined};
ghost use Rattle.dsdarc_c.specs.Whole.{HasAt};

use crate::bare::{Bare, BareStage};
use crate::bare_choosing::{choose, open_sound};
use crate::bare_taking::push_bare;
use crate::fault::PlayFault;
use crate::joined::{JoinStage, Joined, Shape};
use dsd_bits::{BitOrder, Sound};
use joined_core::Giver;
use native_core::Layout;
use std::alloc::Global;
use std::mem;

/// A recording has fewer bits of each channel.
pub(crate) const MOST_BITS: usize = 0x10_0000_0000;

/// Takes bytes of the file, from the place on where the next one is, and returns how many, as a player of one file does.
///
/// Refusals: `AfterFault` after another refusal, `NotJoined` after the end. Before the choice those of a player without
/// a filter. Then `NotJoined` where the sound of a file starts that has another rate or other channels, or doesn't end on
/// a whole byte, and `TooLong` where the recording would have `2^36` bits of each channel with it: these change nothing. A
/// file whose header is refused is left out: the player is as before its first byte. `Memory` may come in place of any
/// answer but `AfterFault`.
pub(crate) fn push_joined(alloc: Global, p: &mut Joined, bytes: &[u8]) -> Result<usize, PlayFault>
    requires { IsJoined p.old }
    ensures keeps { IsJoined p.new }
    // It goes on with whichever file has these bytes at this place.
    ensures plays { (way : Way) (before file pulled : List ℕ) → PlaysJoined way before file pulled p.old
        → HasAt file p.old.bare.place bytes.now → PlaysJoined way before file pulled p.new }
    ensures place { IfOk result (λ n. p.new.bare.place ≡ p.old.bare.place + n) }
    ensures takes { IfOk result (TakesJoined p.old bytes.now) }
    // Nothing is taken while frames wait.
    ensures waits { p.old.pulled < length p.old.pending.items → (p.new ≡ p.old) × (result ≡ Ok 0) }
    ensures refused { IfErr result (RefusesJoined p.old bytes.now) }
    // The sound of a file is joined only if it fits those before.
    ensures fits { IfOk result (λ _. IsBeforeOwn p.old.bare.stage → IfOwn p.new.bare.stage (IsOfShape p.old.shape)) }
    ensures shape { p.new.shape ≡ p.old.shape }
{
    if p.pulled < p.pending.len() {
        return Ok(0);
    }
    match mem::replace(&mut p.stage, JoinStage::Failed) {
        JoinStage::Choosing => {
            let pushed = push_bare(alloc, &mut p.bare, bytes);
            p.stage = JoinStage::Choosing;
            pushed
        }
        JoinStage::Giving(giver) => push_giving(alloc, p, giver, bytes),
        JoinStage::Ended(giver) => {
            p.stage = JoinStage::Ended(giver);
            Err(PlayFault::NotJoined)
        }
        JoinStage::Failed => Err(PlayFault::AfterFault),
    }
}

// The same after the choice.
fn push_giving(
    alloc: Global,
    p: &mut Joined,
    giver: Giver,
    bytes: &[u8],
) -> Result<usize, PlayFault>
    requires stage { p.old.stage ≡ JoinStage.Failed }
    requires joined { IsHeld p.old giver }
    requires none { joined_waiting p.old ≡ [] }
    ensures keeps { IsJoined p.new }
    ensures plays { (way : Way) (before file bits pulled : List ℕ) → PlaysBits file 0 bits p.old.bare
        → way_of giver ≡ way → HasGiven (before ++ bits) pulled giver
        → HasAt file p.old.bare.place bytes.now → PlaysJoined way before file pulled p.new }
    ensures place { IfOk result (λ n. p.new.bare.place ≡ p.old.bare.place + n) }
    ensures takes { IfOk result (TakesBare p.old.bare bytes.now) }
    ensures refused { IfErr result (RefusesNext p.old giver bytes.now) }
    ensures fits { IfOk result (λ _. IsBeforeOwn p.old.bare.stage → IfOwn p.new.bare.stage (IsOfShape p.old.shape)) }
    ensures shape { p.new.shape ≡ p.old.shape }
{
    match &p.bare.stage {
        BareStage::Header(_) => push_before(alloc, p, giver, bytes),
        BareStage::Open(sound) => {
            let fault = why(p, sound);
            p.stage = JoinStage::Giving(giver);
            Err(fault)
        }
        BareStage::Sound(_, _) => push_own(alloc, p, giver, bytes),
        BareStage::After(_, _) => push_own(alloc, p, giver, bytes),
        BareStage::Failed => Err(PlayFault::AfterFault),
    }
}

// The same before the sound of the file: a file that is refused there is left out.
fn push_before(
    alloc: Global,
    p: &mut Joined,
    giver: Giver,
    bytes: &[u8],
) -> Result<usize, PlayFault>
    requires stage { p.old.stage ≡ JoinStage.Failed }
    requires joined { IsHeld p.old giver }
    requires none { joined_waiting p.old ≡ [] }
    requires header { (walked : ℕ) × (p.old.bare.stage ≡ BareStage.Header walked) }
    ensures keeps { IsJoined p.new }
    ensures plays { (way : Way) (before file bits pulled : List ℕ) → PlaysBits file 0 bits p.old.bare
        → way_of giver ≡ way → HasGiven (before ++ bits) pulled giver
        → HasAt file p.old.bare.place bytes.now → PlaysJoined way before file pulled p.new }
    ensures place { IfOk result (λ n. p.new.bare.place ≡ p.old.bare.place + n) }
    ensures takes { IfOk result (TakesBare p.old.bare bytes.now) }
    ensures refused { IfErr result (RefusesFile p.old.bare giver bytes.now) }
    ensures fits { IfOk result (λ _. IfOwn p.new.bare.stage (IsOfShape p.old.shape)) }
    ensures shape { p.new.shape ≡ p.old.shape }
{
    match push_bare(alloc, &mut p.bare, bytes) {
        Ok(n) => {
            start_file(alloc, p)?;
            give(alloc, p, giver)?;
            Ok(n)
        }
        Err(fault) => {
            p.bare = Bare::new(alloc);
            p.stage = JoinStage::Giving(giver);
            Err(fault)
        }
    }
}

// The same in the sound of the file and after it.
fn push_own(alloc: Global, p: &mut Joined, giver: Giver, bytes: &[u8]) -> Result<usize, PlayFault>
    requires stage { p.old.stage ≡ JoinStage.Failed }
    requires joined { IsHeld p.old giver }
    requires none { joined_waiting p.old ≡ [] }
    requires own { (s : Sound) × IsOwn p.old.bare.stage s }
    ensures keeps { IsJoined p.new }
    ensures plays { (way : Way) (before file bits pulled : List ℕ) → PlaysBits file 0 bits p.old.bare
        → way_of giver ≡ way → HasGiven (before ++ bits) pulled giver
        → HasAt file p.old.bare.place bytes.now → PlaysJoined way before file pulled p.new }
    ensures place { IfOk result (λ n. p.new.bare.place ≡ p.old.bare.place + n) }
    ensures takes { IfOk result (TakesBare p.old.bare bytes.now) }
    ensures refused { IfErr result (RefusesFile p.old.bare giver bytes.now) }
    ensures shape { p.new.shape ≡ p.old.shape }
{
    let n = push_bare(alloc, &mut p.bare, bytes)?;
    give(alloc, p, giver)?;
    Ok(n)
}

// Why the sound that comes next can't be joined.
fn why(p: &Joined, sound: &Sound) -> PlayFault
    requires { Fits p.now.shape p.now.count sound.now → ⊥ }
    ensures { WhyNot p.now.shape p.now.count sound.now result }
{
    if is_of_shape(&p.shape, sound) {
        PlayFault::TooLong
    } else {
        PlayFault::NotJoined
    }
}

/// Whether a sound has the rate and channels of what is given, and ends on a whole byte.
pub(crate) fn is_of_shape(shape: &Option<Shape>, sound: &Sound) -> bool
    ensures yes { IsTrue result → IsOfShape shape.now sound.now }
    ensures no { IsFalse result → IsOfShape shape.now sound.now → ⊥ }
{
    match shape {
        Some(shape) => {
            sound.rate == shape.rate && sound.channels == shape.channels && sound.count % 8 == 0
        }
        None => false,
    }
}

// Starts the sound that comes next, if it can be joined.
fn start_file(alloc: Global, p: &mut Joined) -> Result<(), PlayFault>
    requires bare { IsBare p.old.bare }
    requires layout { p.old.bare.layout ≡ own_layout }
    requires before { IsNotOwn p.old.bare.stage }
    requires few { p.old.count ≤ 2 ^ 36 }
    ensures bare { IsBare p.new.bare }
    ensures layout { p.new.bare.layout ≡ own_layout }
    ensures plays { (file bits : List ℕ) → PlaysBits file 0 bits p.old.bare → OnOk result (PlaysBits file 0 bits p.new.bare) }
    ensures misfits { OnOk result (Misfits p.new.shape p.new.count p.new.bare.stage) }
    ensures fits { OnOk result (IfOwn p.new.bare.stage (IsOfShape p.old.shape)) }
    ensures same { p.new ≡ record p.old { bare = p.new.bare; count = p.new.count } }
    ensures few { p.new.count ≤ 2 ^ 36 }
    ensures place { OnOk result (p.new.bare.place ≡ p.old.bare.place) }
    ensures memory { IfErr result (λ fault. fault ≡ PlayFault.Memory) }
{
    let Ok(sound) = open_sound(&p.bare) else {
        return Ok(());
    };
    if !is_of_shape(&p.shape, &sound) || p.count + sound.count >= MOST_BITS {
        return Ok(());
    }
    match choose(alloc, &mut p.bare, Layout::Bytes(BitOrder::MostFirst)) {
        Ok(()) => {
            p.count += sound.count;
            Ok(())
        }
        Err(_) => Err(PlayFault::Memory),
    }
}

/// Gives what waits of the file's bits.
pub(crate) fn give(alloc: Global, p: &mut Joined, giver: Giver) -> Result<(), PlayFault>
    requires stage { p.old.stage ≡ JoinStage.Failed }
    requires joined { IsTaken p.old giver }
    requires none { joined_waiting p.old ≡ [] }
    ensures keeps { IsJoined p.new }
    ensures plays { (way : Way) (before file bits pulled : List ℕ) → PlaysBits file 0 bits p.old.bare
        → way_of giver ≡ way → HasGiven (before ++ bits) pulled giver → PlaysJoined way before file pulled p.new }
    ensures refused { IfErr result (RefusesGiving giver) }
    ensures goes_on { OnOk result (p.new.stage ≢ JoinStage.Failed) }
    ensures bare { (p.new.bare.stage ≡ p.old.bare.stage) × (p.new.bare.place ≡ p.old.bare.place) }
    ensures shape { (p.new.shape ≡ p.old.shape) × (p.new.count ≡ p.old.count) }
{
    let (_, waiting) = p.bare.pending.split_at(p.bare.pulled);
    if waiting.len() >= giver.room().saturating_sub(giver.fed()) {
        return Err(PlayFault::TooLong);
    }
    p.pending.clear();
    p.pulled = 0;
    match giver.take(alloc, waiting, &mut p.pending) {
        Ok(next) => {
            p.bare.pulled = p.bare.pending.len();
            p.stage = JoinStage::Giving(next);
            Ok(())
        }
        Err(_) => {
            p.pending.clear();
            Err(PlayFault::Memory)
        }
    }
}
