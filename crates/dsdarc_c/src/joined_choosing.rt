//! Chooses how the recording is given that files make, and says what is given.

ghost use Rattle.std.specs.Prelude.{◌≡◌, ◌⊎◌, ◌<◌, ◌^◌, [], Some, List, ℕ, IfErr, IfOk, OnOk};
ghost use Rattle.dsd_bits.specs.Sounds.{IsSound};
ghost use Rattle.dsd_bits.specs.declared.sound.Sound.{Sound};
ghost use Rattle.fir_core.specs.Decimator.{Decimator};
ghost use Rattle.joined_core.specs.Givers.{HasGiven, IsGiver, Way, bits_way, frames_way, way_of};
ghost use Rattle.native_core.specs.declared.layout.Layout.{Layout};
ghost use Rattle.dsdarc_c.specs.Joined.{IsJoined, IsShape, shape_by};
ghost use Rattle.dsdarc_c.specs.JoinedCalls.{RefusesJoinedChoice, RefusesJoinedFilter, RefusesJoinedInfo, ReportsJoined};
ghost use Rattle.dsdarc_c.specs.JoinedWhole.{PlaysJoined};

use crate::bare::BareStage;
use crate::bare_choosing::{choose, divides, open_sound};
use crate::fault::PlayFault;
use crate::info::{Info, width_of};
use crate::joined::{JoinStage, Joined, Shape};
use crate::joined_taking::{MOST_BITS, give};
use dsd_bits::{BitOrder, Sound};
use fir_core::Taps;
use joined_core::{BitGiver, FrameGiver, Giver};
use native_core::Layout;
use std::alloc::Global;

/// Gives the bits of the recording in this layout.
///
/// Refusals: `Chosen` after another choice, `AfterFault` after a refusal of the file, `NotYet` before the sound is known,
/// `RateNotDivided` for DoP samples of a rate that 16 doesn't divide, `NotJoined` if the sound doesn't end on a whole
/// byte, `TooLong` if it has `2^36` bits of each channel; these change nothing. `Memory` is the last answer.
pub(crate) fn choose_joined(alloc: Global, p: &mut Joined, layout: Layout) -> Result<(), PlayFault>
    requires { IsJoined p.old }
    ensures keeps { IsJoined p.new }
    // From the first frame on it gives the recording that begins with this file.
    ensures plays { (way : Way) (before file pulled : List ℕ) → PlaysJoined way before file pulled p.old
        → OnOk result ((sound : Sound) × (p.old.bare.stage ≡ BareStage.Open sound)
        × PlaysJoined (bits_way layout sound.channels) [] file [] p.new) }
    ensures place { OnOk result (p.new.bare.place ≡ p.old.bare.place) }
    ensures refused { IfErr result (RefusesJoinedChoice p.old layout) }
    // But for memory, a refusal changes nothing.
    ensures same { IfErr result (λ fault. (fault ≡ PlayFault.Memory) ⊎ (p.new ≡ p.old)) }
{
    let sound = first_sound(p)?;
    if !divides(layout, sound.rate) {
        return Err(PlayFault::RateNotDivided);
    }
    if sound.count % 8 != 0 {
        return Err(PlayFault::NotJoined);
    }
    if sound.count >= MOST_BITS {
        return Err(PlayFault::TooLong);
    }
    let shape = Shape {
        rate: sound.rate,
        channels: sound.channels,
        unit: layout.unit() as u32,
        width: width_of(layout),
    };
    start(
        alloc,
        p,
        sound,
        shape,
        Giver::Bits(BitGiver::new(alloc, layout, sound.channels)),
    )
}

/// Gives frames of the recording by this filter.
///
/// Refusals: as those of `choose_joined`, but `RateNotDivided` if the filter doesn't divide the sound's rate.
pub(crate) fn filter_joined(alloc: Global, p: &mut Joined, taps: Taps) -> Result<(), PlayFault>
    requires { IsJoined p.old }
    ensures keeps { IsJoined p.new }
    // From the first frame on it gives the recording that begins with this file.
    ensures plays { (way : Way) (before file pulled : List ℕ) → PlaysJoined way before file pulled p.old
        → OnOk result ((sound : Sound) × (p.old.bare.stage ≡ BareStage.Open sound)
        × PlaysJoined (frames_way taps sound.rate sound.channels) [] file [] p.new) }
    ensures place { OnOk result (p.new.bare.place ≡ p.old.bare.place) }
    ensures shape { OnOk result ((sound : Sound) × (p.old.bare.stage ≡ BareStage.Open sound)
        × (p.new.shape ≡ Some (shape_by taps sound)) × (p.new.count ≡ sound.count)) }
    ensures refused { IfErr result (RefusesJoinedFilter p.old taps) }
    // But for memory, a refusal changes nothing.
    ensures same { IfErr result (λ fault. (fault ≡ PlayFault.Memory) ⊎ (p.new ≡ p.old)) }
{
    let sound = first_sound(p)?;
    if !taps.rate_fits(sound.rate) {
        return Err(PlayFault::RateNotDivided);
    }
    if sound.count % 8 != 0 {
        return Err(PlayFault::NotJoined);
    }
    if sound.count >= MOST_BITS {
        return Err(PlayFault::TooLong);
    }
    let shape = Shape {
        rate: sound.rate,
        channels: sound.channels,
        unit: taps.factor(),
        width: taps.width(),
    };
    let giver = FrameGiver::new(alloc, taps, sound.rate, sound.channels)?;
    start(alloc, p, sound, shape, Giver::Frames(giver))
}

// The sound of the first file, before the choice.
fn first_sound(p: &Joined) -> Result<Sound, PlayFault>
    requires { IsJoined p.now }
    ensures open { IfOk result (λ sound. (p.now.stage ≡ JoinStage.Choosing) × (p.now.bare.stage ≡ BareStage.Open sound)) }
    ensures is_sound { IfOk result IsSound }
    ensures refused { IfErr result (λ fault. (layout : Layout) → RefusesJoinedChoice p.now layout fault) }
    ensures refused_filter { IfErr result (λ fault. (d : Decimator) → RefusesJoinedFilter p.now d fault) }
{
    match &p.stage {
        JoinStage::Choosing => open_sound(&p.bare),
        JoinStage::Failed => Err(PlayFault::AfterFault),
        _ => Err(PlayFault::Chosen),
    }
}

// Starts the recording with the sound of its first file.
fn start(
    alloc: Global,
    p: &mut Joined,
    sound: Sound,
    shape: Shape,
    giver: Giver,
) -> Result<(), PlayFault>
    requires joined { IsJoined p.old }
    requires open { (p.old.stage ≡ JoinStage.Choosing) × (p.old.bare.stage ≡ BareStage.Open sound) }
    requires few { sound.count < 2 ^ 36 }
    requires shape { IsShape shape }
    requires ready { IsGiver giver }
    requires new { HasGiven [] [] giver }
    ensures keeps { IsJoined p.new }
    ensures plays { (way : Way) (before file pulled : List ℕ) → PlaysJoined way before file pulled p.old
        → OnOk result (PlaysJoined (way_of giver) [] file [] p.new) }
    ensures place { OnOk result (p.new.bare.place ≡ p.old.bare.place) }
    ensures shape { OnOk result ((p.new.shape ≡ Some shape) × (p.new.count ≡ sound.count)) }
    ensures memory { IfErr result (λ fault. fault ≡ PlayFault.Memory) }
{
    p.stage = JoinStage::Failed;
    p.shape = Some(shape);
    p.count = sound.count;
    p.pending.clear();
    p.pulled = 0;
    match choose(alloc, &mut p.bare, Layout::Bytes(BitOrder::MostFirst)) {
        Ok(()) => match give(alloc, p, giver) {
            Ok(()) => Ok(()),
            Err(_) => Err(PlayFault::Memory),
        },
        Err(_) => Err(PlayFault::Memory),
    }
}

/// What is given of the recording, up to the end of the last file whose sound started.
pub(crate) fn joined_info(p: &Joined) -> Result<Info, PlayFault>
    requires { IsJoined p.now }
    ensures ok { IfOk result (ReportsJoined p.now) }
    ensures err { IfErr result (RefusesJoinedInfo p.now) }
{
    match (p.shape, &p.bare.stage) {
        (Some(shape), _) => Ok(Info {
            frames: p.count.div_ceil(shape.unit as usize) as u64,
            rate_in: shape.rate,
            rate: shape.rate / shape.unit,
            channels: shape.channels as u32,
            width: shape.width,
        }),
        (None, BareStage::Open(_)) => Err(PlayFault::NoChoice),
        (None, _) => Err(PlayFault::NotYet),
    }
}
