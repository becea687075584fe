//! Ends a file of several that follow each other, and the recording that they make.

ghost use Rattle.std.specs.Prelude.{◌≡◌, ◌++◌, [], List, ℕ, IfErr, IsTrue, OnOk, length};
ghost use Rattle.joined_core.specs.Givers.{HasGiven, IsGiver, Way, way_of};
ghost use Rattle.dsdarc_c.specs.Bare.{IsBare, bare_waiting};
ghost use Rattle.dsdarc_c.specs.BareCalls.{RefusesBareEnd};
ghost use Rattle.dsdarc_c.specs.BareWhole.{IsPrefixOfBits, PlaysBits};
ghost use Rattle.dsdarc_c.specs.Joined.{IsBeforeOwn, IsGoingOn, IsJoined, joined_waiting, own_layout};
ghost use Rattle.dsdarc_c.specs.JoinedCalls.{AcceptsEndAt, AcceptsNextAt, AcceptsOwn, RefusesEndAt, RefusesNextAt};
ghost use Rattle.dsdarc_c.specs.JoinedWhole.{AddsOwn, EndsRecording, PlaysJoined};

use crate::bare::{Bare, BareStage};
use crate::bare_ending::end_bits;
use crate::fault::PlayFault;
use crate::joined::{JoinStage, Joined};
use joined_core::Giver;
use std::alloc::Global;
use std::mem;

/// Says that the file ends here and another one follows: the bytes of that are pushed then.
///
/// Refusals: `AfterFault` after another refusal, `NoChoice` before the choice, `NotJoined` after the end; these change
/// nothing. `FileRefused` if the file holds no recording. `Memory` may come in place of the last answer and of none.
pub(crate) fn next_file(alloc: Global, p: &mut Joined) -> Result<(), PlayFault>
    requires { IsJoined p.old }
    ensures keeps { IsJoined p.new }
    // Its sound, if that has started, is joined to those before, and whichever file may follow.
    ensures plays { (way : Way) (before file pulled : List ℕ) → PlaysJoined way before file pulled p.old
        → length file ≡ p.old.bare.place → OnOk result ((own : List ℕ) × AddsOwn p.old.bare.stage file own
        × ((next : List ℕ) → PlaysJoined way (before ++ own) next pulled p.new)) }
    ensures place { OnOk result (p.new.bare.place ≡ 0) }
    ensures waits { joined_waiting p.new ≡ joined_waiting p.old }
    ensures accepted { OnOk result (AcceptsNextAt p.old.stage p.old.bare) }
    ensures refused { IfErr result (RefusesNextAt p.old.stage p.old.bare) }
    ensures shape { p.new.shape ≡ p.old.shape }
{
    match mem::replace(&mut p.stage, JoinStage::Failed) {
        JoinStage::Choosing => {
            p.stage = JoinStage::Choosing;
            Err(PlayFault::NoChoice)
        }
        JoinStage::Giving(giver) => {
            judge(alloc, &mut p.bare)?;
            p.bare = Bare::new(alloc);
            p.stage = JoinStage::Giving(giver);
            Ok(())
        }
        JoinStage::Ended(giver) => {
            p.stage = JoinStage::Ended(giver);
            Err(PlayFault::NotJoined)
        }
        JoinStage::Failed => Err(PlayFault::AfterFault),
    }
}

// Whether a file that ends here holds a recording; of one whose sound has not started that isn't asked.
fn judge(alloc: Global, bare: &mut Bare) -> Result<(), PlayFault>
    requires { IsBare bare.old }
    ensures keeps { IsBare bare.new }
    ensures layout { bare.new.layout ≡ bare.old.layout }
    ensures own { (file bits : List ℕ) → PlaysBits file 0 bits bare.old → length file ≡ bare.old.place
        → bare_waiting bare.old ≡ [] → bare.old.layout ≡ own_layout → OnOk result (AddsOwn bare.old.stage file bits) }
    ensures accepted { OnOk result (AcceptsOwn bare.old) }
    ensures refused { IfErr result (RefusesBareEnd bare.old) }
{
    let before = is_before_own(&bare.stage);
    if before {
        return Ok(());
    }
    end_bits(alloc, bare)
}

// Whether the sound of the file has not started.
fn is_before_own(stage: &BareStage) -> bool
    ensures yes { IsTrue result → IsBeforeOwn stage.now }
{
    match stage {
        BareStage::Header(_) => true,
        BareStage::Open(_) => true,
        BareStage::Sound(_, _) => false,
        BareStage::After(_, _) => false,
        BareStage::Failed => false,
    }
}

/// Says that no bytes come any more: the last frames can be pulled then.
///
/// Refusals: `AfterFault` after another refusal; `FileRefused` if the file holds no recording; `NoChoice` before the
/// choice. `Memory` may come in place of any answer but the first.
pub(crate) fn end_joined(alloc: Global, p: &mut Joined) -> Result<(), PlayFault>
    requires { IsJoined p.old }
    ensures keeps { IsJoined p.new }
    // Of the recording that the files make all frames were made; a file whose sound has not started adds nothing to it.
    ensures ends { (way : Way) (before file pulled : List ℕ) → PlaysJoined way before file pulled p.old
        → length file ≡ p.old.bare.place → IsGoingOn p.old.stage → OnOk result ((own : List ℕ)
        × AddsOwn p.old.bare.stage file own × EndsRecording way (before ++ own) pulled p.new) }
    ensures plays { (way : Way) (before file pulled : List ℕ) → PlaysJoined way before file pulled p.old
        → PlaysJoined way before file pulled p.new }
    ensures accepted { OnOk result (AcceptsEndAt p.old.stage p.old.bare) }
    ensures refused { IfErr result (RefusesEndAt p.old.stage p.old.bare) }
    ensures shape { p.new.shape ≡ p.old.shape }
{
    match mem::replace(&mut p.stage, JoinStage::Failed) {
        JoinStage::Choosing => {
            p.stage = JoinStage::Choosing;
            match end_bits(alloc, &mut p.bare) {
                Ok(()) => Err(PlayFault::NoChoice),
                Err(fault) => Err(fault),
            }
        }
        JoinStage::Giving(giver) => {
            judge(alloc, &mut p.bare)?;
            give_last(alloc, p, giver)
        }
        JoinStage::Ended(giver) => {
            p.stage = JoinStage::Ended(giver);
            Ok(())
        }
        JoinStage::Failed => Err(PlayFault::AfterFault),
    }
}

// Gives the frames that were not due.
fn give_last(alloc: Global, p: &mut Joined, giver: Giver) -> Result<(), PlayFault>
    requires stage { p.old.stage ≡ JoinStage.Failed }
    requires ready { IsGiver giver }
    requires joined { IsJoined p.old }
    ensures keeps { IsJoined p.new }
    ensures ends { (way : Way) (bytes pulled : List ℕ) → way_of giver ≡ way
        → HasGiven bytes (pulled ++ joined_waiting p.old) giver → OnOk result (EndsRecording way bytes pulled p.new) }
    ensures plays { (way : Way) (before file bits pulled : List ℕ) → IsPrefixOfBits own_layout file 0 bits
        → way_of giver ≡ way → HasGiven (before ++ bits) (pulled ++ joined_waiting p.old) giver
        → PlaysJoined way before file pulled p.new }
    ensures memory { IfErr result (λ fault. fault ≡ PlayFault.Memory) }
    ensures shape { p.new.shape ≡ p.old.shape }
{
    let mut last = Vec::new(alloc);
    giver.finish(alloc, &mut last)?;
    p.pending.extend_from_slice(last.as_slice())?;
    p.stage = JoinStage::Ended(giver);
    Ok(())
}
