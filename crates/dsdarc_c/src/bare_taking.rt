//! Takes bytes of the file for a player without a filter.

ghost use Rattle.std.specs.Prelude.{◌≡◌, ◌≢◌, ◌+◌, ◌<◌, ◌≤◌, ◌^◌, ◌++◌, [], Err, None, Ok, Some, List, ℕ, IfErr, IfOk, IfSome, length};
ghost use Rattle.dsdarc_c.specs.Bare.{IsBare, bare_waiting};
ghost use Rattle.dsdarc_c.specs.BareCalls.{RefusesBare, RefusesBareHeader, TakesBare, TakesBareHeader};
ghost use Rattle.dsdarc_c.specs.BareWhole.{PlaysAllBits, PlaysBits};
ghost use Rattle.dsdarc_c.specs.Joined.{IfOwn, IsNotOwn, IsOwn};
ghost use Rattle.dsdarc_c.specs.Pushing.{IsAfterSound, IsHeaderSoFar};
ghost use Rattle.dsdarc_c.specs.Taking.{RefusesAfter, TakesAfter};
ghost use Rattle.dsdarc_c.specs.Whole.{BeginsWith, HasAt};

use crate::bare::{Bare, BareStage};
use crate::bare_sound::push_run;
use crate::ending::form_bytes_wanted;
use crate::fault::PlayFault;
use crate::headers::{Stated, stated_by};
use crate::taking::{BLOCK, MOST, MOST_HALF, MOST_HELD};
use dsd_bits::Sound;
use std::alloc::Global;
use std::mem;

/// Takes bytes of the file, from the place on where the next one is, and returns how many: of the first 65,536 all of
/// them, but at most those up to where the sound starts or ends. None are taken while frames wait to be pulled.
///
/// Refusals: `AfterFault` after another refusal, `NoChoice` where the sound starts and nothing was chosen; before the
/// sound `FileRefused`, `TooMuchHeld`, `TooLong`; after it `TooLong` and `TooMuchHeld`. `Memory` may come in place of any
/// answer but the first two. `NoChoice` changes nothing.
pub(crate) fn push_bare(alloc: Global, p: &mut Bare, bytes: &[u8]) -> Result<usize, PlayFault>
    requires { IsBare p.old }
    ensures keeps { IsBare p.new }
    // It goes on with whichever file has these bytes at this place.
    ensures plays { (file : List ℕ) (start : ℕ) (pulled : List ℕ) → PlaysBits file start pulled p.old
        → HasAt file p.old.place bytes.now → PlaysBits file start pulled p.new }
    ensures place { IfOk result (λ n. p.new.place ≡ p.old.place + n) }
    ensures takes { IfOk result (TakesBare p.old bytes.now) }
    // Nothing is taken while frames wait.
    ensures waits { p.old.pulled < length p.old.pending.items → (p.new ≡ p.old) × (result ≡ Ok 0) }
    ensures refused { IfErr result (RefusesBare p.old bytes.now) }
    // Before the choice nothing is taken where the sound starts.
    ensures open { (sound : Sound) → p.old.stage ≡ BareStage.Open sound → p.old.pulled ≡ length p.old.pending.items
        → (p.new ≡ p.old) × (result ≡ Err PlayFault.NoChoice) }
    // Before the choice the sound doesn't start.
    ensures before { (walked : ℕ) → p.old.stage ≡ BareStage.Header walked → IsNotOwn p.new.stage }
    // A sound that has started goes on.
    ensures own { IfOwn p.old.stage (λ sound. IfOk result (λ _. IsOwn p.new.stage sound)) }
    ensures layout { p.new.layout ≡ p.old.layout }
{
    if p.pulled < p.pending.len() {
        return Ok(0);
    }
    let (piece, _) = bytes.split_at(bytes.len().min(BLOCK));
    match mem::replace(&mut p.stage, BareStage::Failed) {
        BareStage::Header(walked) => push_bare_header(alloc, p, walked, piece),
        BareStage::Open(sound) => {
            p.stage = BareStage::Open(sound);
            Err(PlayFault::NoChoice)
        }
        BareStage::Sound(sound, run) => push_run(alloc, p, sound, run, piece),
        BareStage::After(sound, back) => {
            if p.place > MOST {
                return Err(PlayFault::TooLong);
            }
            push_bare_after(p, sound, back, piece)
        }
        BareStage::Failed => Err(PlayFault::AfterFault),
    }
}

// Takes bytes of the prefix of a file, up to its sound. The chunks before the place `walked` were walked already.
fn push_bare_header(
    alloc: Global,
    p: &mut Bare,
    walked: usize,
    piece: &[u8],
) -> Result<usize, PlayFault>
    requires pulled { p.old.pulled ≤ length p.old.pending.items }
    requires none { p.old.pending.items ≡ [] }
    requires unknown { p.old.stated ≡ None }
    requires failed { p.old.stage ≡ BareStage.Failed }
    requires header { IsHeaderSoFar p.old.header.items p.old.place walked }
    requires few { length piece.now ≤ 65536 }
    ensures keeps { IsBare p.new }
    ensures takes { IfOk result (TakesBareHeader p.old.header.items piece.now) }
    ensures refused { IfErr result (RefusesBareHeader (p.old.header.items ++ piece.now)) }
    ensures before { IsNotOwn p.new.stage }
    ensures plays { (file : List ℕ) → BeginsWith file p.old.header.items → HasAt file p.old.place piece.now
        → PlaysBits file 0 [] p.new }
    ensures place { IfOk result (λ n. p.new.place ≡ p.old.place + n) }
    ensures layout { p.new.layout ≡ p.old.layout }
{
    let before = p.header.len();
    p.header.extend_from_slice(piece)?;
    match stated_by(alloc, p.header.as_slice(), walked)? {
        Stated::More(at) => {
            if p.header.len() > MOST_HELD {
                return Err(PlayFault::TooMuchHeld);
            }
            p.place += piece.len();
            p.stage = BareStage::Header(at);
            Ok(piece.len())
        }
        Stated::Refused => Err(PlayFault::FileRefused),
        Stated::Found(sound) => {
            if sound.start < before {
                return Err(PlayFault::FileRefused);
            }
            if sound.start > MOST_HELD {
                return Err(PlayFault::TooMuchHeld);
            }
            if sound.size > MOST_HALF {
                return Err(PlayFault::TooLong);
            }
            p.header.truncate(sound.start);
            p.place = sound.start;
            p.stated = Some(sound);
            p.stage = BareStage::Open(sound);
            Ok(sound.start - before)
        }
    }
}

// Takes bytes after the sound: those of a DSDIFF form are kept.
fn push_bare_after(
    p: &mut Bare,
    sound: Sound,
    back: Vec<u8>,
    piece: &[u8],
) -> Result<usize, PlayFault>
    requires pulled { p.old.pulled ≤ length p.old.pending.items }
    requires known { p.old.stated ≡ Some sound }
    requires failed { p.old.stage ≡ BareStage.Failed }
    requires after { IsAfterSound p.old.header.items p.old.place sound back.items }
    requires low { p.old.place ≤ 2 ^ 62 }
    requires few { length piece.now ≤ 65536 }
    ensures keeps { IsBare p.new }
    ensures takes { IfOk result (TakesAfter p.old.header.items sound back.items piece.now) }
    ensures plays { (file : List ℕ) (start : ℕ) (pulled : List ℕ) → PlaysAllBits p.old.layout file start
        (pulled ++ bare_waiting p.old) p.old.header.items p.old.place sound back.items → HasAt file p.old.place piece.now → PlaysBits file start pulled p.new }
    ensures refused { IfErr result (RefusesAfter p.old.header.items sound back.items piece.now) }
    ensures own { IfOk result (λ _. IsOwn p.new.stage sound) }
    ensures place { IfOk result (λ n. p.new.place ≡ p.old.place + n) }
    ensures layout { p.new.layout ≡ p.old.layout }
{
    let mut back = back;
    let wanted = form_bytes_wanted(&sound, p.header.as_slice(), back.len());
    let (kept, _) = piece.split_at(piece.len().min(wanted));
    if kept.len() > MOST_HELD - back.len() {
        return Err(PlayFault::TooMuchHeld);
    }
    back.extend_from_slice(kept)?;
    p.place += piece.len();
    p.stage = BareStage::After(sound, back);
    Ok(piece.len())
}
