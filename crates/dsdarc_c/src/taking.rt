//! Takes bytes of the file: before its sound, in it and after it.

ghost use Rattle.std.specs.Prelude.{◌≡◌, ◌≢◌, ◌+◌, ◌<◌, ◌≤◌, ◌^◌, ◌++◌, [], Err, None, Ok, Some, List, ℕ, IfErr, IfOk, IfSome, length};
ghost use Rattle.dsdarc_c.specs.Pushing.{AreWholeFrames, IsAfterSound, IsHeaderSoFar, IsPushedHeader, IsPushing};
ghost use Rattle.dsdarc_c.specs.Taking.{RefusesAfter, RefusesHeader, RefusesPush, Takes, TakesAfter, TakesHeader};
ghost use Rattle.dsdarc_c.specs.Whole.{AreAllFrames, BeginsWith, HasAt, KeepsForm, PlaysPushedFile, WaitsWhole, waiting};

use crate::ending::form_bytes_wanted;
use crate::fault::PlayFault;
use crate::headers::{Stated, stated_by};
use crate::pushing::{Pushing, Stage};
use crate::seeking::seek_in;
use crate::within_sound::{Rest, push_sound};
use dsd_bits::Sound;
use std::alloc::Global;
use std::mem;

/// How many bytes are taken at once.
pub(crate) const BLOCK: usize = 65_536;

/// So many bytes, and no more of a file; half as many of its sound.
pub(crate) const MOST: usize = 1 << 62;

/// Half of them.
pub(crate) const MOST_HALF: usize = 1 << 61;

/// So many bytes, and no more, are held of what precedes the sound, and of what follows it.
pub(crate) const MOST_HELD: usize = 1 << 28;

/// Takes bytes of the file, from the place on where the next one is, and returns how many: of the first 65,536 all
/// of them, but at most those up to where the sound starts or ends. None are taken while frames wait to be pulled.
///
/// Refusals: `AfterFault` after another refusal, `TooLong` after `2^62` bytes, then what the bytes before the sound
/// say: `FileRefused`, `RateNotDivided`, `TooMuchHeld`, `TooLong`; after the sound `TooMuchHeld`. `Memory` may come in
/// place of any answer but `AfterFault`.
pub(crate) fn push(alloc: Global, p: &mut Pushing, bytes: &[u8]) -> Result<usize, PlayFault>
    requires { IsPushing p.old }
    ensures keeps { IsPushing p.new }
    ensures taken { IfOk result (λ n. n ≤ length bytes.now) }
    // It goes on with whichever file has these bytes at this place.
    ensures plays { (file : List ℕ) (start : ℕ) (pulled : List ℕ) → PlaysPushedFile file start pulled p.old
        → HasAt file p.old.place bytes.now → PlaysPushedFile file start pulled p.new }
    ensures place { IfOk result (λ n. p.new.place ≡ p.old.place + n) }
    // It says how many bytes are taken, so that pushes and pulls in turn come to the end of the file.
    ensures takes { IfOk result (Takes p.old bytes.now) }
    // Nothing is taken while frames wait.
    ensures waits { p.old.pulled < length p.old.pending.items → (p.new ≡ p.old) × (result ≡ Ok 0) }
    ensures refused { IfErr result (RefusesPush p.old bytes.now) }
    // Where no frame waits, an answer leaves a player that goes on.
    ensures goes_on { length p.old.pending.items ≤ p.old.pulled → IfOk result (λ _. p.new.stage ≢ Stage.Failed) }
    // After a refusal each push is refused for it.
    ensures failed { IfErr result (λ _. p.new.stage ≡ Stage.Failed) }
    ensures after_fault { length p.old.pending.items ≤ p.old.pulled → p.old.stage ≡ Stage.Failed
        → (p.new ≡ p.old) × (result ≡ Err PlayFault.AfterFault) }
    // A sound that is known stays known, and a refusal makes none known.
    ensures known { IfSome p.old.stated (λ sound. p.new.stated ≡ Some sound) }
    ensures as_before { IfErr result (λ _. p.new.stated ≡ p.old.stated) }
    // If whole frames waited, whole frames wait.
    ensures whole { WaitsWhole p.old → WaitsWhole p.new }
    ensures taps { p.new.taps ≡ p.old.taps }
{
    if p.pulled < p.pending.len() {
        return Ok(0);
    }
    let (piece, _) = bytes.split_at(bytes.len().min(BLOCK));
    match mem::replace(&mut p.stage, Stage::Failed) {
        Stage::Header(walked) => push_header(alloc, p, walked, piece),
        Stage::Sound(sound, paused, left) => {
            let rest = Rest {
                sound,
                paused,
                left,
            };
            push_sound(alloc, p, rest, piece)
        }
        Stage::After(sound, back) => {
            if p.place > MOST {
                return Err(PlayFault::TooLong);
            }
            push_after(p, sound, back, piece)
        }
        Stage::Failed => Err(PlayFault::AfterFault),
    }
}

// Takes bytes of the prefix of a file, up to its sound. The chunks before the place `walked` were walked already.
fn push_header(
    alloc: Global,
    p: &mut Pushing,
    walked: usize,
    piece: &[u8],
) -> Result<usize, PlayFault>
    requires pulled { p.old.pulled ≤ length p.old.pending.items }
    requires unknown { p.old.stated ≡ None }
    requires whole { AreWholeFrames p.old.taps p.old.stated (length p.old.pending.items) }
    requires waits { WaitsWhole p.old }
    requires failed { p.old.stage ≡ Stage.Failed }
    requires header { IsHeaderSoFar p.old.header.items p.old.place walked }
    requires few { length piece.now ≤ 65536 }
    ensures keeps { IsPushing p.new }
    ensures taken { IfOk result (λ n. n ≤ length piece.now) }
    ensures takes { IfOk result (TakesHeader p.old.taps p.old.header.items piece.now) }
    ensures some { 1 ≤ length piece.now → IfOk result (λ n. 1 ≤ n) }
    ensures refused { IfErr result (RefusesHeader p.old.taps (p.old.header.items ++ piece.now)) }
    ensures goes_on { IfOk result (λ _. p.new.stage ≢ Stage.Failed) }
    ensures failed { IfErr result (λ _. p.new.stage ≡ Stage.Failed) }
    ensures unknown { IfErr result (λ _. p.new.stated ≡ None) }
    ensures whole { WaitsWhole p.new }
    ensures plays { (file : List ℕ) → BeginsWith file p.old.header.items → waiting p.old ≡ []
        → HasAt file p.old.place piece.now → PlaysPushedFile file 0 [] p.new }
    ensures place { IfOk result (λ n. p.new.place ≡ p.old.place + n) }
    ensures taps { p.new.taps ≡ p.old.taps }
{
    let before = p.header.len();
    p.header.extend_from_slice(piece)?;
    match stated_by(alloc, p.header.as_slice(), walked)? {
        Stated::More(at) => {
            if p.header.len() > MOST_HELD {
                return Err(PlayFault::TooMuchHeld);
            }
            p.place += piece.len();
            p.stage = Stage::Header(at);
            Ok(piece.len())
        }
        Stated::Refused => Err(PlayFault::FileRefused),
        Stated::Found(sound) => {
            if sound.start < before {
                return Err(PlayFault::FileRefused);
            }
            if !p.taps.rate_fits(sound.rate) {
                return Err(PlayFault::RateNotDivided);
            }
            if sound.start > MOST_HELD {
                return Err(PlayFault::TooMuchHeld);
            }
            if sound.size > MOST_HALF {
                return Err(PlayFault::TooLong);
            }
            p.header.truncate(sound.start);
            start_sound(alloc, p, sound)?;
            Ok(sound.start - before)
        }
    }
}

/// Goes to the first frame of the sound that the header states. If memory runs out, the sound isn't known.
pub(crate) fn start_sound(alloc: Global, p: &mut Pushing, sound: Sound) -> Result<(), PlayFault>
    requires header { IsPushedHeader p.old.header.items sound }
    ensures keeps { IsPushing p.new }
    ensures plays { (file : List ℕ) → BeginsWith file p.old.header.items
        → IfOk result (λ _. PlaysPushedFile file 0 [] p.new) }
    ensures place { IfOk result (λ _. p.new.place ≡ sound.start) }
    ensures goes_on { IfOk result (λ _. p.new.stage ≢ Stage.Failed) }
    ensures failed { IfErr result (λ _. (p.new.stage ≡ Stage.Failed) × (waiting p.new ≡ [])) }
    ensures memory { IfErr result (λ fault. fault ≡ PlayFault.Memory) }
    ensures unknown { IfErr result (λ _. p.new.stated ≡ None) }
    ensures whole { WaitsWhole p.new }
    ensures taps { p.new.taps ≡ p.old.taps }
{
    p.stated = Some(sound);
    match seek_in(alloc, p, sound, 0) {
        Ok(_) => Ok(()),
        Err(fault) => {
            p.stated = None;
            Err(fault)
        }
    }
}

// Takes bytes after the sound: those of a DSDIFF form are kept.
fn push_after(
    p: &mut Pushing,
    sound: Sound,
    back: Vec<u8>,
    piece: &[u8],
) -> Result<usize, PlayFault>
    requires pulled { p.old.pulled ≤ length p.old.pending.items }
    requires known { p.old.stated ≡ Some sound }
    requires whole { AreWholeFrames p.old.taps p.old.stated (length p.old.pending.items) }
    requires waits { WaitsWhole p.old }
    requires failed { p.old.stage ≡ Stage.Failed }
    requires after { IsAfterSound p.old.header.items p.old.place sound back.items }
    requires low { p.old.place ≤ 2 ^ 62 }
    requires few { length piece.now ≤ 65536 }
    ensures keeps { IsPushing p.new }
    ensures takes { IfOk result (TakesAfter p.old.header.items sound back.items piece.now) }
    ensures plays { (file : List ℕ) (start : ℕ) (pulled : List ℕ) → BeginsWith file p.old.header.items
        → AreAllFrames p.old.taps sound file start (pulled ++ waiting p.old)
        → KeepsForm file p.old.header.items sound p.old.place back.items → HasAt file p.old.place piece.now
        → PlaysPushedFile file start pulled p.new }
    ensures refused { IfErr result (RefusesAfter p.old.header.items sound back.items piece.now) }
    ensures goes_on { IfOk result (λ _. p.new.stage ≢ Stage.Failed) }
    ensures failed { IfErr result (λ _. p.new.stage ≡ Stage.Failed) }
    ensures place { IfOk result (λ n. p.new.place ≡ p.old.place + n) }
    ensures stated { p.new.stated ≡ p.old.stated }
    ensures whole { WaitsWhole p.new }
    ensures taps { p.new.taps ≡ p.old.taps }
{
    let mut back = back;
    let wanted = form_bytes_wanted(&sound, p.header.as_slice(), back.len());
    let (kept, _) = piece.split_at(piece.len().min(wanted));
    if kept.len() > MOST_HELD - back.len() {
        return Err(PlayFault::TooMuchHeld);
    }
    back.extend_from_slice(kept)?;
    p.place += piece.len();
    p.stage = Stage::After(sound, back);
    Ok(piece.len())
}
