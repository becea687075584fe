//! Ends a file, and says whether one that ends there holds a recording.

ghost use Rattle.std.specs.Prelude.{◌≡◌, ◌-◌, ◌≤◌, ◌⊎◌, ◌↔◌, Err, List, ℕ, true, IfErr, IfOk, MatchResult, OnOk, length};
ghost use Rattle.dsdiff_core.specs.Headers.{left_after};
ghost use Rattle.sound_core.specs.Files.{HoldsSomeRecording, IsHeaderOf};
ghost use Rattle.dsdarc_c.specs.Ending.{AcceptsEnd, EndsAfterSound, IsAtEndOf, RefusesEnd};
ghost use Rattle.dsdarc_c.specs.Pushing.{IsPushing};
ghost use Rattle.dsdarc_c.specs.Whole.{EndsFile, IsPastSound, PlaysPushedFile, still_kept};

use crate::fault::PlayFault;
use crate::pushing::{Pushing, Stage};
use dsd_bits::{Interleaving, Sound};
use std::alloc::{AllocError, Global};

/// Says that no bytes come any more, and answers whether the file that ends here holds a recording: `FileRefused` if it
/// doesn't. After a refusal, that of this call too, it is `AfterFault`. `Memory` may come in place of either answer.
pub(crate) fn end(alloc: Global, p: &mut Pushing) -> Result<(), PlayFault>
    requires { IsPushing p.old }
    ensures keeps { IsPushing p.new }
    ensures plays { (file : List ℕ) (start : ℕ) (pulled : List ℕ) → PlaysPushedFile file start pulled p.old
        → PlaysPushedFile file start pulled p.new }
    // Of a file that ends here all frames were made.
    ensures ends { (file : List ℕ) (start : ℕ) (pulled : List ℕ) → PlaysPushedFile file start pulled p.old
        → length file ≡ p.old.place → OnOk result (EndsFile file start pulled p.new) }
    // It is accepted if a file that ends here holds a recording, and refused if it holds none.
    ensures accepted { OnOk result (AcceptsEnd p.old) }
    ensures refused { IfErr result (RefusesEnd p.old) }
    ensures after_fault { p.old.stage ≡ Stage.Failed → result ≡ Err PlayFault.AfterFault }
    // An answer changes nothing; a refusal leaves what waits, and is the last.
    ensures same { MatchResult result (λ _. p.new ≡ p.old) (λ _. p.new ≡ record p.old { stage = Stage.Failed }) }
    ensures taps { p.new.taps ≡ p.old.taps }
{
    match is_closed(alloc, p) {
        Ok(true) => Ok(()),
        Ok(false) => fail(p, PlayFault::FileRefused),
        Err(fault) => fail(p, fault),
    }
}

// Whether a file that ends here holds a recording.
fn is_closed(alloc: Global, p: &Pushing) -> Result<bool, PlayFault>
    requires { IsPushing p.now }
    ensures behind { IfOk result (λ closed. closed ≡ true → IsPastSound p.now.stage) }
    ensures closed { IfOk result (λ closed. (file : List ℕ) → IsAtEndOf file p.now
        → (closed ≡ true) ↔ HoldsSomeRecording file) }
    ensures refused { IfErr result (λ fault. ((fault ≡ PlayFault.AfterFault) × (p.now.stage ≡ Stage.Failed))
        ⊎ (fault ≡ PlayFault.Memory)) }
    ensures after_fault { p.now.stage ≡ Stage.Failed → result ≡ Err PlayFault.AfterFault }
{
    match &p.stage {
        Stage::After(sound, back) => {
            let (header, total) = (p.header.as_slice(), p.place as u64);
            Ok(closes(alloc, sound, header, back.as_slice(), total)?)
        }
        Stage::Header(_) => Ok(false),
        Stage::Sound(_, _, _) => Ok(false),
        Stage::Failed => Err(PlayFault::AfterFault),
    }
}

// The player is of no further use.
fn fail(p: &mut Pushing, fault: PlayFault) -> Result<(), PlayFault>
    requires { IsPushing p.old }
    ensures keeps { IsPushing p.new }
    ensures plays { (file : List ℕ) (start : ℕ) (pulled : List ℕ) → PlaysPushedFile file start pulled p.old
        → PlaysPushedFile file start pulled p.new }
    ensures refused { result ≡ Err fault }
    ensures same { p.new ≡ record p.old { stage = Stage.Failed } }
    ensures taps { p.new.taps ≡ p.old.taps }
{
    p.stage = Stage::Failed;
    Err(fault)
}

/// Whether a file of `total` bytes holds a recording that begins with `header`, which ends where its sound starts, and
/// whose DSDIFF form has `back` after the sound.
pub(crate) fn closes(
    alloc: Global,
    sound: &Sound,
    header: &[u8],
    back: &[u8],
    total: u64,
) -> Result<bool, AllocError>
    requires ends { IsHeaderOf header.now sound.now }
    requires not_cut { length header.now ≤ total }
    // A file with these bytes around its sound is closed if it holds a recording.
    ensures { IfOk result (λ closed. (file : List ℕ) → EndsAfterSound file header.now sound.now back.now total
        → (closed ≡ true) ↔ HoldsSomeRecording file) }
{
    if sound.interleaving.has_blocks() {
        return Ok(dsf_core::closes(header, total));
    }
    dsdiff_core::closes(alloc, header, back)
}

/// How many bytes after a sound are still kept, where so many are: those of a DSDIFF form, and none of a DSF file.
pub(crate) fn form_bytes_wanted(sound: &Sound, header: &[u8], kept: usize) -> usize
    requires { IsHeaderOf header.now sound.now }
    ensures value { result ≡ still_kept header.now sound.now kept }
    ensures form { sound.now.interleaving ≡ Interleaving.Bytes → result ≡ left_after header.now sound.now.size - kept }
{
    if sound.interleaving.has_blocks() {
        return 0;
    }
    let wanted = dsdiff_core::bytes_after_sound(header) as usize;
    wanted.saturating_sub(kept)
}
