//! Ends a file of which the bits are pulled.

ghost use Rattle.std.specs.Prelude.{◌≡◌, ◌↔◌, Err, List, ℕ, true, IfErr, IfOk, OnOk, length};
ghost use Rattle.sound_core.specs.Files.{HoldsSomeRecording};
ghost use Rattle.dsdarc_c.specs.Bare.{IsBare};
ghost use Rattle.dsdarc_c.specs.BareCalls.{AcceptsBareEnd, IsAtBareEnd, RefusesBareEnd};
ghost use Rattle.dsdarc_c.specs.BareWhole.{EndsBits, PlaysBits};

use crate::bare::{Bare, BareStage};
use crate::ending::closes;
use crate::fault::PlayFault;
use std::alloc::Global;

/// Says that no bytes come any more, and answers whether the file that ends here holds a recording: `FileRefused` if it
/// doesn't. After a refusal it is `AfterFault`, and where the sound starts, before the choice, `NoChoice`, which changes
/// nothing. `Memory` may come in place of the first two answers.
pub(crate) fn end_bits(alloc: Global, p: &mut Bare) -> Result<(), PlayFault>
    requires { IsBare p.old }
    ensures keeps { IsBare p.new }
    ensures plays { (file : List ℕ) (start : ℕ) (pulled : List ℕ) → PlaysBits file start pulled p.old
        → PlaysBits file start pulled p.new }
    // Of a file that ends here all frames were made.
    ensures ends { (file : List ℕ) (start : ℕ) (pulled : List ℕ) → PlaysBits file start pulled p.old
        → length file ≡ p.old.place → OnOk result (EndsBits file start pulled p.new) }
    ensures accepted { OnOk result (AcceptsBareEnd p.old) }
    ensures refused { IfErr result (RefusesBareEnd p.old) }
    ensures same { OnOk result (p.new ≡ p.old) }
    ensures stated { p.new.stated ≡ p.old.stated }
    ensures layout { p.new.layout ≡ p.old.layout }
{
    match is_closed(alloc, p) {
        Ok(true) => Ok(()),
        Ok(false) => fail(p, PlayFault::FileRefused),
        Err(PlayFault::NoChoice) => Err(PlayFault::NoChoice),
        Err(fault) => fail(p, fault),
    }
}

// Whether a file that ends here holds a recording.
fn is_closed(alloc: Global, p: &Bare) -> Result<bool, PlayFault>
    requires { IsBare p.now }
    ensures closed { IfOk result (λ closed. (file : List ℕ) → IsAtBareEnd file p.now
        → (closed ≡ true) ↔ HoldsSomeRecording file) }
    ensures ends { IfOk result (λ closed. closed ≡ true → (file : List ℕ) (start : ℕ) (pulled : List ℕ)
        → PlaysBits file start pulled p.now → length file ≡ p.now.place → EndsBits file start pulled p.now) }
    ensures refused { IfErr result (RefusesBareEnd p.now) }
{
    match &p.stage {
        BareStage::After(sound, back) => {
            let (header, total) = (p.header.as_slice(), p.place as u64);
            Ok(closes(alloc, sound, header, back.as_slice(), total)?)
        }
        BareStage::Header(_) => Ok(false),
        BareStage::Open(_) => Err(PlayFault::NoChoice),
        BareStage::Sound(_, _) => Ok(false),
        BareStage::Failed => Err(PlayFault::AfterFault),
    }
}

// The player is of no further use.
fn fail(p: &mut Bare, fault: PlayFault) -> Result<(), PlayFault>
    requires { IsBare p.old }
    ensures keeps { IsBare p.new }
    ensures plays { (file : List ℕ) (start : ℕ) (pulled : List ℕ) → PlaysBits file start pulled p.old
        → PlaysBits file start pulled p.new }
    ensures refused { result ≡ Err fault }
    ensures stated { p.new.stated ≡ p.old.stated }
    ensures layout { p.new.layout ≡ p.old.layout }
{
    p.stage = BareStage::Failed;
    Err(fault)
}
