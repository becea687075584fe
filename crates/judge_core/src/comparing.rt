//! Whether a recording is the master of a cut, as far as this can be said without its bits.

ghost use Rattle.std.specs.Prelude.{◌≡◌, ◌≢◌, IfOk, false, map, true};
ghost use Rattle.dsd_bits.specs.Contents.{mark_content};
ghost use Rattle.form_core.specs.declared.form.Form.TheVariants.{Dsdiff};
ghost use Rattle.cut_core.specs.Titles.{titles_of};
ghost use Rattle.cut_core.specs.Masters.{IsTitled};
ghost use Rattle.judge_core.specs.Checking.{FindsOuterReason};

use cut_core::{Cut, Shape, differ};
use dsd_bits::{Mark, Recording};
use form_core::Form;
use request_core::Reason;
use std::alloc::{AllocError, Global};

/// The first reason why a recording isn't the master of the cut, among those that need none of its bits: its rate or
/// number of channels, its length, in a DSDIFF file its marks. It takes the recording without its bits, and their
/// number in each channel. Err is out of memory.
pub(crate) fn outer_reason(
    alloc: Global,
    cut: &Cut,
    form: Form,
    recording: &Recording,
    count: usize,
) -> Result<Option<Reason>, AllocError>
    ensures { IfOk result (FindsOuterReason cut.now form recording.now count) }
{
    if differ(cut.first(), recording) {
        let (found, wanted) = (Shape::of(recording), Shape::of(cut.first()));
        return Ok(Some(Reason::MasterShape { found, wanted }));
    }
    let wanted = cut.length();
    if count != wanted {
        return Ok(Some(Reason::MasterLength {
            found: count,
            wanted,
        }));
    }
    if !is_titled(alloc, cut, form, recording)? {
        return Ok(Some(Reason::MasterMarks));
    }
    Ok(None)
}

// Whether the recording of a DSDIFF file has exactly the marks of the titles.
fn is_titled(
    alloc: Global,
    cut: &Cut,
    form: Form,
    recording: &Recording,
) -> Result<bool, AllocError>
    ensures yes { IfOk result (λ titled. titled ≡ true → IsTitled cut.now form recording.now) }
    ensures no { IfOk result (λ titled. titled ≡ false → (form ≡ Dsdiff) × (recording.now.marks ≢ titles_of cut.now)) }
{
    match form {
        Form::Dsdiff => {
            let titles = cut.titles(alloc)?;
            Ok(same_marks(recording.marks(), &titles))
        }
        Form::Dsf | Form::Dsf8 => Ok(true),
    }
}

// Whether two lists of marks are equal.
fn same_marks(a: &[Mark], b: &[Mark]) -> bool
    ensures yes { result ≡ true → map mark_content a.now ≡ map mark_content b.now }
    ensures no { result ≡ false → map mark_content a.now ≢ map mark_content b.now }
{
    if a.len() != b.len() {
        return false;
    }
    for i in 0..a.len() {
        if !same_mark(&a[i], &b[i]) {
            return false;
        }
    }
    true
}

// Whether two marks are equal.
fn same_mark(a: &Mark, b: &Mark) -> bool
    ensures yes { result ≡ true → mark_content a.now ≡ mark_content b.now }
    ensures no { result ≡ false → mark_content a.now ≢ mark_content b.now }
{
    a == b
}
