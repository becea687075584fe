//! A recording as a file of a form.

ghost use Rattle.std.specs.Prelude.{◌≡◌, Err, IfErr, IfOk, None, Some};
ghost use Rattle.form_core.specs.Forms as forms;
ghost use Rattle.form_core.specs.Forms.{text_in};
ghost use Rattle.form_core.specs.Writing.{HoldsSound, IsWriteFault};

use crate::form::Form;
use dsd_bits::{BitOrder, Description, Recording};
use dsdiff_core::WriteFault;
use std::alloc::Global;

/// The file of the form that holds the recording.
///
/// Refusals, in this order: `NotWholeBytes` if the form is DSDIFF and the number of each channel's bits isn't a
/// multiple of 8, for which no memory is needed; `Memory`.
pub fn write_in(alloc: Global, recording: &Recording, form: Form) -> Result<Vec<u8>, WriteFault>
    ensures text { IfOk result (λ file. text_in form recording.now ≡ Some file.items) }
    // What is read from it has the recording's sound.
    ensures read_again { IfOk result (λ file. HoldsSound form recording.now file.items) }
    ensures refused { IfErr result (IsWriteFault form recording.now) }
    ensures not_whole_bytes { text_in form recording.now ≡ None → result ≡ Err WriteFault.NotWholeBytes }
{
    match form {
        Form::Dsdiff => dsdiff_core::write(alloc, recording),
        Form::Dsf => Ok(dsf_core::write(alloc, recording, BitOrder::LeastFirst)?),
        Form::Dsf8 => Ok(dsf_core::write(alloc, recording, BitOrder::MostFirst)?),
    }
}

/// How many parts of a recording a file of the form can't hold: marks and kept chunks in a DSF file, a tag in a DSDIFF
/// file.
pub fn dropped_in(description: &Description, form: Form) -> u64
    ensures { result ≡ forms.dropped_in form description.now }
{
    match form {
        Form::Dsdiff => u64::from(!description.tag().is_empty()),
        Form::Dsf | Form::Dsf8 => (description.marks().len() + description.others().len()) as u64,
    }
}
