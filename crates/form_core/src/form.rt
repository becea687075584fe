//! The file forms of a recording, and how the sound of each is interleaved.

ghost use Rattle.std.specs.Prelude.{◌≡◌};
ghost use Rattle.form_core.specs.Forms as forms;
ghost use Rattle.form_core.specs.Parts as parts;

use dsd_bits::{BitOrder, Interleaving};

/// A form of file that holds a one-bit recording.
#[derive(Clone, Copy, PartialEq, Eq)]
pub enum Form {
    /// DSDIFF 1.5.
    Dsdiff,
    /// DSF 1.01 with one bit per sample: the earliest bit of a byte is the least significant.
    Dsf,
    /// DSF 1.01 with eight bits per sample: the earliest bit of a byte is the most significant.
    Dsf8,
}

/// How the sound of a file of this form is interleaved.
pub fn interleaving_in(form: Form) -> Interleaving
    ensures { result ≡ parts.interleaving_in form }
{
    match form {
        Form::Dsdiff => Interleaving::Bytes,
        Form::Dsf => Interleaving::Blocks(BitOrder::LeastFirst),
        Form::Dsf8 => Interleaving::Blocks(BitOrder::MostFirst),
    }
}

/// The form of a file whose sound is interleaved like this.
pub fn form_in(interleaving: Interleaving) -> Form
    ensures { result ≡ forms.form_in interleaving }
{
    match interleaving {
        Interleaving::Bytes => Form::Dsdiff,
        Interleaving::Blocks(BitOrder::LeastFirst) => Form::Dsf,
        Interleaving::Blocks(BitOrder::MostFirst) => Form::Dsf8,
    }
}
