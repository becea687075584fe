//! The names of forms, on the command line and in printed text.

ghost use Rattle.std.specs.Prelude.{◌≡◌};
ghost use Rattle.form_core.specs.FormNames as names;

use crate::form::Form;

/// The name of a form.
pub fn name_of(form: Form) -> &'static str
    ensures { result.now ≡ names.name_of form }
{
    match form {
        Form::Dsdiff => "dsdiff",
        Form::Dsf => "dsf",
        Form::Dsf8 => "dsf8",
    }
}

/// The form with this name, if there is one.
pub fn form_named(name: &str) -> Option<Form>
    ensures { result ≡ names.form_named name.now }
{
    match name {
        "dsdiff" => Some(Form::Dsdiff),
        "dsf" => Some(Form::Dsf),
        "dsf8" => Some(Form::Dsf8),
        _ => None,
    }
}
