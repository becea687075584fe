//! What a command line asks for.

use form_core::Form;
use place_core::Place;

/// What a command line asks for, with the names of the files. Those of `play` and `convert` say whether `--speakers` is
/// there, and those of `play` whether `--rf64` is.
#[derive(Clone, Copy)]
pub enum Task<'a> {
    /// `play PROJECT IN OUT`
    Play {
        project: &'a str,
        input: &'a str,
        output: &'a str,
        speakers: bool,
        rf64: bool,
    },
    /// `play --from T --to T PROJECT IN OUT`, with one of both or both
    PlayPart {
        project: &'a str,
        input: &'a str,
        output: &'a str,
        from: Option<Place>,
        to: Option<Place>,
        speakers: bool,
        rf64: bool,
    },
    /// `play --previous FILE --next FILE PROJECT IN OUT`, with one of both or both
    PlayBetween {
        project: &'a str,
        input: &'a str,
        output: &'a str,
        previous: Option<&'a str>,
        next: Option<&'a str>,
        speakers: bool,
        rf64: bool,
    },
    /// `play --dop IN OUT`
    PlayDop {
        input: &'a str,
        output: &'a str,
    },
    /// `convert FORM IN OUT`
    Convert {
        form: Form,
        input: &'a str,
        output: &'a str,
        speakers: bool,
    },
    /// `convert --dop FORM IN OUT`
    ConvertDop {
        form: Form,
        input: &'a str,
        output: &'a str,
    },
    /// `edit FORM PROJECT MASTER CERT`
    Edit {
        form: Form,
        project: &'a str,
        master: &'a str,
        cert: &'a str,
    },
    /// `check PROJECT MASTER CERT`
    Check {
        project: &'a str,
        master: &'a str,
        cert: &'a str,
    },
    /// `nulltest MIX MASTER`
    NullTest {
        mix: &'a str,
        master: &'a str,
    },
    /// `info FILE`
    Info {
        file: &'a str,
    },
    /// `sum FILE..`, or with `--check` files that are lists by which others are checked
    Sum {
        is_check: bool,
        files: &'a [&'a str],
    },
}
