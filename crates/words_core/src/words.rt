//! What the words of a command line ask for.

ghost use Rattle.std.specs.Prelude.{◌≡◌, ◌⊎◌, ◌↔◌, ◌∷◌, [], ℕ, Err, List, Some, IfErr, IfOk, IsSomeAnd, IsTrue, codes, drop, false, length, slice_get, string_bytes, true};
ghost use Rattle.std.specs.Borrow.{Bor};
ghost use Rattle.form_core.specs.FormNames.{form_named};
ghost use Rattle.words_core.specs.Asked.{AreNamesOf, AreOptionsOf, HasPlaces, IsUnasked, LineAsks, TakesForm, command_of};
ghost use Rattle.words_core.specs.Lines.{Line};
ghost use Rattle.words_core.specs.Reading.{AreTogether, IsReadAs, ReadAsks, ReadRefused};
ghost use Rattle.words_core.specs.declared.fault.Misfit.TheVariants as misfits;
ghost use Rattle.words_core.specs.declared.fault.WordsFault.TheVariants as faults;

use crate::fault::{Misfit, WordsFault};
use crate::options::Options;
use crate::reading::Words;
use crate::task::Task;
use form_core::{Form, form_named};

/// The commands but `sum`, each with the names of its words in order.
pub const COMMANDS: [(&str, &[&str]); 6] = [
    ("info", &["FILE"]),
    ("convert", &["FORM", "IN", "OUT"]),
    ("play", &["PROJECT", "IN", "OUT"]),
    ("edit", &["FORM", "PROJECT", "MASTER", "CERT"]),
    ("check", &["PROJECT", "MASTER", "CERT"]),
    ("nulltest", &["MIX", "MASTER"]),
];

/// The names of all commands.
pub const NAMES: [&str; 7] = [
    "info", "convert", "play", "edit", "check", "nulltest", "sum",
];

// The word that asks to explain. It is before the command.
const EXPLAIN: &str = "--explain";

/// Whether words ask to explain faults, and those of the command. The first word is the program's name.
pub fn split_explain(words: &[String]) -> (bool, &[String])
    ensures asked { result.0 ≡ true → result.1.now ≡ drop 2 words.now }
    ensures plain { result.0 ≡ false → result.1.now ≡ drop 1 words.now }
    ensures explained { IsTrue result.0 ↔ IsSomeAnd (slice_get words.now 1) (λ word. string_bytes word ≡ codes "--explain") }
{
    match words {
        [_, first, rest @ ..] if first.as_str() == EXPLAIN => (true, rest),
        [_, rest @ ..] => (false, rest),
        [] => (false, words),
    }
}

impl Words<'_> {
    /// What the words ask for.
    ///
    /// Refusals: `NoText` if a word is not UTF-8, unless it is a name for `sum`; `WrongUsage` for the number of names;
    /// `UnknownForm` if the form isn't `dsdiff`, `dsf` or `dsf8`.
    pub fn task(&self) -> Result<Task<'_>, WordsFault<'_>>
        ensures asked { (line : Line) → IsReadAs line self.now → IfOk result (LineAsks line) }
        ensures refused { (line : Line) → IsReadAs line self.now → IfErr result (IsUnasked line) }
        ensures places { IfOk result HasPlaces }
        ensures faults { IfErr result TakesForm }
    {
        unless_no_text(self.any_task(), self.no_text)
    }

    // What the words ask for, if all are UTF-8.
    fn any_task(&self) -> Result<Task<'_>, WordsFault<'_>>
        ensures asked { IfOk result (ReadAsks self.now.command.now self.now) }
        ensures refused { IfErr result (ReadRefused self.now.command.now self.now) }
    {
        match self.command {
            "info" => self.info_task(),
            "convert" => self.convert_task(),
            "play" => self.play_task(),
            "edit" => self.edit_task(),
            "check" => self.check_task(),
            "nulltest" => self.null_test_task(),
            "sum" => self.sum_task(),
            _ => Err(WordsFault::UnknownCommand(self.command)),
        }
    }

    fn info_task(&self) -> Result<Task<'_>, WordsFault<'_>>
        ensures asked { IfOk result (ReadAsks (codes "info") self.now) }
        ensures refused { IfErr result (ReadRefused (codes "info") self.now) }
    {
        let [file] = self.names.as_slice() else {
            return Err(self.miscounted());
        };
        Ok(Task::Info { file: *file })
    }

    fn convert_task(&self) -> Result<Task<'_>, WordsFault<'_>>
        ensures asked { IfOk result (ReadAsks (codes "convert") self.now) }
        ensures refused { IfErr result (ReadRefused (codes "convert") self.now) }
    {
        if self.options.dop && self.options.speakers {
            return Err(self.wrong(Misfit::Apart("dop", "speakers")));
        }
        let [name, input, output] = self.names.as_slice() else {
            return Err(self.miscounted());
        };
        match form_named(*name) {
            Some(form) => Ok(self.converting(form, *input, *output)),
            None => Err(WordsFault::UnknownForm("convert", *name)),
        }
    }

    fn play_task(&self) -> Result<Task<'_>, WordsFault<'_>>
        ensures asked { IfOk result (ReadAsks (codes "play") self.now) }
        ensures refused { IfErr result (ReadRefused (codes "play") self.now) }
    {
        if let Some((first, second)) = self.options.apart() {
            return Err(self.wrong(Misfit::Apart(first.text(), second.text())));
        }
        if self.options.dop {
            return self.play_dop_task();
        }
        let [project, input, output] = self.names.as_slice() else {
            return Err(self.miscounted());
        };
        Ok(self.playing(*project, *input, *output))
    }

    fn play_dop_task(&self) -> Result<Task<'_>, WordsFault<'_>>
        requires dop { self.now.options.dop ≡ true }
        requires together { AreTogether self.now.options }
        ensures asked { IfOk result (ReadAsks (codes "play") self.now) }
        ensures refused { IfErr result (ReadRefused (codes "play") self.now) }
    {
        let [input, output] = self.names.as_slice() else {
            return Err(self.wrong(Misfit::DopNames(self.names.len())));
        };
        Ok(Task::PlayDop {
            input: *input,
            output: *output,
        })
    }

    fn edit_task(&self) -> Result<Task<'_>, WordsFault<'_>>
        ensures asked { IfOk result (ReadAsks (codes "edit") self.now) }
        ensures refused { IfErr result (ReadRefused (codes "edit") self.now) }
    {
        let [name, project, master, cert] = self.names.as_slice() else {
            return Err(self.miscounted());
        };
        match form_named(*name) {
            Some(form) => Ok(Task::Edit {
                form,
                project: *project,
                master: *master,
                cert: *cert,
            }),
            None => Err(WordsFault::UnknownForm("edit", *name)),
        }
    }

    fn check_task(&self) -> Result<Task<'_>, WordsFault<'_>>
        ensures asked { IfOk result (ReadAsks (codes "check") self.now) }
        ensures refused { IfErr result (ReadRefused (codes "check") self.now) }
    {
        let [project, master, cert] = self.names.as_slice() else {
            return Err(self.miscounted());
        };
        Ok(Task::Check {
            project: *project,
            master: *master,
            cert: *cert,
        })
    }

    fn null_test_task(&self) -> Result<Task<'_>, WordsFault<'_>>
        ensures asked { IfOk result (ReadAsks (codes "nulltest") self.now) }
        ensures refused { IfErr result (ReadRefused (codes "nulltest") self.now) }
    {
        let [mix, master] = self.names.as_slice() else {
            return Err(self.miscounted());
        };
        Ok(Task::NullTest {
            mix: *mix,
            master: *master,
        })
    }

    fn sum_task(&self) -> Result<Task<'_>, WordsFault<'_>>
        ensures asked { IfOk result (ReadAsks (codes "sum") self.now) }
        ensures refused { IfErr result (ReadRefused (codes "sum") self.now) }
    {
        if self.names.is_empty() {
            return Err(self.miscounted());
        }
        Ok(Task::Sum {
            is_check: self.options.check,
            files: self.names.as_slice(),
        })
    }

    // That there are more or fewer names than the command takes.
    fn miscounted(&self) -> WordsFault<'_>
        ensures { result ≡ faults.WrongUsage self.now.command (misfits.Names (length self.now.names.items)) }
    {
        self.wrong(Misfit::Names(self.names.len()))
    }

    // The task to convert.
    fn converting<'b>(&self, form: Form, input: &'b str, output: &'b str) -> Task<'b>
        requires together { self.now.options.dop ≡ true → self.now.options.speakers ≡ false }
        ensures names { (name : List ℕ) → form_named name ≡ Some form → AreNamesOf result (name ∷ input.now ∷ output.now ∷ []) }
        ensures options { AreOptionsOf result self.now.options }
        ensures places { HasPlaces result }
        ensures command { codes "convert" ≡ command_of result }
    {
        if self.options.dop {
            Task::ConvertDop {
                form,
                input,
                output,
            }
        } else {
            Task::Convert {
                form,
                input,
                output,
                speakers: self.options.speakers,
            }
        }
    }

    // The task to play all, a part, or all between others.
    fn playing<'b>(&'b self, project: &'b str, input: &'b str, output: &'b str) -> Task<'b>
        requires plain { self.now.options.dop ≡ false }
        requires together { AreTogether self.now.options }
        ensures names { AreNamesOf result (project.now ∷ input.now ∷ output.now ∷ []) }
        ensures options { AreOptionsOf result self.now.options }
        ensures places { HasPlaces result }
        ensures command { codes "play" ≡ command_of result }
    {
        let Options {
            from,
            to,
            previous,
            next,
            speakers,
            rf64,
            ..
        } = self.options;
        match (from, to, previous, next) {
            (None, None, None, None) => Task::Play {
                project,
                input,
                output,
                speakers,
                rf64,
            },
            (from, to, None, None) => Task::PlayPart {
                project,
                input,
                output,
                from,
                to,
                speakers,
                rf64,
            },
            (_, _, previous, next) => Task::PlayBetween {
                project,
                input,
                output,
                previous,
                next,
                speakers,
                rf64,
            },
        }
    }
}

// What words ask for, or that a word is not UTF-8. Only `sum` takes such names.
fn unless_no_text<'a>(
    asked: Result<Task<'a>, WordsFault<'a>>,
    no_text: Option<&'a str>,
) -> Result<Task<'a>, WordsFault<'a>>
    ensures { (result ≡ asked.entry) ⊎ ((word : Bor (List ℕ)) × (result ≡ Err (faults.NoText word))) }
{
    match (asked, no_text) {
        (Ok(Task::Sum { is_check, files }), _) => Ok(Task::Sum { is_check, files }),
        (_, Some(word)) => Err(WordsFault::NoText(word)),
        (asked, None) => asked,
    }
}
