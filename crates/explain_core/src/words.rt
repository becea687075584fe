//! Why words are no command: which word, and how the command is used.

use crate::line::Line;
use form_core::{Form, name_of};
use std::alloc::Global;
use strsim::osa_distance;
use words_core::{COMMANDS, Misfit, NAMES, Taken, WordsFault, named, options_of};

impl Line {
    /// Adds a name to those of which this number came before.
    pub(crate) fn say_item(&mut self, number: usize, name: &str) {
        self.quote(if number > 0 { ", " } else { "" }, name, "");
    }

    /// Adds why words ask for nothing.
    pub(crate) fn explain_words(&mut self, fault: WordsFault) {
        match fault {
            WordsFault::NoCommand => self.say_commands("no command is named: "),
            WordsFault::UnknownCommand(name) => {
                self.quote("\"", name, "\" is no command");
                self.explain_command(name);
            }
            WordsFault::WrongUsage(command, misfit) => {
                if self.explain_misfit(command, misfit) {
                    self.say_usage(command);
                }
            }
            WordsFault::NoText(word) => {
                self.push("a name has to be UTF-8, and ");
                self.name(word);
                self.push(" is not");
            }
            WordsFault::UnknownForm(_, form) => self.explain_form(form),
            WordsFault::Memory => {}
        }
    }

    fn explain_command(&mut self, name: &str) {
        match near_of(self.alloc, &NAMES, name) {
            Some(meant) => self.quote("; did you mean ", meant, "?"),
            None => self.say_commands(": "),
        }
    }

    fn say_commands(&mut self, before: &str) {
        self.push(before);
        self.push("the commands are ");
        for (number, name) in NAMES.iter().enumerate() {
            self.say_item(number, name);
        }
        self.push("; dsdarc --help prints the usage");
    }

    // Returns whether the usage is to follow.
    fn explain_misfit(&mut self, command: &str, misfit: Misfit) -> bool {
        match misfit {
            Misfit::Names(got) => self.say_number(command, got as u64),
            Misfit::DopNames(got) => {
                self.say(DOP_NAMES, [got as u64, 0, 0]);
                return false;
            }
            Misfit::NoOption(word) => return self.explain_option(command, word),
            Misfit::Twice(option) => self.quote("--", option, " is named twice"),
            Misfit::Valued(option) => self.quote("--", option, " takes no value"),
            Misfit::NoPlace(option) => {
                self.quote("no place comes after --", option, ", which ");
                self.push(PLACE);
            }
            Misfit::NoFile(option) => self.quote("no name of a file comes after --", option, ""),
            Misfit::Apart(first, second) => {
                self.quote("--", first, " and ");
                self.quote("--", second, " can't be together");
            }
            Misfit::NotPlace(option, word) => {
                self.quote("\"", word, "\" is no place: ");
                self.quote("--", option, " ");
                self.push(PLACE);
                self.say_slip(word);
            }
        }
        true
    }

    // Adds what may be wrong with a time: a comma, or more than 59 after a colon.
    fn say_slip(&mut self, word: &str) {
        if let Some((seconds, rest)) = word.split_once(',') {
            self.quote("; did you mean ", seconds, ".");
            self.quote("", rest, "?");
        } else if word.contains(':') {
            self.push("; after a colon come minutes or seconds from 0 to 59");
        }
    }

    fn say_number(&mut self, command: &str, got: u64) {
        self.quote("", command, " takes ");
        match names_of(command) {
            Some(names) => self.say("{n0} word{s0} and got {n1}", [names.len() as u64, got, 0]),
            None => self.say("1 word or more and got {n0}", [got, 0, 0]),
        }
    }

    fn say_usage(&mut self, command: &str) {
        self.quote("; usage: dsdarc ", command, "");
        for option in options_of(command) {
            if command == "play" && *option == "dop" {
                continue;
            }
            let after = match named(option).map(|option| option.takes()) {
                Some(Taken::Place) => " T]",
                Some(Taken::File) => " FILE]",
                _ => "]",
            };
            self.quote(" [--", option, after);
        }
        if command == "play" {
            // The launcher takes it, with a rate and width as PROJECT.
            self.push(" [--plus6]");
        }
        for name in names_of(command).unwrap_or(&["FILE.."]) {
            self.quote(" ", name, "");
        }
        if command == "play" {
            self.push(", or dsdarc play --dop IN OUT");
        }
    }

    // Adds why a word that begins with a hyphen is none of a command. Returns whether the usage is to follow.
    fn explain_option(&mut self, command: &str, word: &str) -> bool {
        let option = word.trim_start_matches('-');
        let option = option.split_once('=').unwrap_or((option, "")).0;
        if let Some(meant) = near_of(self.alloc, options_of(command), option) {
            self.say_no_option(command, word);
            self.quote("did you mean --", meant, "?");
            return false;
        }
        match (option, is_of_any(option)) {
            ("explain", _) => self.quote("", word, " comes before the command"),
            ("help" | "h", _) => {
                self.quote("", command, " has no ");
                self.quote("", word, "; dsdarc --help prints what each command does");
            }
            (_, true) => {
                self.say_no_option(command, word);
                self.say_homes(option);
            }
            _ => {
                self.quote("", word, " begins with -; as a name it is written ./");
                self.quote("", word, "");
            }
        }
        true
    }

    // Adds which commands have an option.
    fn say_homes(&mut self, option: &str) {
        let mut is_begun = false;
        for command in NAMES {
            if options_of(command).contains(&option) {
                self.push(if is_begun { " and " } else { "it belongs to " });
                self.push(command);
                is_begun = true;
            }
        }
    }

    fn say_no_option(&mut self, command: &str, word: &str) {
        self.quote("", word, " is no option of ");
        self.quote("", command, "; ");
    }

    // Adds which form there may be in place of one that isn't known.
    fn explain_form(&mut self, word: &str) {
        self.quote("\"", word, "\" is no form: FORM is ");
        let [first, second, third] = [Form::Dsdiff, Form::Dsf, Form::Dsf8];
        let names = [name_of(first), name_of(second), name_of(third)];
        self.quote("", names[0], ", ");
        self.quote("", names[1], " or ");
        self.push(names[2]);
        match word {
            "dff" | "DFF" => self.push("; did you mean dsdiff?"),
            "wav" | "WAV" | "wave" | "flac" => self.push("; play writes WAVE files"),
            _ => {
                if let Some(meant) = near_of(self.alloc, &names, word) {
                    self.quote("; did you mean ", meant, "?");
                }
            }
        }
    }
}

// The first of some names that a word may mean.
fn near_of(alloc: Global, names: &[&'static str], word: &str) -> Option<&'static str> {
    for name in names {
        if is_near(alloc, word, name) {
            return Some(*name);
        }
    }
    None
}

/// Whether a word is a name but for one slip: a letter that is wrong, missing or added, two letters exchanged, or
/// capital letters.
pub(crate) fn is_near(alloc: Global, word: &str, name: &str) -> bool {
    let slips = osa_distance(alloc, word, name).unwrap_or(usize::MAX);
    word.eq_ignore_ascii_case(name) || (slips < 2 && name.len() > 2)
}

// The names of the words of a command, if it takes a fixed number of them.
fn names_of(command: &str) -> Option<&'static [&'static str]> {
    for (name, names) in &COMMANDS {
        if *name == command {
            return Some(*names);
        }
    }
    None
}

// Whether a command has this option.
fn is_of_any(option: &str) -> bool {
    for command in NAMES {
        if options_of(command).contains(&option) {
            return true;
        }
    }
    false
}

const DOP_NAMES: &str = "play --dop takes 2 words and got {n0}; usage: dsdarc play --dop IN OUT";

const PLACE: &str =
    "takes a time (90, 1:30 or 1:02:03.5), a frame (@123456) or a mark of a DSDIFF file (#3)";
