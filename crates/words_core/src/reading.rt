//! The words of a command, read word by word.

ghost use Rattle.std.specs.Prelude.{◌≡◌, ◌↔◌, [], IfErr, IfNone, IfOk, IfSome, IsTrue, OnOk, Contains, map, string_bytes};
ghost use Rattle.words_core.specs.Asked.{IsUnread, commands};
ghost use Rattle.words_core.specs.Lines.{TakesValue};
ghost use Rattle.words_core.specs.Reading.{AddsName, AddsValue, IsMisused, IsReadFrom, ReadsWord, texts, waiting_words};
ghost use Rattle.words_core.specs.declared.fault.WordsFault.TheVariants as faults;
ghost use Rattle.words_core.specs.declared.reading.Next.TheVariants as nexts;

use crate::fault::{Misfit, WordsFault};
use crate::options::{END, OptionName, Options, Taken, is_option, option_named, parts_of};
use crate::words::NAMES;
use place_core::place_named;
use std::alloc::Global;

/// The words of a command, which were read.
#[derive(Drop)]
pub struct Words<'a> {
    pub(crate) command: &'a str,
    pub(crate) names: Vec<&'a str>,
    pub(crate) options: Options<'a>,
    /// The first word that is not UTF-8.
    pub(crate) no_text: Option<&'a str>,
    // What the next word may be.
    next: Next,
}

// What the next word of a command may be.
#[derive(Clone, Copy)]
enum Next {
    // A name or an option.
    Any,
    // The value of this option.
    ValueOf(OptionName),
    // A name alone, after `--`.
    NameOnly,
}

impl<'a> Words<'a> {
    /// Reads the words of a command line, without the program's name and `--explain`. In a word that is not UTF-8, each
    /// byte that isn't is a NUL and its two hexadecimal digits.
    ///
    /// Refusals: `Memory`; `NoText` if a word is not UTF-8; `NoCommand`; `UnknownCommand`;
    /// `WrongUsage` for an option.
    pub fn read(alloc: Global, words: &'a [String]) -> Result<Words<'a>, WordsFault<'a>>
        ensures read { IfOk result (IsReadFrom (map string_bytes words.now)) }
        ensures faults { IfErr result (IsUnread (map string_bytes words.now)) }
    {
        let no_text = no_text_in(words);
        match (Words::of_command(alloc, words, no_text), no_text) {
            (Err(WordsFault::Memory), _) => Err(WordsFault::Memory),
            (Err(_), Some(word)) => Err(WordsFault::NoText(word)),
            (read, _) => read,
        }
    }

    fn of_command(
        alloc: Global,
        words: &'a [String],
        no_text: Option<&'a str>,
    ) -> Result<Words<'a>, WordsFault<'a>>
        ensures read { IfOk result (IsReadFrom (map string_bytes words.now)) }
        ensures faults { IfErr result (IsUnread (map string_bytes words.now)) }
    {
        let Some((command, rest)) = words.split_first() else {
            return Err(WordsFault::NoCommand);
        };
        let command = command.as_str();
        if !is_command(command) {
            return Err(WordsFault::UnknownCommand(command));
        }
        let mut read = Words {
            command,
            names: Vec::new(alloc),
            options: Options::none(),
            no_text,
            next: Next::Any,
        };
        for word in rest {
            read.take(word.as_str())?;
        }
        match read.awaited() {
            Some(option) => Err(read.wrong(lacking(option))),
            None => Ok(read),
        }
    }

    // The option whose value is to come.
    fn awaited(&self) -> Option<OptionName>
        ensures { IfNone result (waiting_words self.now.next ≡ []) }
    {
        match self.next {
            Next::Any => None,
            Next::NameOnly => None,
            Next::ValueOf(option) => Some(option),
        }
    }

    /// That the words are not as the command is used.
    pub(crate) fn wrong(&self, misfit: Misfit<'a>) -> WordsFault<'a>
        ensures { result ≡ faults.WrongUsage self.now.command misfit.entry }
    {
        WordsFault::WrongUsage(self.command, misfit)
    }

    // Reads one more word.
    fn take(&mut self, word: &'a str) -> Result<(), WordsFault<'a>>
        ensures read { OnOk result (ReadsWord self.old word.now self.new) }
        ensures faults { IfErr result (IsMisused self.old.command.now) }
    {
        match self.next {
            Next::ValueOf(option) => self.next_value(option, word),
            Next::NameOnly => self.name(word),
            Next::Any => self.any(word),
        }
    }

    // Reads a word where a name or an option may come.
    fn any(&mut self, word: &'a str) -> Result<(), WordsFault<'a>>
        ensures read { self.old.next ≡ nexts.Any → OnOk result (ReadsWord self.old word.now self.new) }
        ensures faults { IfErr result (IsMisused self.old.command.now) }
    {
        if !is_option(word) {
            self.name(word)
        } else if word == END {
            self.next = Next::NameOnly;
            Ok(())
        } else {
            self.option(word)
        }
    }

    // Notes a name.
    fn name(&mut self, word: &'a str) -> Result<(), WordsFault<'a>>
        ensures read { OnOk result (AddsName self.old word.now self.new) }
        ensures faults { IfErr result (IsMisused self.old.command.now) }
    {
        match self.names.push(word) {
            Ok(()) => Ok(()),
            Err(_) => Err(WordsFault::Memory),
        }
    }

    // Reads an option.
    fn option(&mut self, word: &'a str) -> Result<(), WordsFault<'a>>
        ensures read { self.old.next ≡ nexts.Any → OnOk result (ReadsWord self.old word.now self.new) }
        ensures faults { IfErr result (IsMisused self.old.command.now) }
    {
        let (name, value) = parts_of(word);
        let Some(option) = option_named(self.command, name) else {
            return Err(self.wrong(Misfit::NoOption(word)));
        };
        if self.options.has(option) {
            return Err(self.wrong(Misfit::Twice(option.text())));
        }
        let is_flag = option.is_flag();
        match value {
            Some(_) if is_flag => Err(self.wrong(Misfit::Valued(option.text()))),
            Some(value) => self.value(option, value),
            None if is_flag => {
                self.options.set_flag(option);
                Ok(())
            }
            None => {
                self.next = Next::ValueOf(option);
                Ok(())
            }
        }
    }

    // Notes the value that is the word after an option. One that begins with `--` is taken for the next option.
    fn next_value(&mut self, option: OptionName, word: &'a str) -> Result<(), WordsFault<'a>>
        ensures read { self.old.next ≡ nexts.ValueOf option → OnOk result (ReadsWord self.old word.now self.new) }
        ensures faults { IfErr result (IsMisused self.old.command.now) }
    {
        if word.starts_with(END) {
            Err(self.wrong(lacking(option)))
        } else {
            self.next = Next::Any;
            self.value(option, word)
        }
    }

    // Notes the value of an option.
    fn value(&mut self, option: OptionName, word: &'a str) -> Result<(), WordsFault<'a>>
        ensures read { OnOk result (TakesValue option → AddsValue self.old option word.now self.new) }
        ensures faults { IfErr result (IsMisused self.old.command.now) }
    {
        match option.takes() {
            Taken::Place => match place_named(word) {
                Some(place) => self.options.set_place(option, place),
                None => return Err(self.wrong(Misfit::NotPlace(option.text(), word))),
            },
            Taken::File => self.options.set_file(option, word),
            Taken::Nothing => {}
        }
        Ok(())
    }
}

// That no value comes after an option.
fn lacking<'a>(option: OptionName) -> Misfit<'a> {
    match option.takes() {
        Taken::File => Misfit::NoFile(option.text()),
        _ => Misfit::NoPlace(option.text()),
    }
}

// Whether a word is one of the commands.
fn is_command(word: &str) -> bool
    ensures { IsTrue result ↔ Contains commands word.now }
{
    names().contains(&word)
}

// The names of all commands.
fn names() -> &'static [&'static str]
    ensures { texts result.now ≡ commands }
{
    &NAMES
}

// The first word that is not UTF-8.
fn no_text_in(words: &[String]) -> Option<&str>
    ensures { IfSome result (λ word. Contains (map string_bytes words.now) word.now) }
{
    for word in words {
        if word.contains('\0') {
            return Some(word.as_str());
        }
    }
    None
}
