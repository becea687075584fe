//! The options of commands.

ghost use Rattle.std.specs.Prelude.{◌≡◌, ◌⊎◌, ◌++◌, [], All, IfNone, IfSome, MatchOption, codes, false, true};
ghost use Rattle.words_core.specs.Lines.{IsName, IsOptionOf, IsTaken, Takes, TakesNothing, TakesValue, text_of};
ghost use Rattle.words_core.specs.Reading.{AreNone, AreTogether, HasNoNeighbour, HasNoPart, HasPlainHeader, IsFree, SetsFile, SetsFlag, SetsPlace, texts};

use place_core::Place;

/// The options of `play`, without their hyphens.
const PLAY: [&str; 7] = ["from", "to", "previous", "next", "speakers", "rf64", "dop"];

/// The word after which all words are names.
pub(crate) const END: &str = "--";

/// An option.
#[derive(Clone, Copy)]
pub enum OptionName {
    /// Where a part begins, a place.
    From,
    /// Where a part ends, a place.
    To,
    /// What is played before, a file.
    Previous,
    /// What is played after, a file.
    Next,
    /// Say which channel is which speaker's.
    Speakers,
    /// A header with room for sizes of 64 bits.
    Rf64,
    /// One-bit sound in PCM samples (DoP).
    Dop,
    /// Judge by lists.
    Check,
}

/// What follows an option.
#[derive(Clone, Copy)]
pub enum Taken {
    /// Nothing.
    Nothing,
    /// A place.
    Place,
    /// The name of a file.
    File,
}

/// What the options of a command line say.
#[derive(Clone, Copy)]
pub struct Options<'a> {
    /// The place of `--from`.
    pub from: Option<Place>,
    /// The place of `--to`.
    pub to: Option<Place>,
    /// The file of `--previous`.
    pub previous: Option<&'a str>,
    /// The file of `--next`.
    pub next: Option<&'a str>,
    /// Whether `--speakers` is there.
    pub speakers: bool,
    /// Whether `--rf64` is there.
    pub rf64: bool,
    /// Whether `--dop` is there.
    pub dop: bool,
    /// Whether `--check` is there.
    pub check: bool,
}

impl<'a> Options<'a> {
    /// What no options say.
    pub(crate) fn none() -> Options<'a>
        ensures { AreNone result }
    {
        Options {
            from: None,
            to: None,
            previous: None,
            next: None,
            speakers: false,
            rf64: false,
            dop: false,
            check: false,
        }
    }

    /// Whether an option was there before.
    pub(crate) fn has(&self, option: OptionName) -> bool
        ensures { result ≡ false → IsFree option self.now }
    {
        match option {
            OptionName::From => self.from.is_some(),
            OptionName::To => self.to.is_some(),
            OptionName::Previous => self.previous.is_some(),
            OptionName::Next => self.next.is_some(),
            OptionName::Speakers => self.speakers,
            OptionName::Rf64 => self.rf64,
            OptionName::Dop => self.dop,
            OptionName::Check => self.check,
        }
    }

    /// Two options that can't be together, if there are such: no part is played between others, and with `--dop` nothing
    /// else is asked for.
    pub(crate) fn apart(&self) -> Option<(OptionName, OptionName)>
        ensures { IfNone result (AreTogether self.now) }
    {
        match (self.part(), self.neighbour(), self.header(), self.dop) {
            (Some(part), Some(neighbour), _, _) => Some((part, neighbour)),
            (Some(part), None, _, true) => Some((OptionName::Dop, part)),
            (None, Some(neighbour), _, true) => Some((OptionName::Dop, neighbour)),
            (None, None, Some(header), true) => Some((OptionName::Dop, header)),
            (Some(_), None, _, false) => None,
            (None, Some(_), _, false) => None,
            (None, None, _, false) => None,
            (None, None, None, true) => None,
        }
    }

    // The first option that changes the header of the WAVE file.
    fn header(&self) -> Option<OptionName>
        ensures { IfNone result (HasPlainHeader self.now) }
    {
        if self.speakers {
            Some(OptionName::Speakers)
        } else if self.rf64 {
            Some(OptionName::Rf64)
        } else {
            None
        }
    }

    // The first option that names a place.
    fn part(&self) -> Option<OptionName>
        ensures { IfNone result (HasNoPart self.now) }
    {
        if self.from.is_some() {
            Some(OptionName::From)
        } else if self.to.is_some() {
            Some(OptionName::To)
        } else {
            None
        }
    }

    // The first option that names a file.
    fn neighbour(&self) -> Option<OptionName>
        ensures { IfNone result (HasNoNeighbour self.now) }
    {
        if self.previous.is_some() {
            Some(OptionName::Previous)
        } else if self.next.is_some() {
            Some(OptionName::Next)
        } else {
            None
        }
    }

    /// Notes an option that takes nothing.
    pub(crate) fn set_flag(&mut self, option: OptionName)
        ensures { SetsFlag option self.old self.new }
    {
        match option {
            OptionName::Speakers => self.speakers = true,
            OptionName::Rf64 => self.rf64 = true,
            OptionName::Dop => self.dop = true,
            OptionName::Check => self.check = true,
            _ => {}
        }
    }

    /// Notes the place of an option.
    pub(crate) fn set_place(&mut self, option: OptionName, place: Place)
        ensures { SetsPlace option place self.old self.new }
    {
        match option {
            OptionName::From => self.from = Some(place),
            OptionName::To => self.to = Some(place),
            _ => {}
        }
    }

    /// Notes the file of an option.
    pub(crate) fn set_file(&mut self, option: OptionName, file: &'a str)
        ensures { SetsFile option file.entry self.old self.new }
    {
        match option {
            OptionName::Previous => self.previous = Some(file),
            OptionName::Next => self.next = Some(file),
            _ => {}
        }
    }
}

impl OptionName {
    /// The text of the option, without its hyphens.
    pub fn text(self) -> &'static str
        ensures { result.now ≡ text_of self }
    {
        match self {
            OptionName::From => "from",
            OptionName::To => "to",
            OptionName::Previous => "previous",
            OptionName::Next => "next",
            OptionName::Speakers => "speakers",
            OptionName::Rf64 => "rf64",
            OptionName::Dop => "dop",
            OptionName::Check => "check",
        }
    }

    /// Whether nothing follows the option.
    pub(crate) fn is_flag(self) -> bool
        ensures flag { result ≡ true → TakesNothing self }
        ensures value { result ≡ false → TakesValue self }
    {
        match self.takes() {
            Taken::Nothing => true,
            Taken::Place => false,
            Taken::File => false,
        }
    }

    /// What follows the option.
    pub fn takes(self) -> Taken
        ensures { IsTaken self result }
    {
        match self {
            OptionName::From | OptionName::To => Taken::Place,
            OptionName::Previous | OptionName::Next => Taken::File,
            OptionName::Speakers | OptionName::Rf64 | OptionName::Dop | OptionName::Check => {
                Taken::Nothing
            }
        }
    }
}

/// The options of a command, without their hyphens.
pub fn options_of(command: &str) -> &'static [&'static str]
    ensures { All (IsOptionOf command.now) (texts result.now) }
{
    match command {
        "play" => &PLAY,
        "convert" => &["speakers", "dop"],
        "sum" => &["check"],
        _ => &[],
    }
}

/// The option of a command that is written so, without its hyphens.
pub(crate) fn option_named(command: &str, name: &str) -> Option<OptionName>
    ensures { IfSome result (λ option. (name.now ≡ text_of option) × Takes command.now option) }
{
    if is_option_of(command, name) {
        named(name)
    } else {
        None
    }
}

// Whether a command has an option.
fn is_option_of(command: &str, option: &str) -> bool
    ensures { result ≡ true → IsOptionOf command.now option.now }
{
    options_of(command).contains(&option)
}

/// The option with this text.
pub fn named(name: &str) -> Option<OptionName>
    ensures { IfSome result (λ option. name.now ≡ text_of option) }
{
    match name {
        "from" => Some(OptionName::From),
        "to" => Some(OptionName::To),
        "previous" => Some(OptionName::Previous),
        "next" => Some(OptionName::Next),
        "speakers" => Some(OptionName::Speakers),
        "rf64" => Some(OptionName::Rf64),
        "dop" => Some(OptionName::Dop),
        "check" => Some(OptionName::Check),
        _ => None,
    }
}

/// Whether a word is taken for an option, or ends them.
pub(crate) fn is_option(word: &str) -> bool
    ensures { result ≡ false → IsName word.now }
{
    word.len() > 1 && word.starts_with('-')
}

/// The name of an option and its value, if both are one word; an empty name for a word that doesn't begin with `--`.
pub(crate) fn parts_of(word: &str) -> (&str, Option<&str>)
    ensures { MatchOption result.1
        ((result.0.now ≡ []) ⊎ (word.now ≡ codes "--" ++ result.0.now))
        (λ value. word.now ≡ (codes "--" ++ result.0.now) ++ codes "=" ++ value.now) }
{
    let Some(option) = word.strip_prefix(END) else {
        return ("", None);
    };
    match option.split_once('=') {
        Some((name, value)) => (name, Some(value)),
        None => (option, None),
    }
}
