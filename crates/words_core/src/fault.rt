//! Why the words of a command line are refused.

/// Why the words of a command line are refused.
#[derive(Clone, Copy)]
pub enum WordsFault<'a> {
    /// No command is named.
    NoCommand,
    /// This is no command.
    UnknownCommand(&'a str),
    /// The words of this command are not as it is used.
    WrongUsage(&'a str, Misfit<'a>),
    /// This word is not UTF-8. Each byte that isn't is a NUL and its two hexadecimal digits. Only `sum` takes such names.
    NoText(&'a str),
    /// This command was given a form, the second, that isn't known.
    UnknownForm(&'a str, &'a str),
    /// Out of memory.
    Memory,
}

/// The first that is wrong with the words of a command. Options are named without their hyphens.
#[derive(Clone, Copy)]
pub enum Misfit<'a> {
    /// There are so many names.
    Names(usize),
    /// There are so many names beside `--dop`, with which `play` takes two.
    DopNames(usize),
    /// This word is taken for an option, and the command has no such option.
    NoOption(&'a str),
    /// This option is there twice.
    Twice(&'a str),
    /// This option has a value, and takes none.
    Valued(&'a str),
    /// No word comes after this option that could be its place.
    NoPlace(&'a str),
    /// What this option has, the second, is no place.
    NotPlace(&'a str, &'a str),
    /// No word comes after this option that could name its file.
    NoFile(&'a str),
    /// These two options can't be together.
    Apart(&'a str, &'a str),
}
