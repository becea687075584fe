//! A folder that shows how far its files are read.

ghost use Rattle.std.specs.Prelude.{◌≡◌, false, true};
ghost use Rattle.folder_core.specs.WatchedFolders.{is_written, shows, watched_file, watched_folder};

use crate::folder::{Folder, FolderFault, Work};
use crate::progress::{ProgressLine, Stint, clear_stint, show_sizes, show_stint};
use std::cell::Cell;
use std::io;
use std::io::{Eprint, Read};
use std::rt::Clock;
use std::time::Instant;

/// A folder over another that shows on standard error how far each file is read, and how far work has come. It rewrites
/// one line, and clears it when the file is dropped or the work is over. For a file it does so at most ten times a
/// second, for work at most once for each per cent. Nothing is shown in the first second after the folder was made, nor
/// in the first second of work. The same is known of it as of the other folder.
#[derive(Drop)]
pub struct WatchedFolder<'a, F, R> {
    folder: F,
    rt: &'a R,
    // Where it is counted how many bytes the file gave that was opened last.
    count: &'a Cell<u64>,
    start: Option<Instant>,
    work: Option<Stint>,
}

/// Something whose length may be known before it is read.
pub trait KnownLength {
    /// How many bytes it has; none if that isn't known, as for a pipe.
    fn known_length(&self) -> Option<u64>;
}

/// A file of a [`WatchedFolder`] that is read.
#[derive(Drop)]
pub struct WatchedFile<'a, I, R: Clock + Eprint> {
    file: I,
    count: &'a Cell<u64>,
    given: u64,
    length: u64,
    line: ProgressLine<'a, R>,
}

impl<'a, F: Folder, R: Clock> WatchedFolder<'a, F, R> {
    /// Watches this folder. `is_shown` says whether anything is shown; nothing is, either, if the time isn't known.
    /// `count` gets the number of bytes that the file gave that was opened last.
    pub fn new(rt: &'a R, folder: F, is_shown: bool, count: &'a Cell<u64>) -> Self
        ensures folder { watched_folder result ≡ folder }
        ensures quiet { is_shown ≡ false → shows result ≡ false }
    {
        let start = if is_shown {
            Instant::now(rt).ok()
        } else {
            None
        };
        WatchedFolder {
            folder,
            rt,
            count,
            start,
            work: None,
        }
    }

    /// The other folder.
    pub fn into_inner(self) -> F
        ensures { result ≡ watched_folder self.entry }
    {
        let WatchedFolder {
            folder,
            rt: _,
            count: _,
            start: _,
            work: _,
        } = self;
        folder
    }
}

impl<'a, F, R: Clock + Eprint> WatchedFolder<'a, F, R> {
    // Prints how large both files of a master will be. Nothing is printed unless something is to be shown.
    fn print_sizes(&self, master: u64, most_of_certificate: u64)
        requires { shows self.now ≡ true }
    {
        show_sizes(self.rt, master, most_of_certificate);
    }

    // Prints how far work has come.
    fn print_work(&self, stint: Stint, done: usize, all: usize)
        requires { shows self.now ≡ true }
    {
        show_stint(self.rt, stint, done as u64, all as u64);
    }

    // Clears the line of work that is over.
    fn clear_work(&self, stint: Stint)
        requires { shows self.now ≡ true }
    {
        clear_stint(self.rt, stint);
    }

    // The line of a file that is opened now. It is never written if nothing is to be shown.
    fn line(&self) -> ProgressLine<'a, R>
        ensures { is_written result ≡ shows self.now }
    {
        ProgressLine::new(self.rt, self.start)
    }
}

impl<'a, F: Folder, R: Clock + Eprint> Folder for WatchedFolder<'a, F, R>
where
    F::In: KnownLength,
{
    type In = WatchedFile<'a, F::In, R>;

    type Out = F::Out;

    ghost view = { λ w. F.view (watched_folder w) };

    fn show_sizes(&self, master: u64, most_of_certificate: u64) {
        if self.start.is_some() {
            self.print_sizes(master, most_of_certificate);
        }
    }

    fn begin_work(&mut self, work: Work) {
        self.work = match self.start {
            Some(_) => Stint::new(self.rt, work),
            None => None,
        };
    }

    fn show_work(&self, done: usize, all: usize) {
        match self.work {
            Some(stint) if self.start.is_some() => self.print_work(stint, done, all),
            _ => {}
        }
    }

    fn end_work(&mut self) {
        match self.work {
            Some(stint) if self.start.is_some() => self.clear_work(stint),
            _ => {}
        }
        self.work = None;
    }

    fn open(&mut self, name: &str) -> Result<WatchedFile<'a, F::In, R>, FolderFault> {
        let file = self.folder.open(name)?;
        self.count.set(0);
        Ok(WatchedFile {
            length: file.known_length().unwrap_or(0),
            file,
            count: self.count,
            given: 0,
            line: self.line(),
        })
    }

    fn reopens(&self, name: &str) -> bool {
        self.folder.reopens(name)
    }

    fn pass(&self, file: &mut WatchedFile<'a, F::In, R>, buffer: &mut [u8]) -> io::Result<usize> {
        let got = self.folder.pass(&mut file.file, buffer);
        if let Ok(count) = got {
            file.given = file.given.saturating_add(count as u64);
            file.count.set(file.given);
            file.line.show(file.given, file.length);
        }
        got
    }

    fn protect(&mut self) {
        self.folder.protect();
    }

    fn hold(&mut self, name: &str) -> Result<(), FolderFault> {
        self.folder.hold(name)
    }

    fn create(&mut self, name: &str) -> Result<F::Out, FolderFault> {
        self.folder.create(name)
    }

    fn keep(&mut self, name: &str, out: F::Out) -> Result<(), FolderFault> {
        self.folder.keep(name, out)
    }

    fn give_up(&mut self, name: &str, out: F::Out) {
        self.folder.give_up(name, out);
    }
}

impl<I: Read, R: Clock + Eprint> Read for WatchedFile<'_, I, R> {
    ghost remaining = { λ w. I.remaining (watched_file w) };

    fn read(&mut self, buffer: &mut [u8]) -> io::Result<usize> {
        let got = self.file.read(buffer);
        if let Ok(count) = got {
            self.given = self.given.saturating_add(count as u64);
            self.count.set(self.given);
            self.line.show(self.given, self.length);
        }
        got
    }
}
