//! What the program runs on.

ghost use Rattle.std.specs.Prelude.{◌≡◌, ◌∷◌, ◌++◌, [], IsTrue, OnErr, OnOk, false};
ghost use Rattle.command_core.specs.Hosts.{Prints, PrintsPrefix, State, TakesBack};

use crate::explaining::Shown;
use ended_core::{Ended, Summed};
use folder_core::Folder;
use std::alloc::Global;
use std::io::Error;
use words_core::{Task, WordsFault};

/// What the program runs on: folders of files, standard output and standard error.
///
/// What is printed to standard output may be known, as the bytes of a folder's files may. Of a disk and its output
/// nothing is known.
pub trait Host {
    /// The folder of a command, or of one file of `sum`.
    type Files: Folder;

    // What is known of its files, and the text that was printed to standard output.
    ghost state: { Self → State };

    /// The allocator.
    fn alloc(&self) -> Global;

    /// The folder in which a command finds its files, or `sum` one of its files. `is_shown` says whether it may show
    /// how far files are read.
    fn open_folder(&mut self, is_shown: bool) -> Self::Files
        ensures files { Self.Files.view result ≡ (state self.old).view }
        ensures same { (state self.new).printed ≡ (state self.old).printed };

    /// Takes a folder back. Returns whether a file was not opened or created because memory ran out. None was if the
    /// folder's bytes are known.
    fn close_folder(&mut self, files: Self::Files) -> bool
        ensures files { TakesBack (Self.Files.view files) (state self.old) (state self.new) }
        ensures memory { IsTrue (Self.Files.view files).is_known → result ≡ false };

    /// Prints what a command did or judged, and the end of the line.
    fn print_answer(&mut self, line: &str) -> Result<(), Error>
        ensures ok { OnOk result (Prints (state self.old) (state self.new) (line.now ++ 10 ∷ [])) }
        ensures err { OnErr result (PrintsPrefix (state self.old) (state self.new) (line.now ++ 10 ∷ [])) };

    /// Prints the line of a file of `sum`, what is after it, and the end of the line.
    fn print_sums(&mut self, line: &[u8], after: &str) -> Result<(), Error>
        ensures ok { OnOk result (Prints (state self.old) (state self.new) (line.now ++ (after.now ++ 10 ∷ []))) }
        ensures err { OnErr result
            (PrintsPrefix (state self.old) (state self.new) (line.now ++ (after.now ++ 10 ∷ []))) };

    /// Prints a line to standard error, which may fail.
    fn print_fault(&mut self, line: &str)
        ensures same { state self.new ≡ state self.old };

    /// Prints what explains an outcome to standard error, if that is asked for and there is something.
    fn explain(&mut self, asked: Result<Task, WordsFault>, shown: &Shown)
        ensures same { state self.new ≡ state self.old };

    /// The same for a file of `sum`.
    fn explain_sum(&mut self, file: Summed, ended: Ended)
        ensures same { state self.new ≡ state self.old };
}
