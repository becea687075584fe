//! Files under names.

ghost use Rattle.std.specs.Prelude.{◌≡◌, [], Some, IfOk, OnOk, OnErr, IsTrue, length};
ghost use Rattle.std.specs.Io.{ReadsAtMost};
ghost use Rattle.folder_core.specs.Files.{IsGiven, IsGivenUp, KeepsOthers, View};
ghost use Rattle.folder_core.specs.GappedFiles.{MovesOn};

use std::io;
use std::io::{Read, Write};
use thiserror::Error;

/// A file could not be opened, created or kept.
#[derive(Clone, Copy, Debug, PartialEq, Eq, Error)]
#[error("FolderFault")]
pub struct FolderFault;

/// Work that takes long.
#[derive(Clone, Copy)]
pub enum Work {
    /// Bridges are searched.
    Search,
    /// A certificate is written.
    Certificate,
    /// A master is compared with a mix.
    NullTest,
}

/// Files under names. A file is opened to be read, and created to be written. A created file ends only with
/// [`keep`](Folder::keep), which puts it under its name, or [`give_up`](Folder::give_up).
///
/// The bytes of a folder's files may be known, as those of a folder in memory are. Then it is known which bytes its
/// readers have left and its writers hold. So what is read is what an opening of the name gives, and what is put under
/// a name is what was written. Two openings of a name need not give the same bytes, nor those that were put there. Of a
/// folder on a disk nothing is known.
pub trait Folder {
    /// A file to be read.
    type In: Read + Drop;

    /// A file to be written.
    type Out: Write;

    // What is known of its files.
    ghost view: { Self → View };

    /// Shows how many bytes a master's file will have, and its certificate at most. A folder need not show it.
    fn show_sizes(&self, master: u64, most_of_certificate: u64) {
        let _ = (master, most_of_certificate);
    }

    /// Long work begins. [`show_work`](Folder::show_work) shows how far it has come, up to
    /// [`end_work`](Folder::end_work).
    fn begin_work(&mut self, work: Work)
        ensures same { view self.new ≡ view self.old }
    {
        let _ = work;
    }

    /// Shows how many of all parts of the work that began are done. A folder need not show it.
    fn show_work(&self, done: usize, all: usize) {
        let _ = (done, all);
    }

    /// The work is over, or failed: what was shown of it is cleared.
    fn end_work(&mut self)
        ensures same { view self.new ≡ view self.old }
    {}

    /// The file of a name, from its start.
    ///
    /// Refusal: `FolderFault` if there is none that can be read.
    fn open(&mut self, name: &str) -> Result<Self::In, FolderFault>
        ensures same { view self.new ≡ view self.old }
        ensures bytes { IfOk result (λ r. IsGiven (view self.old) name.now (Self.In.remaining r)) };

    /// Whether the file of a name can be opened again later, and has its bytes again then: not so of a pipe. The answer
    /// only tells a command which way to take: the bytes may have changed all the same.
    fn reopens(&self, name: &str) -> bool {
        let _ = name;
        true
    }

    /// One read of a file, for who looks at none of the bytes that come. So a folder may pass over them. Nothing is known
    /// of the bytes that the buffer then holds.
    ///
    /// Refusal: an error of any kind, of which no byte came.
    fn pass(&self, file: &mut Self::In, buffer: &mut [u8]) -> io::Result<usize>
        ensures bound { ReadsAtMost result buffer.new }
        ensures bytes { MovesOn (Self.In.remaining file.old) (Self.In.remaining file.new) result (length buffer.new) }
    {
        file.read(buffer)
    }

    /// The files that were opened so far may not be replaced from now on: to create one fails. A folder in which one name
    /// is one file need not know it.
    fn protect(&mut self)
        ensures same { view self.new ≡ view self.old }
    {}

    /// Reserves the memory that is needed to create a file of this name after the next one. A folder reserves nothing if
    /// it needs no memory, or if it lets `create` fail when memory runs out.
    ///
    /// Refusal: `FolderFault` if memory runs out, or if it is known that the file can't be created.
    fn hold(&mut self, name: &str) -> Result<(), FolderFault>
        ensures same { view self.new ≡ view self.old }
    {
        let _ = name;
        Ok(())
    }

    /// A new file without bytes, to be written and then kept under the same name.
    ///
    /// Refusal: `FolderFault` if none can be made. A folder may refuse one that is [protected](Folder::protect), or is the
    /// one whose memory is reserved.
    fn create(&mut self, name: &str) -> Result<Self::Out, FolderFault>
        ensures same { view self.new ≡ view self.old }
        ensures empty { IfOk result (λ w. IsTrue (view self.old).is_known → Self.Out.contents w ≡ Some []) };

    /// Puts a created file under its name, as it was written.
    ///
    /// Refusal: `FolderFault` if it can't be kept.
    fn keep(&mut self, name: &str, out: Self::Out) -> Result<(), FolderFault>
        ensures others { KeepsOthers name.now (view self.old) (view self.new) }
        ensures bytes { OnOk result (IsTrue (view self.old).is_known
            → (view self.new).file name.now ≡ Self.Out.contents out) }
        ensures refused { OnErr result ((view self.new).file name.now ≡ (view self.old).file name.now) };

    /// Ends a created file whose writing failed. Either it is put under its name as far as it was written, or what was
    /// under the name stays. A folder that keeps old files leaves an old file as it was.
    fn give_up(&mut self, name: &str, out: Self::Out)
        ensures others { KeepsOthers name.now (view self.old) (view self.new) }
        ensures left { IsTrue (view self.old).is_known
            → IsGivenUp name.now (view self.old) (view self.new) (Self.Out.contents out) };
}
