//! A writer to something that is written directly, such as a pipe.

ghost use Rattle.std.specs.Prelude.{◌≡◌, ◌∷◌, [], OnOk};
ghost use Rattle.std.specs.Io.KnownBytes.{Appends, Keeps};
ghost use Rattle.std.specs.Io.{WritesAtMost};
ghost use Rattle.folder_core.specs.DiskFiles.{TakesBytes, direct_contents, held_bytes};

use std::io;
use std::io::Write;

/// A writer that holds back the last byte until more comes. So the pad byte of a file is written together with the byte
/// before it. A reader that needs no pad may close the pipe once it has all it needs, and the pad is then already in
/// the pipe.
#[derive(Drop)]
pub(crate) struct Direct<W> {
    to: W,
    kept: Kept,
}

// The bytes that were taken and have yet to be written.
#[derive(Clone, Copy)]
enum Kept {
    None,
    One(u8),
    Two(u8, u8),
}

impl<W> Direct<W> {
    pub(crate) fn new(to: W) -> Direct<W>
        ensures writer { result.to ≡ to }
        ensures empty { held_bytes result.kept ≡ [] }
    {
        Direct {
            to,
            kept: Kept::None,
        }
    }

    /// The writer to which the bytes go.
    pub(crate) fn get_ref(&self) -> &W {
        &self.to
    }
}

impl<W: Write> Direct<W> {
    /// Takes bytes, and holds back the last.
    pub(crate) fn write(&mut self, buf: &[u8]) -> io::Result<usize>
        ensures bound { WritesAtMost result buf.now }
        ensures bytes { TakesBytes (direct_contents W.contents self.old) (direct_contents W.contents self.new) result
            buf.now }
    {
        if buf.is_empty() {
            return Ok(0);
        }
        let last = buf[buf.len() - 1];
        if buf.len() == 1 {
            self.keep(last)?;
            return Ok(1);
        }
        self.flush()?;
        let prefix = &buf[..buf.len() - 1];
        let count = self.to.write(prefix)?;
        if count < prefix.len() {
            return Ok(count);
        }
        self.kept = Kept::One(last);
        Ok(buf.len())
    }

    // Holds back one more byte.
    fn keep(&mut self, byte: u8) -> io::Result<()>
        ensures { OnOk result (Appends (direct_contents W.contents self.old) (direct_contents W.contents self.new)
            (byte ∷ [])) }
    {
        if let Kept::Two(_, _) = self.kept {
            self.flush()?;
        }
        self.kept = match self.kept {
            Kept::One(first) => Kept::Two(first, byte),
            _ => Kept::One(byte),
        };
        Ok(())
    }

    /// Writes what was held back, in one write if the system takes it whole.
    pub(crate) fn flush(&mut self) -> io::Result<()>
        ensures bytes { OnOk result (Keeps (direct_contents W.contents self.old) (W.contents self.new.to)) }
        ensures empty { held_bytes self.new.kept ≡ [] }
    {
        let kept = self.kept;
        self.kept = Kept::None;
        match kept {
            Kept::None => {}
            Kept::One(first) => self.to.write_all(&[first])?,
            Kept::Two(first, second) => self.to.write_all(&[first, second])?,
        }
        self.to.flush()
    }
}
