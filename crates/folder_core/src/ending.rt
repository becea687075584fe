//! Reads files to their ends and keeps nothing of them.

ghost use Rattle.std.specs.Prelude.{◌≡◌, true};
ghost use Rattle.std.specs.Io.KnownBytes.{IsAtEnd};
ghost use Rattle.chunk_core.specs.Inlets.{inlet_reader};
ghost use Rattle.folder_core.specs.Files.{Opens};

use crate::folder::Folder;
use chunk_core::{Inlet, MOST_READS};
use std::io::Read;

/// Reads what is left and keeps none of it. Returns whether it reached the end. After a read that failed it reads
/// nothing.
pub fn reads_to_end<R: Read>(inlet: &mut Inlet<R>) -> bool
    ensures { result ≡ true → IsAtEnd (R.remaining (inlet_reader inlet.new)) }
{
    let mut block = [0u8; 4096];
    if inlet.failures() > 0 {
        return false;
    }
    for _turn in 0..MOST_READS {
        match inlet.pull(&mut block) {
            Ok(0) => return true,
            Ok(_) => {}
            Err(_) => return false,
        }
    }
    false
}

/// Opens a file, reads it and keeps none of it. Returns whether it could be opened and reached the end.
pub fn reads_through<F: Folder>(folder: &mut F, name: &str) -> bool
    ensures same { F.view folder.new ≡ F.view folder.old }
    ensures opened { result ≡ true → Opens (F.view folder.old) name.now }
{
    match folder.open(name) {
        Ok(file) => reads_to_end(&mut Inlet::new(file)),
        Err(_) => false,
    }
}
