//! Plays a file of a folder to another as DoP samples.

ghost use Rattle.transfer_commands.specs.DopPlaying.{DopComesTo, PlayDopComesTo};

use crate::fault::CommandFault;
use chunk_core::{Inlet, Outlet};
use dop_core::play_dop;
use folder_core::{Folder, hand_back};
use std::alloc::Global;
use std::io::{Read, Write};
use transfer_core::Fault;

/// Opens a recording, creates a WAVE file and plays the one to the other as DoP samples. Returns how many bytes the WAVE
/// file has. After a fault of playing it may hold a prefix of what was due, but a folder that keeps old files keeps an
/// old one.
pub fn play_dop_file<F: Folder>(
    alloc: Global,
    folder: &mut F,
    input: &str,
    output: &str,
) -> Result<u64, CommandFault>
    ensures { PlayDopComesTo input.now output.now (F.view folder.old) (F.view folder.new) result }
{
    let Ok(file) = folder.open(input) else {
        return Err(CommandFault::ReadFailed);
    };
    let Ok(wave) = folder.create(output) else {
        return Err(CommandFault::WriteFailed);
    };
    let (played, wave) = play_between(alloc, file, wave);
    let handed = hand_back(folder, output, &played, wave);
    match played {
        Ok(count) => match handed {
            Ok(()) => Ok(count),
            Err(_) => Err(CommandFault::WriteFailed),
        },
        Err(fault) => Err(CommandFault::Call(fault)),
    }
}

// Plays a reader's file to a writer, and returns that.
fn play_between<R: Read + Drop, W: Write>(
    alloc: Global,
    file: R,
    wave: W,
) -> (Result<u64, Fault>, W)
    ensures { DopComesTo (R.remaining file) (W.contents wave) (W.contents result.1) result.0 }
{
    let mut inlet = Inlet::new(file);
    let mut outlet = Outlet::new(wave);
    let played = play_dop(alloc, &mut inlet, &mut outlet);
    let wave = outlet.into_inner();
    match played {
        Ok(count) => (Ok(count), wave),
        Err(unread) => (Err(Fault::from(unread)), wave),
    }
}
