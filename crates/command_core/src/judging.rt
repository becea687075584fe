//! Judges a master by a certificate that is opened and read to its end.

ghost use Rattle.std.specs.Prelude.{IfErr, IfOk, List, None, ℕ};
ghost use Rattle.request_core.specs.Cutting.{SaysCut};
ghost use Rattle.judge_core.specs.Finding.{FindsHeld, IsFoundHeld, IsFoundInSome};
ghost use Rattle.transfer_commands.specs.Outlining.{IsUnread};
ghost use Rattle.command_core.specs.Commands.{IsLeastIfAccepted, JudgesBy};

use cert_core::CertReader;
use chunk_core::{FusedInlet, Inlet, MOST_READS};
use cut_core::Cut;
use folder_core::reads_to_end;
use form_core::ReadFault;
use judge_core::{Found, Verdict, check_found};
use sound_core::StreamFault;
use std::alloc::Global;
use std::io::{BufReader, Read};
use transfer_commands::CommandFault;
use transfer_core::Fault;

/// How many bytes one read asks for.
const BLOCK: usize = 65_536;

/// Judges a master by what was found in it and by a certificate that was opened. It holds two rows and a block of the
/// certificate at a time. Whatever the verdict is, the certificate is read to its end before the verdict is returned.
///
/// Refusals: `ReadFailed` if a read fails, or the certificate isn't at its end after `2^40` reads; `Memory`.
pub(crate) fn judge_opened<R: Read + Drop>(
    alloc: Global,
    cut: &Cut,
    found: &Result<Found, ReadFault>,
    cert: R,
) -> Result<Verdict, CommandFault>
    requires { IsFoundInSome cut.now found.now }
    // Whichever project and files it is the cut of, and whichever file it was found in, what is accepted is least.
    ensures least { (project : List ℕ) (files : List (List ℕ)) (file : List ℕ) → SaysCut project files None cut.now
        → IfOk found.now (FindsHeld cut.now file) → IfOk result (IsLeastIfAccepted project files file) }
    ensures judged { (project : List ℕ) (files : List (List ℕ)) (file : List ℕ) → SaysCut project files None cut.now
        → IsFoundHeld cut.now file found.now → IfOk result (JudgesBy project files file (R.remaining cert)) }
    ensures fault { IfErr result IsUnread }
{
    let fused = FusedInlet::new(cert, MOST_READS);
    let Ok(buffered) = BufReader::with_capacity(alloc, BLOCK, fused) else {
        return Err(CommandFault::Call(Fault::Memory));
    };
    let mut reader = CertReader::new(Inlet::new(buffered));
    let came = check_found(alloc, cut, found, &mut reader);
    if !reads_to_end(&mut reader.into_inlet()) {
        return Err(CommandFault::ReadFailed);
    }
    match came {
        Ok(verdict) => Ok(verdict),
        Err(Fault::Stream(StreamFault::ReadFailed)) => Err(CommandFault::ReadFailed),
        Err(fault) => Err(CommandFault::Call(fault)),
    }
}
