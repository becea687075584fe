//! The first fault of a DSDIFF file whose first chunks tell that it holds no recording. Later chunks are passed.

ghost use Rattle.std.specs.Prelude.{◌≡◌, ◌<◌, ◌-◌, List, ℕ, IfErr, IfOk, OnOk, length};
ghost use Rattle.chunk_core.specs.declared.inlet.Inlet.{Inlet};
ghost use Rattle.sound_core.specs.Causes.{IsUnsure, NamesUnsure};
ghost use Rattle.sound_core.specs.Faults.{IsReadingFault};
ghost use Rattle.sound_core.specs.Passing.{EndLater, EndsWith, IsOn, NamesFrom, WalksFrom};
ghost use Rattle.sound_core.specs.Readers.{Counts, IsReading, IsSame};

use crate::cause::Cause;
use crate::fault::StreamFault;
use crate::reader::SoundReader;
use chunk_core::{Head, Order, head};
use dsdiff_core::{FaultyStart, fault_after, next_chunk};
use form_core::ReadFault;
use std::io::Read;

/// How far chunks of a form were passed.
#[derive(Clone, Copy)]
pub(crate) enum Passed {
    /// To the next chunk: what those before it tell.
    More(FaultyStart),
    /// To the end of the form or the file: what all whole chunks tell, and the header of the next one, if there is one.
    All(FaultyStart, Option<Head>),
}

/// The first fault of a DSDIFF file whose first chunks tell that it holds no recording.
pub(crate) fn name_faulty<R: Read>(
    reader: &mut SoundReader<'_, R>,
    start: FaultyStart,
) -> Result<ReadFault, StreamFault>
    requires known { (first : Inlet R) × IsUnsure R.remaining first reader.old (Cause.Faulty start) }
    ensures same { IsSame reader.old reader.new }
    ensures named { NamesUnsure R.remaining reader.old reader.new (Cause.Faulty start) result }
    ensures counts { Counts reader.old reader.new result }
    ensures fault { IfErr result IsReadingFault }
{
    reader.drop_ahead(start.end + start.pad);
    name_passed(reader, start)
}

// The same, from the next chunk on.
fn name_passed<R: Read>(
    reader: &mut SoundReader<'_, R>,
    start: FaultyStart,
) -> Result<ReadFault, StreamFault>
    requires reading { IsReading reader.old }
    requires on { (file : List ℕ) × IsOn reader.old file start }
    ensures same { IsSame reader.old reader.new }
    ensures named { NamesFrom R.remaining reader.old reader.new start result }
    ensures counts { Counts reader.old reader.new result }
    ensures fault { IfErr result IsReadingFault }
{
    let mut now = start;
    loop {
        match pass_chunk(reader, now)? {
            Passed::More(next) => now = next,
            Passed::All(last, next) => {
                let total = reader.inlet.given() - reader.given;
                return Ok(ReadFault::from(fault_after(last, next, total)));
            }
        }
    }
}

// Passes the next chunk, or what is there of it. Where its data go past the form, the form is passed.
fn pass_chunk<R: Read>(
    reader: &mut SoundReader<'_, R>,
    start: FaultyStart,
) -> Result<Passed, StreamFault>
    requires reading { IsReading reader.old }
    requires on { (file : List ℕ) × IsOn reader.old file start }
    ensures same { IsSame reader.old reader.new }
    ensures reading { OnOk result (IsReading reader.new) }
    ensures passed { WalksFrom R.remaining reader.old reader.new start result }
    ensures later { IfOk result (EndLater start) }
    ensures counts { Counts reader.old reader.new result }
    ensures fault { IfErr result IsReadingFault }
{
    let left = left_of(start);
    let wanted = left.min(16);
    reader.read_until(wanted)?;
    if (reader.ahead.len() as u64) < wanted {
        let (last, next) = last_passed(start, reader.ahead.as_slice());
        return Ok(Passed::All(last, next));
    }
    let bytes = reader.ahead.as_slice();
    let begun = head(Order::Big, bytes, 0);
    let Some(next) = next_chunk(start, bytes) else {
        let _whole = reader.pass(left)?;
        return Ok(Passed::All(start, begun));
    };
    reader.drop_ahead(12);
    if !reader.pass(next.size)? {
        return Ok(Passed::All(start, begun));
    }
    if !reader.pass(next.after.pad as u64)? {
        return Ok(Passed::All(next.after, None));
    }
    Ok(Passed::More(next.after))
}

// How many bytes the form has from the next chunk on.
fn left_of(start: FaultyStart) -> u64
    ensures { result ≡ start.form - (start.end - 12) - start.pad }
{
    start
        .form
        .saturating_sub((start.end as u64).saturating_sub(12))
        .saturating_sub(start.pad as u64)
}

// What all whole chunks tell of a file that ends with these bytes, which are fewer than 16 from the next chunk on, and
// the header of the next one.
fn last_passed(start: FaultyStart, bytes: &[u8]) -> (FaultyStart, Option<Head>)
    requires { length bytes.now < 16 }
    ensures { EndsWith start bytes.now result.0 result.1 }
{
    match next_chunk(start, bytes) {
        Some(next) if next.size <= (bytes.len() - 12) as u64 => (next.after, None),
        _ => (start, head(Order::Big, bytes, 0)),
    }
}
