//! The first fault of a file that holds no recording, where only what follows its prefix tells it.

ghost use Rattle.std.specs.Prelude.{◌≡◌, ◌≢◌, ◌+◌, ◌≤◌, ◌++◌, IfErr, IfOk, OnOk, length};
ghost use Rattle.chunk_core.specs.Inlets.{inlet_reads};
ghost use Rattle.chunk_core.specs.declared.inlet.Inlet.{Inlet};
ghost use Rattle.dsdiff_core.specs.Cuts.{GoesPastForm};
ghost use Rattle.dsdiff_core.specs.Fields.{form_size};
ghost use Rattle.dsdiff_core.specs.Located.{EndsAtHead};
ghost use Rattle.form_core.specs.Faults.{dsdiff_fault};
ghost use Rattle.sound_core.specs.Causes.{AnswersCause, AnswersFault, CountsAnswer, HasCause, IsRefusedBy, IsUnreadBy, IsUnsure, NamesUnsure, unread_of};
ghost use Rattle.sound_core.specs.Faults.{IsReadingFault};
ghost use Rattle.sound_core.specs.Naming.{IsFaultAround, NamesRead, plain};
ghost use Rattle.sound_core.specs.Readers.{BuffersUntil, Counts, CountsFault, IsAfter, IsReading, IsSame};

use crate::cause::Cause;
use crate::fault::{StreamFault, Unread};
use crate::header::fault_of;
use crate::passing::name_faulty;
use crate::reader::SoundReader;
use chunk_core::{Order, u64_at};
use dsdiff_core::DsdiffFault;
use form_core::ReadFault;
use std::alloc::Global;
use std::io::Read;

/// Why a file isn't read, by the fault with which its reading ended. Of a file that is refused as much more is read as
/// tells its first fault, at most to its end or that of its DSDIFF form. Nothing of its sound is held.
pub(crate) fn unread<R: Read>(
    alloc: Global,
    fault: StreamFault,
    reader: &mut SoundReader<'_, R>,
) -> Unread
    requires known { fault ≡ StreamFault.FileRefused → HasCause R.remaining reader.old }
    requires counted { inlet_reads reader.old.inlet.now ≤ reader.old.limit }
    ensures same { IsSame reader.old reader.new }
    ensures named { AnswersFault R.remaining reader.old reader.new fault result }
    ensures how { IsUnreadBy fault reader.old reader.new result }
    ensures counts { CountsAnswer reader.old reader.new fault result }
{
    match fault {
        StreamFault::FileRefused => refusal_of(alloc, reader),
        fault => Unread::Stream(fault),
    }
}

// The same for a file that is refused, by what is known of its first fault.
fn refusal_of<R: Read>(alloc: Global, reader: &mut SoundReader<'_, R>) -> Unread
    requires known { HasCause R.remaining reader.old }
    requires counted { inlet_reads reader.old.inlet.now ≤ reader.old.limit }
    ensures same { IsSame reader.old reader.new }
    ensures named { AnswersCause R.remaining reader.old reader.new result }
    ensures how { IsRefusedBy reader.old.cause result }
    ensures counts { CountsFault reader.old reader.new (plain result) }
{
    match reader.cause {
        Cause::Fault(fault) => Unread::Refused(fault),
        Cause::Unstated(at) => unread_of(name_untold(alloc, reader, at)),
        Cause::PastForm(at) => unread_of(name_past_form(alloc, reader, at)),
        Cause::Faulty(start) => unread_of(name_faulty(reader, start)),
        Cause::NoSound => unread_of(name_soundless(alloc, reader)),
        Cause::Unknown => Unread::Stream(StreamFault::FileRefused),
    }
}

// The first fault of a file, or that of reading on for it.
fn unread_of(came: Result<ReadFault, StreamFault>) -> Unread
    ensures { result ≡ unread_of came }
{
    match came {
        Ok(fault) => Unread::Refused(fault),
        Err(fault) => Unread::Stream(fault),
    }
}

// The first fault of a DSDIFF file whose sound's head is at this place: its sound is passed, and what follows is read.
fn name_untold<R: Read>(
    alloc: Global,
    reader: &mut SoundReader<'_, R>,
    at: usize,
) -> Result<ReadFault, StreamFault>
    requires known { (first : Inlet R) × IsUnsure R.remaining first reader.old (Cause.Unstated at) }
    ensures same { IsSame reader.old reader.new }
    ensures named { NamesUnsure R.remaining reader.old reader.new (Cause.Unstated at) result }
    ensures counts { Counts reader.old reader.new result }
    ensures fault { IfErr result IsReadingFault }
{
    let head = reader.take_head(alloc, at + 12)?;
    name_after(alloc, &head, reader)
}

// The same, by the head, which was taken from the buffered bytes.
fn name_after<R: Read>(
    alloc: Global,
    head: &[u8],
    reader: &mut SoundReader<'_, R>,
) -> Result<ReadFault, StreamFault>
    requires head { EndsAtHead head.now }
    requires reading { IsReading reader.old }
    requires given { IsAfter reader.old (length head.now) }
    ensures same { IsSame reader.old reader.new }
    ensures named { NamesRead R.remaining reader.old reader.new (head.now ++ reader.old.ahead.now.items) result }
    ensures counts { Counts reader.old reader.new result }
    ensures fault { IfErr result IsReadingFault }
{
    let size = u64_at(Order::Big, head, head.len() - 8);
    if !reader.pass(size)? {
        let total = reader.inlet.given() - reader.given;
        return Ok(ReadFault::from(dsdiff_core::cut_fault(head, total)));
    }
    reader.read_until(dsdiff_core::bytes_after_sound(head))?;
    fault_around(alloc, head, reader.ahead.as_slice())
}

// The first fault of a DSDIFF file that holds no recording, by what is around its sound. Of any other it is `Memory`.
fn fault_around(alloc: Global, head: &[u8], back: &[u8]) -> Result<ReadFault, StreamFault>
    requires { EndsAtHead head.now }
    ensures named { IfOk result (IsFaultAround head.now back.now) }
    ensures fault { IfErr result (λ f. f ≡ StreamFault.Memory) }
{
    let Err(fault) = dsdiff_core::describe(alloc, head, back) else {
        return Err(StreamFault::Memory);
    };
    fault_stated(fault)
}

// A fault of a DSDIFF file, but for want of memory.
fn fault_stated(fault: DsdiffFault) -> Result<ReadFault, StreamFault>
    ensures stated { IfOk result (λ e. (fault ≢ DsdiffFault.Memory) × (e ≡ dsdiff_fault fault)) }
    ensures fault { IfErr result (λ f. f ≡ StreamFault.Memory) }
{
    match fault {
        DsdiffFault::Memory => Err(StreamFault::Memory),
        fault => Ok(ReadFault::from(fault)),
    }
}

// The first fault of a DSDIFF file with a chunk whose head is at this place, and whose data go past the form. It
// depends on whether the form is whole.
fn name_past_form<R: Read>(
    alloc: Global,
    reader: &mut SoundReader<'_, R>,
    at: usize,
) -> Result<ReadFault, StreamFault>
    requires known { (first : Inlet R) × IsUnsure R.remaining first reader.old (Cause.PastForm at) }
    ensures same { IsSame reader.old reader.new }
    ensures named { NamesUnsure R.remaining reader.old reader.new (Cause.PastForm at) result }
    ensures counts { Counts reader.old reader.new result }
    ensures fault { IfErr result IsReadingFault }
{
    let head = reader.take_head(alloc, at + 12)?;
    name_cut(&head, reader)
}

// The same, by the head, which was taken from the buffered bytes.
fn name_cut<R: Read>(head: &[u8], reader: &mut SoundReader<'_, R>) -> Result<ReadFault, StreamFault>
    requires past { GoesPastForm head.now }
    requires reading { IsReading reader.old }
    requires given { IsAfter reader.old (length head.now) }
    ensures same { IsSame reader.old reader.new }
    ensures named { NamesRead R.remaining reader.old reader.new (head.now ++ reader.old.ahead.now.items) result }
    ensures counts { Counts reader.old reader.new result }
    ensures fault { IfErr result IsReadingFault }
{
    let size = u64_at(Order::Big, head, 4);
    let _whole = reader.pass(size.saturating_sub(head.len() as u64 - 11))?;
    let total = reader.inlet.given() - reader.given;
    Ok(ReadFault::from(dsdiff_core::cut_fault(head, total)))
}

// The first fault of a DSDIFF file without sound: the rest of its form is read, of which no chunk is wanted.
fn name_soundless<R: Read>(
    alloc: Global,
    reader: &mut SoundReader<'_, R>,
) -> Result<ReadFault, StreamFault>
    requires known { (first : Inlet R) × IsUnsure R.remaining first reader.old Cause.NoSound }
    ensures same { IsSame reader.old reader.new }
    ensures named { NamesUnsure R.remaining reader.old reader.new Cause.NoSound result }
    ensures counts { Counts reader.old reader.new result }
    ensures fault { IfErr result IsReadingFault }
{
    read_form(reader)?;
    Ok(fault_of(alloc, reader.ahead.as_slice())?)
}

// Reads until the DSDIFF form that the buffered bytes begin with is buffered whole, or the file ends.
fn read_form<R: Read>(reader: &mut SoundReader<'_, R>) -> Result<(), StreamFault>
    requires reading { IsReading reader.old }
    requires long { 12 ≤ length reader.old.ahead.now.items }
    ensures same { IsSame reader.old reader.new }
    ensures read { OnOk result (BuffersUntil R.remaining reader.old reader.new
        (12 + form_size reader.old.ahead.now.items)) }
    ensures counts { Counts reader.old reader.new result }
    ensures fault { IfErr result IsReadingFault }
{
    let size = u64_at(Order::Big, reader.ahead.as_slice(), 4);
    if size > u64::MAX - 12 {
        return reader.read_all();
    }
    reader.read_until(size + 12)
}
