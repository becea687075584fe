//! Forms whose first chunks tell that their file holds no recording.

ghost use Rattle.std.specs.Prelude.{◌≡◌, ◌≤◌, ◌<◌, ◌+◌, ◌++◌, ◌^◌, ◌%◌, ◌||◌, All, List, ℕ, Err, IfNone, IfOk, IfSome, IsNone, Ok, drop, length, take};
ghost use Rattle.chunk_core.specs.declared.layout.Span.{Span};
ghost use Rattle.chunk_core.specs.Places.{LiesIn};
ghost use Rattle.chunk_core.specs.Reading.{spans_in};
ghost use Rattle.dsdiff_core.specs.Faulty.{AreNext, EndsInNext, HaveFault, HaveNone, IsFaulty, IsNextHead, IsSeen, JudgesNext, TellFault, TellNone, fault_with, is_second_after, kinds_of, next_place};
ghost use Rattle.dsdiff_core.specs.Fields.{form_size};
ghost use Rattle.dsdiff_core.specs.Headers.{form_of, size_at};
ghost use Rattle.dsdiff_core.specs.Kinds.{is_property};
ghost use Rattle.dsdiff_core.specs.Held.{MayBeInMemory, held};
ghost use Rattle.dsdiff_core.specs.Reading.{recording_of};
ghost use Rattle.dsdiff_core.specs.Steps.{Gives};

use crate::fault::DsdiffFault;
use crate::form::require_version;
use crate::header::check_form;
use crate::held::{Held, whole};
use crate::once::refuse_second_in_form;
use crate::property::read_property;
use crate::spans::{first_sound_property, first_with};
use chunk_core::{ChunkFault, Head, Order, Span, head, u64_at, walk};
use std::alloc::{AllocError, Global};

/// What the first chunks of a form tell of the first fault of its file, which holds no recording.
#[derive(Clone, Copy)]
pub struct FaultyStart {
    /// How many bytes the form has after its size.
    pub form: u64,
    /// Where the data of the last of these chunks end.
    pub end: usize,
    /// How many bytes of pad follow them.
    pub pad: usize,
    /// The fault, if the form is whole and a list of chunks.
    pub fault: DsdiffFault,
    /// Whether a later chunk that is the second of its kind comes before this fault.
    pub is_open: bool,
    /// Whether a version is among these chunks.
    pub version: bool,
    /// Whether a sound property is among them.
    pub property: bool,
    /// Whether a sound is among them.
    pub sound: bool,
}

/// The next chunk of a form, and what it adds to what the first ones tell.
#[derive(Clone, Copy)]
pub struct NextChunk {
    /// How many bytes of data it has.
    pub size: u64,
    /// What is known once it is passed.
    pub after: FaultyStart,
}

/// What the chunks of a form before the place `at` tell of the first fault of each file that begins with `prefix`. It is
/// `None` if `at` isn't an even place in the form where a chunk ends, or if these chunks have no fault in their
/// version, in the kinds that may occur once, or in their sound property.
///
/// The only refusal is out of memory.
pub fn faulty_start(
    alloc: Global,
    prefix: &[u8],
    at: usize,
) -> Result<Option<FaultyStart>, AllocError>
    ensures place { IfOk result (λ o. IfSome o (λ s. (next_place s ≡ at) × (at ≤ length prefix.now))) }
    ensures faulty { IfOk result (λ o. IfSome o (λ s. (rest : List ℕ) → IsFaulty (prefix.now ++ rest) s)) }
    // It is the fault of these chunks, and none only if they have none.
    ensures fault { IfOk result (λ o. IfSome o (λ s. HaveFault prefix.now at s.fault s.is_open)) }
    ensures none { IfOk result (λ o. IfNone o (HaveNone prefix.now at)) }
{
    if at < 16 || at % 2 != 0 || prefix.len() < at {
        return Ok(None);
    }
    let Ok(()) = check_form(prefix) else {
        return Ok(None);
    };
    let form = u64_at(Order::Big, prefix, 4);
    if form < at as u64 - 12 {
        return Ok(None);
    }
    match walk(alloc, prefix, 16, at) {
        Ok(lead) => start_of(alloc, prefix, &lead, form, at),
        Err(ChunkFault::Memory) => Err(AllocError),
        Err(_) => Ok(None),
    }
}

// The same by these chunks.
fn start_of(
    alloc: Global,
    prefix: &[u8],
    lead: &[Span],
    form: u64,
    at: usize,
) -> Result<Option<FaultyStart>, AllocError>
    requires begins { form_of prefix.now ≡ Ok tt }
    requires form { form ≡ form_size prefix.now }
    requires place { (16 ≤ at) × (at % 2 ≡ 0) × (at ≤ length prefix.now) × (at ≤ 12 + form) }
    requires found { spans_in prefix.now 16 at ≡ Ok lead.now }
    requires inside { All (LiesIn 16 at) lead.now }
    ensures place { IfOk result (λ o. IfSome o (λ s. next_place s ≡ at)) }
    ensures faulty { IfOk result (λ o. IfSome o (λ s. (rest : List ℕ) → IsFaulty (prefix.now ++ rest) s)) }
    ensures fault { IfOk result (λ o. IfSome o (λ s. TellFault prefix.now lead.now s.fault s.is_open)) }
    ensures none { IfOk result (λ o. IfNone o (TellNone prefix.now lead.now)) }
{
    let file = whole(prefix);
    let Some((fault, is_open)) = fault_of(alloc, file, lead)? else {
        return Ok(None);
    };
    Ok(Some(FaultyStart {
        form,
        end: at,
        pad: 0,
        fault,
        is_open,
        version: first_with(lead, *b"FVER").is_some(),
        property: first_sound_property(file, lead).is_some(),
        sound: first_with(lead, *b"DSD ").is_some(),
    }))
}

// The fault of these chunks, and whether a later one may come before it.
fn fault_of(
    alloc: Global,
    file: Held,
    lead: &[Span],
) -> Result<Option<(DsdiffFault, bool)>, AllocError>
    requires { All (MayBeInMemory file) lead.now }
    ensures fault { IfOk result (λ o. IfSome o (λ x. TellFault (held file.entry) lead.now x.0 x.1)) }
    ensures none { IfOk result (λ o. IfNone o (TellNone (held file.entry) lead.now)) }
{
    if lead.is_empty() {
        return Ok(None);
    }
    match judge_kinds(file, lead) {
        Ok(()) => property_fault(alloc, file, lead),
        Err(DsdiffFault::Memory) => Err(AllocError),
        Err(fault) => Ok(Some((fault, false))),
    }
}

// Refuses a first chunk that is no version, and the second of a kind that may be there once.
fn judge_kinds(file: Held, lead: &[Span]) -> Result<(), DsdiffFault>
    requires { All (MayBeInMemory file) lead.now }
    ensures { Gives (λ _. tt) result (kinds_of (held file.entry) lead.now) }
{
    require_version(file, lead)?;
    refuse_second_in_form(file, lead)
}

// The same where version and kinds are as they must be.
fn property_fault(
    alloc: Global,
    file: Held,
    lead: &[Span],
) -> Result<Option<(DsdiffFault, bool)>, AllocError>
    requires held { All (MayBeInMemory file) lead.now }
    requires kinds { kinds_of (held file) lead.now ≡ Ok tt }
    ensures fault { IfOk result (λ o. IfSome o (λ x. TellFault (held file.entry) lead.now x.0 x.1)) }
    ensures none { IfOk result (λ o. IfNone o (TellNone (held file.entry) lead.now)) }
{
    if first_sound_property(file, lead).is_none() {
        return Ok(None);
    }
    match read_property(alloc, file, lead) {
        Ok(_) => Ok(None),
        Err(DsdiffFault::Memory) => Err(AllocError),
        Err(fault) => Ok(Some((fault, true))),
    }
}

/// The next chunk of a form, by its first bytes: its head and four bytes of data, if there are so many. It is `None` if
/// its data go past the form, or no head of it is there.
pub fn next_chunk(start: FaultyStart, bytes: &[u8]) -> Option<NextChunk>
    ensures head { IfSome result (λ n. 12 ≤ length bytes.now) }
    ensures size { IfSome result (λ n. (file : List ℕ) → AreNext file start bytes.now
        → n.size ≡ size_at file (next_place start)) }
    // It is passed, where the file has all of it.
    ensures after { IfSome result (λ n. (file : List ℕ) → IsFaulty file start → AreNext file start bytes.now
        → next_place start + 12 + n.size ≤ length file → next_place start + 12 + n.size < 2 ^ 64
        → IsFaulty file n.after × (n.after.end ≡ next_place start + 12 + n.size)) }
    // It is the last of which the form has bytes.
    ensures last { IsNone result → 12 ≤ length bytes.now → (file : List ℕ) → IsFaulty file start
        → AreNext file start bytes.now → next_place start < 2 ^ 64 → EndsInNext file start }
{
    let Some(chunk) = head(Order::Big, bytes, 0) else {
        return None;
    };
    let at = start.end.saturating_add(start.pad);
    if start.form < at as u64 || start.form - (at as u64) < chunk.size {
        return None;
    }
    let judged = judged_after(start, chunk.id, is_property_head(chunk, bytes));
    Some(NextChunk {
        size: chunk.size,
        after: FaultyStart {
            form: start.form,
            end: at.saturating_add(12).saturating_add(chunk.size as usize),
            pad: chunk.size as usize % 2,
            fault: judged.fault,
            is_open: judged.is_open,
            version: judged.version,
            property: judged.property,
            sound: judged.sound,
        },
    })
}

// Whether the chunk with this head, the first of some bytes, is a sound property, as far as these bytes tell it.
fn is_property_head(chunk: Head, bytes: &[u8]) -> bool
    requires { 12 ≤ length bytes.now }
    ensures { result ≡ is_property (record { id = chunk.id; content = take chunk.size (drop 12 bytes.now) }) }
{
    let count = chunk.size.min((bytes.len() - 12) as u64) as usize;
    chunk.id == *b"PROP" && bytes[12..12 + count].starts_with(b"SND ")
}

// What is known once one more chunk is passed, but where that ends.
fn judged_after(start: FaultyStart, id: [u8; 4], is_property: bool) -> FaultyStart
    ensures { JudgesNext start id is_property result }
{
    let is_version = id == *b"FVER";
    let is_sound = id == *b"DSD ";
    let second = is_second(start, is_version, is_property, is_sound);
    let (fault, is_open) = fault_with(start, id, second);
    FaultyStart {
        form: start.form,
        end: start.end,
        pad: start.pad,
        fault,
        is_open,
        version: either(start.version, is_version),
        property: either(start.property, is_property),
        sound: either(start.sound, is_sound),
    }
}

// Whether a chunk of these kinds is the second of one.
fn is_second(start: FaultyStart, is_version: bool, is_property: bool, is_sound: bool) -> bool
    ensures { result ≡ is_second_after start is_version is_property is_sound }
{
    is_version && start.version || is_property && start.property || is_sound && start.sound
}

// The fault with a chunk of this ID, and whether a later one may come before it.
fn fault_with(start: FaultyStart, id: [u8; 4], second: bool) -> (DsdiffFault, bool)
    ensures { (result.0, result.1) ≡ fault_with start.fault start.is_open id second }
{
    if start.is_open {
        if second {
            return (DsdiffFault::Twice(id), false);
        }
    }
    (start.fault, start.is_open)
}

fn either(a: bool, b: bool) -> bool
    ensures { result ≡ (a || b) }
{
    a || b
}

/// The first fault of a file whose form begins with these chunks, of which `total` bytes were read: all of it, or its
/// form and perhaps more. `next` is the header of the next chunk, if it has one.
pub fn fault_after(start: FaultyStart, next: Option<Head>, total: u64) -> DsdiffFault
    ensures { (file : List ℕ) → IsFaulty file start → IsSeen file total → EndsInNext file start
        → IsNextHead file start next → recording_of file ≡ Err result }
{
    if total < 11 || total - 11 < start.form {
        return DsdiffFault::FormCut {
            size: start.form,
            missing: start.form - total.saturating_sub(12),
        };
    }
    let end = start.end as u64;
    let in_form = start.form.saturating_sub(end.saturating_sub(12));
    let left = in_form.min(total.saturating_sub(end));
    let pad = start.pad as u64;
    if left <= pad {
        return start.fault;
    }
    let place = start.end.saturating_add(start.pad);
    match next {
        Some(head) if left - pad >= 12 => {
            let Head { id, size } = head;
            DsdiffFault::Chunk(ChunkFault::DataCut { place, id, size })
        }
        _ => DsdiffFault::Chunk(ChunkFault::HeadCut(place)),
    }
}
