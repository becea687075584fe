//! What is written of a file whose loudspeakers are named as another form names them.

ghost use Rattle.std.specs.Prelude.{◌≡◌, ◌≢◌, ◌%◌, List, ℕ, IfErr, IfOk, IfSome, OnOk, false, length, true};
ghost use Rattle.dsd_bits.specs.Layouts as layouts;
ghost use Rattle.dsd_bits.specs.Sounds.{has_blocks};
ghost use Rattle.dsd_bits.specs.declared.interleaving.Interleaving.TheVariants as Interleaving;
ghost use Rattle.sound_core.specs.Relays.{Relays, RelaysPrefix};
ghost use Rattle.form_core.specs.Parts.{FitsIn, interleaving_in};
ghost use Rattle.sound_core.specs.Outlines.{AreStated, around_of};
ghost use Rattle.transfer_commands.specs.Outlining.{IsOutlined};
ghost use Rattle.speaker_core.specs.Reordered.{reordering_groups, reordering_size};
ghost use Rattle.transfer_commands.specs.Renaming.{HasNoLayout, IsRenaming, IsRenamingFault, RelaysRenamed, left_parts, plain_of};

use crate::speaking::reordered;
use chunk_core::{Inlet, Outlet};
use dsd_bits::{Description, Metadata, Recording};
use form_core::{Ends, Form, ends_in, has_shape, interleaving_in};
use sound_core::{NewFile, Outline, StreamFault, relay};
use speaker_core::{ReorderedFile, Reordering, Speakers, layout_ids, layout_with};
use std::alloc::{AllocError, Global};
use std::io::{Cursor, Read, Write};
use transfer_core::Fault;

/// What is written of a file.
#[derive(Drop)]
pub(crate) struct Renaming {
    /// The bytes before and after its sound.
    pub(crate) ends: Ends,
    /// The form of the file.
    pub(crate) form: Form,
    /// The order of its channels.
    pub(crate) reordering: Reordering,
}

/// The parts of a file that is read.
#[derive(Drop)]
pub(crate) struct Parts<R> {
    /// The bytes before its sound.
    pub(crate) head: Vec<u8>,
    /// The first bytes of its sound, as far as they were read.
    pub(crate) tail: Vec<u8>,
    /// The file, which has the others left.
    pub(crate) file: R,
}

/// What is written of a file of this outline as a file of the form that names its loudspeakers; none if no channel type
/// has those that its IDs name.
///
/// Refusals: `NotWholeBytes` if the form is DSDIFF and the number of bits of each channel isn't a multiple of 8;
/// `Memory`.
pub(crate) fn renaming_of(
    alloc: Global,
    outline: &Outline,
    form: Form,
) -> Result<Option<Renaming>, Fault>
    requires stated { AreStated (around_of outline.now) }
    ensures renamed { IfOk result (λ found. IfSome found (λ r. (file : List ℕ) → IsOutlined file outline.now
        → IsRenaming form (around_of outline.now) r)) }
    ensures fits { IfOk result (λ found. IfSome found (λ r. FitsIn r.form outline.now.sound.count)) }
    ensures none { IfOk result (HasNoLayout form (around_of outline.now)) }
    ensures refused { IfErr result (IsRenamingFault form (around_of outline.now)) }
{
    if !outline.sound.interleaving.has_blocks() {
        return match form {
            Form::Dsdiff => Ok(Some(as_it_is(alloc, outline, form)?)),
            Form::Dsf | Form::Dsf8 => with_layout(alloc, outline, form),
        };
    }
    match form {
        Form::Dsdiff => Ok(Some(with_ids(alloc, outline)?)),
        Form::Dsf | Form::Dsf8 => Ok(Some(as_it_is(alloc, outline, form)?)),
    }
}

// The DSDIFF file of a DSF file, with the IDs of its channel type.
fn with_ids(alloc: Global, outline: &Outline) -> Result<Renaming, Fault>
    requires stated { AreStated (around_of outline.now) }
    requires blocks { has_blocks outline.now.sound.interleaving ≡ true }
    ensures renamed { IfOk result (λ r. (file : List ℕ) → IsOutlined file outline.now
        → IsRenaming Form.Dsdiff (around_of outline.now) r) }
    ensures fits { IfOk result (λ r. FitsIn r.form outline.now.sound.count) }
    ensures refused { IfErr result (IsRenamingFault Form.Dsdiff (around_of outline.now)) }
{
    has_shape(&outline.recording);
    let layout = outline.recording.layout();
    let ids = layout_ids(alloc, layout)?;
    let recording = plain(alloc, &outline.recording, ids, layout)?;
    let ends = ends_in(alloc, &recording, Form::Dsdiff, outline.sound.count)?;
    Ok(Renaming {
        ends,
        form: Form::Dsdiff,
        reordering: in_place(alloc)?,
    })
}

// The DSF file of a DSDIFF file, with the channel type of its IDs, if there is one.
fn with_layout(alloc: Global, outline: &Outline, form: Form) -> Result<Option<Renaming>, Fault>
    requires stated { AreStated (around_of outline.now) }
    requires frames { has_blocks outline.now.sound.interleaving ≡ false }
    requires form { form ≢ Form.Dsdiff }
    ensures renamed { IfOk result (λ found. IfSome found (λ r. (file : List ℕ) → IsOutlined file outline.now
        → IsRenaming form (around_of outline.now) r)) }
    ensures fits { IfOk result (λ found. IfSome found (λ r. FitsIn r.form outline.now.sound.count)) }
    ensures none { IfOk result (HasNoLayout form (around_of outline.now)) }
    ensures refused { IfErr result (IsRenamingFault form (around_of outline.now)) }
{
    has_shape(&outline.recording);
    let speakers = Speakers::of_ids(alloc, outline.recording.ids())?;
    let Some(layout) = layout_with(speakers.mask) else {
        return Ok(None);
    };
    let ids = Vec::from_slice(alloc, outline.recording.ids())?;
    let recording = plain(alloc, &outline.recording, ids, layout)?;
    let ends = ends_in(alloc, &recording, form, outline.sound.count)?;
    let groups = speakers.moved_groups(outline.sound.count / 8);
    Ok(Some(Renaming {
        ends,
        form,
        reordering: Reordering::new(alloc, speakers.order, 1, groups)?,
    }))
}

// A file whose form names loudspeakers in the same way.
fn as_it_is(alloc: Global, outline: &Outline, form: Form) -> Result<Renaming, Fault>
    requires stated { AreStated (around_of outline.now) }
    requires same { has_blocks outline.now.sound.interleaving ≡ has_blocks (interleaving_in form) }
    ensures renamed { IfOk result (λ r. (file : List ℕ) → IsOutlined file outline.now
        → IsRenaming form (around_of outline.now) r) }
    ensures fits { IfOk result (λ r. FitsIn r.form outline.now.sound.count) }
    ensures refused { IfErr result (IsRenamingFault form (around_of outline.now)) }
{
    has_shape(&outline.recording);
    let ends = ends_in(alloc, &outline.recording, form, outline.sound.count)?;
    Ok(Renaming {
        ends,
        form,
        reordering: in_place(alloc)?,
    })
}

// The recording without its sound and all that is kept of it, with these IDs and this layout.
fn plain(
    alloc: Global,
    recording: &Recording,
    ids: Vec<[u8; 4]>,
    layout: u32,
) -> Result<Recording, AllocError>
    requires layout { layouts.layout_channels layout ≡ length ids.items }
    requires number { length ids.items ≡ length recording.now.ids }
    ensures { IfOk result (λ r. r ≡ plain_of recording.now ids.items layout) }
{
    has_shape(recording);
    let metadata = Metadata {
        marks: Vec::new(alloc),
        others: Vec::new(alloc),
        tag: Vec::new(alloc),
    };
    let description = Description::new(recording.rate(), 0, ids, layout, metadata);
    Recording::silent(alloc, description)
}

// The channels as they are.
fn in_place(alloc: Global) -> Result<Reordering, AllocError>
    ensures size { IfOk result (λ r. reordering_size r ≡ 1) }
    ensures groups { IfOk result (λ r. reordering_groups r ≡ 0) }
{
    let order = vec![in alloc; 0; 1]?;
    Reordering::new(alloc, order, 1, 0)
}

/// Writes what is made of a file of this outline, which is read by its parts, to one that was created, and returns that
/// one. The faults are those of [`relay`].
pub(crate) fn relay_renamed<R: Read + Drop, W: Write>(
    alloc: Global,
    outline: &Outline,
    renaming: Renaming,
    parts: Parts<R>,
    made: W,
) -> (Result<(), StreamFault>, W)
    requires stated { AreStated (around_of outline.now) }
    requires fits { FitsIn renaming.form outline.now.sound.count }
    requires start { length parts.head.items ≡ outline.now.sound.start }
    ensures { (form : Form) → IsRenaming form (around_of outline.now) renaming
        → RelaysRenamed (left_parts R.remaining parts) (around_of outline.now) renaming
        (W.contents made) (W.contents result.1) result.0 }
{
    let Renaming {
        ends,
        form,
        reordering,
    } = renaming;
    let Parts { head, tail, file } = parts;
    let target = NewFile {
        interleaving: interleaving_in(form),
        head: &ends.head,
        tail: &ends.tail,
    };
    let sound = reordered(Cursor::new(tail).chain(file), reordering);
    let reader = Cursor::new(head).chain(sound);
    relay_to(alloc, outline, &target, reader, made)
}

// Relays a reader's file to one that was created, and returns that one.
fn relay_to<R: Read + Drop, W: Write>(
    alloc: Global,
    outline: &Outline,
    target: &NewFile<'_>,
    reader: R,
    made: W,
) -> (Result<(), StreamFault>, W)
    requires stated { AreStated (around_of outline.now) }
    requires whole { target.now.interleaving ≡ Interleaving.Bytes → outline.now.sound.count % 8 ≡ 0 }
    ensures ok { OnOk result.0 (Relays (R.remaining reader) target.now (around_of outline.now) (W.contents made)
        (W.contents result.1)) }
    ensures prefix { IfErr result.0 (RelaysPrefix (R.remaining reader) target.now (around_of outline.now)
        (W.contents made) (W.contents result.1)) }
{
    let mut inlet = Inlet::new(reader);
    let mut outlet = Outlet::new(made);
    let came = relay(alloc, outline, target, &mut inlet, &mut outlet);
    (came, outlet.into_inner())
}
