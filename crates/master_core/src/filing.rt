//! The whole file of a master, written from cues and bridges.

ghost use Rattle.std.specs.Prelude.{◌≡◌, ◌↔◌, ◌-◌, ◌<◌, ◌^◌, Err, IfOk, OnErr, OnOk, map};
ghost use Rattle.chunk_core.specs.Outlets.{outlet_failures};
ghost use Rattle.dsd_bits.specs.Contents.{mark_content};
ghost use Rattle.master_core.specs.Choosing.{AreBridgesOf};
ghost use Rattle.master_core.specs.Filing.{AreMasterEnds, FitsMaster, WritesMaster, WritesMasterPrefix, silent_master};
ghost use Rattle.master_core.specs.Best as masters;
ghost use Rattle.master_core.specs.Writing.{CountsFailure, IsRoomFor, OnBytes};

use crate::choosing::ChosenBridges;
use crate::parting::MasterSource;
use crate::writing::{MasterRoom, has_one_best, write_sound};
use chunk_core::{Device, Outlet};
use cut_core::Cut;
use dsd_bits::{Description, Mark, Metadata, Recording, silent_channels};
use form_core::{Ends, Form, WriteFault, ends_in, fields_fit, interleaving_in, written_in_parts};
use std::alloc::{AllocError, Global};
use std::io::Write;

// The most bytes before the sound of a master, and after it: far more than the marks of its titles need, and so few
// that the whole file has fewer than 2^63 bytes, like every file that is read.
const MOST_AROUND: usize = 1 << 40;

/// The bytes before and after the sound in the file of a form that holds the master of a cut.
///
/// Refusals: `NotWholeBytes` only if the form is DSDIFF and the master's channels would end inside a byte; `Memory`,
/// also if head or tail had more than `2^40` bytes.
pub fn master_ends(alloc: Global, cut: &Cut, form: Form) -> Result<Ends, WriteFault>
    ensures ok { IfOk result (AreMasterEnds cut.now form) }
    ensures not_whole_bytes { result ≡ Err WriteFault.NotWholeBytes → FitsMaster form cut.now → ⊥ }
{
    let silent = make_silent(alloc, cut, form)?;
    fields_fit(&silent);
    let ends = ends_in(alloc, &silent, form, cut.length())?;
    if ends.head.len() > MOST_AROUND || ends.tail.len() > MOST_AROUND {
        return Err(WriteFault::Memory);
    }
    Ok(ends)
}

// The recording of a master without its bits.
fn make_silent(alloc: Global, cut: &Cut, form: Form) -> Result<Recording, AllocError>
    ensures { IfOk result (λ made. made ≡ silent_master cut.now form) }
{
    cut.can_cut();
    let channels = silent_channels(alloc, cut.channel_number())?;
    let first = cut.first();
    let ids = Vec::from_slice(alloc, first.ids())?;
    let marks = marks_in(alloc, cut, form)?;
    let metadata = Metadata {
        marks,
        others: Vec::new(alloc),
        tag: Vec::new(alloc),
    };
    let description = Description::new(first.rate(), 0, ids, first.layout(), metadata);
    let recording = Recording::new(description, channels);
    Ok(recording)
}

// The marks of a master in a form: those of the titles in a DSDIFF file, none in a DSF file.
fn marks_in(alloc: Global, cut: &Cut, form: Form) -> Result<Vec<Mark>, AllocError>
    ensures { IfOk result (λ marks. map mark_content marks.items ≡ masters.marks_in form cut.now) }
{
    match form {
        Form::Dsdiff => cut.titles(alloc),
        Form::Dsf | Form::Dsf8 => Ok(Vec::new(alloc)),
    }
}

/// Writes the file of the best master: the bytes before its sound, the sound, and the bytes after it. It takes no
/// memory: that was reserved for the cut by [`master_room`](crate::master_room), and `ends` was made by
/// [`master_ends`].
///
/// Refusal: `Device` at the first write that returns an error or accepts nothing; a prefix of the file was written, but
/// not all of it.
pub fn write_master<W: Write>(
    cut: &Cut,
    bridges: &ChosenBridges,
    form: Form,
    ends: &Ends,
    room: &mut MasterRoom,
    outlet: &mut Outlet<W>,
) -> Result<(), Device>
    requires bridges { AreBridgesOf cut.now bridges.now }
    requires ends { AreMasterEnds cut.now form ends.now }
    requires room { IsRoomFor cut.now room.old }
    requires outlet_ready { outlet_failures outlet.old < 2 ^ 64 - 1 }
    ensures room { IsRoomFor cut.now room.new }
    ensures ok { OnOk result (OnBytes W.contents outlet.old outlet.new (WritesMaster cut.now form)) }
    ensures prefix { OnErr result (OnBytes W.contents outlet.old outlet.new (WritesMasterPrefix cut.now form)) }
    ensures failures { CountsFailure result outlet.old outlet.new }
{
    cut.can_cut();
    written_in_parts();
    let source = MasterSource {
        cut,
        places: &bridges.places,
        chosen: &bridges.chosen,
    };
    has_one_best(&source);
    outlet.put_all(&ends.head)?;
    write_sound(&source, interleaving_in(form), room, outlet)?;
    outlet.put_all(&ends.tail)
}
