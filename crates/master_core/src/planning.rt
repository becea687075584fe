//! A master that is planned: its bridges are chosen, and all memory for its files is reserved.

ghost use Rattle.std.specs.Prelude.{◌≡◌, IfErr, IfOk};
ghost use Rattle.master_core.specs.Certifying.{IsRoomOf};
ghost use Rattle.master_core.specs.Choosing as specs;
ghost use Rattle.master_core.specs.Choosing.{AreBridgesOf};
ghost use Rattle.master_core.specs.Filing.{AreMasterEnds, FitsMaster};
ghost use Rattle.master_core.specs.Planning.{PlansMaster};
ghost use Rattle.master_core.specs.Writing.{IsRoomFor};

use crate::certifying::CertifyingRoom;
use crate::choosing::{ChosenBridges, choose_bridges};
use crate::filing::master_ends;
use crate::sizes::{master_size, most_of_certificate};
use crate::watch::Watch;
use crate::writing::{MasterRoom, master_room};
use cost_core::{least_together, places_are_windows};
use cut_core::Cut;
use form_core::{Ends, Form, WriteFault, written_in_parts, written_is_read};
use std::alloc::Global;

/// What a master's file and its certificate are written from.
#[derive(Drop)]
pub struct Planned {
    /// Its bridges.
    pub bridges: ChosenBridges,
    /// The bytes before and after its sound.
    pub ends: Ends,
    /// The memory in which its sound is written.
    pub room: MasterRoom,
    /// The memory in which its certificate is written.
    pub cert_room: CertifyingRoom,
}

/// Plans the master of a cut: in each channel the cues in turn, and after each cue but the last its bridge. The bits of
/// a bridge cost least of all lists of its length; of several such lists they are the first, read from the last bit to
/// the first. The master has the sample rate, the channel IDs and the layout of take 0, and for a DSDIFF file a mark at
/// the first bit of each titled cue. No master of the cut, with whatever bridges of these lengths, costs less. Its
/// channels are never in memory: [`write_master`](crate::write_master) writes its file, [`certify`](crate::certify) the
/// certificate that shows each of its bridges to be least, and neither takes memory. The watch is
/// told how large both files will be, and then how far the search has come.
///
/// Refusals: `NotWholeBytes` only if the form is DSDIFF and the channels would end inside a byte; `Memory`.
pub fn plan<W: Watch>(
    alloc: Global,
    cut: &Cut,
    form: Form,
    watch: &W,
) -> Result<Planned, WriteFault>
    ensures master { IfOk result (λ made. PlansMaster cut.now form made.bridges) }
    // What its files are written from.
    ensures bridges { IfOk result (λ made. AreBridgesOf cut.now made.bridges) }
    ensures ends { IfOk result (λ made. AreMasterEnds cut.now form made.ends) }
    ensures room { IfOk result (λ made. IsRoomFor cut.now made.room) }
    ensures cert_room { IfOk result (λ made. IsRoomOf cut.now made.cert_room) }
    ensures not_whole_bytes { IfErr result (λ fault. fault ≡ WriteFault.NotWholeBytes → FitsMaster form cut.now → ⊥) }
{
    let ends = master_ends(alloc, cut, form)?;
    let cert_room = CertifyingRoom::new(alloc, cut)?;
    let room = master_room(alloc, cut)?;
    watch.tell_sizes(master_size(cut, form, &ends), most_of_certificate(cut));
    let bridges = choose_bridges(alloc, cut, watch)?;
    is_master(cut, form, &bridges, &ends);
    Ok(Planned {
        bridges,
        ends,
        room,
        cert_room,
    })
}

// Cues and chosen bits make the master of the cut. It does nothing.
fn is_master(cut: &Cut, form: Form, bridges: &ChosenBridges, ends: &Ends)
    requires bridges { AreBridgesOf cut.now bridges.now }
    requires total { bridges.now.total ≡ specs.chosen_cost bridges.now.chosen.items }
    requires ends { AreMasterEnds cut.now form ends.now }
    ensures { PlansMaster cut.now form bridges.now }
{
    cut.can_cut();
    places_are_windows();
    least_together();
    written_in_parts();
    written_is_read();
    let _ = bridges.total;
    let _ = ends.head.len();
}
