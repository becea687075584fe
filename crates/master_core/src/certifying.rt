//! The certificate of chosen bridges, written entry by entry to an outlet. Its memory was reserved before.

ghost use Rattle.std.specs.Prelude.{◌≡◌, ◌+◌, ◌-◌, ◌<◌, ◌≤◌, ◌^◌, IfOk, OnErr, OnOk, is_ok, length, not};
ghost use Rattle.cert_core.specs.Writers.{Writes, WritesUpTo, entries_left, failures_before, has_failed};
ghost use Rattle.cut_core.specs.Cuts.{CutContent};
ghost use Rattle.chunk_core.specs.Outlets.{outlet_failures};
ghost use Rattle.master_core.specs.Certificates.{CertificatesShow};
ghost use Rattle.master_core.specs.Certifying.{AddsEntries, AddsSomeEntries, AppendsCert, AppendsCertPrefix, IsFresh, IsBetweenEntries, IsRoomOf, OnCertBytes, entry_of};
ghost use Rattle.master_core.specs.Choosing.{AreBridgesOf, IsChosen};
ghost use Rattle.master_core.specs.Writing.{CountsFailure, OnBytes};
ghost use Rattle.trellis_core.specs.Passes.{HasBuffers};

use crate::choosing::ChosenBridges;
use crate::watch::Watch;
use cert_core::{CertRoom, CertWriter, Version};
use chunk_core::{Device, Outlet};
use cost_core::Window;
use cut_core::{BridgePlace, Cut};
use std::alloc::{AllocError, Global};
use std::io::Write;
use trellis_core::{Chosen, PassRoom, hand_capped};

/// All memory that writing the certificate of a cut takes: for a pass over the levels of a bridge, and for the bytes of
/// a row.
#[derive(Drop)]
pub struct CertifyingRoom {
    pub(crate) pass: PassRoom,
    pub(crate) row: CertRoom,
}

impl CertifyingRoom {
    /// Memory for the bridges of a cut. Err is out of memory.
    pub fn new(alloc: Global, cut: &Cut) -> Result<CertifyingRoom, AllocError>
        ensures { IfOk result (IsRoomOf cut.now) }
    {
        let weights = cut.weight_number();
        let pass = PassRoom::new(alloc, 1 << (weights - 1))?;
        let row = CertRoom::new(alloc, weights)?;
        Ok(CertifyingRoom { pass, row })
    }
}

/// Writes the certificate, of the second version, that shows the chosen bits of each bridge of a cut to be least, and
/// returns the outlet. The text is a function of the cut and the bits. The rows of each bridge are made while they are
/// written. It takes no memory. Before each bridge the watch is told how many were written.
///
/// Refusal: `Device` if a write fails; a prefix of the certificate was written.
pub fn certify<W: Write, T: Watch>(
    cut: &Cut,
    bridges: &ChosenBridges,
    room: CertifyingRoom,
    outlet: Outlet<W>,
    watch: &T,
) -> (Result<(), Device>, Outlet<W>)
    requires bridges { AreBridgesOf cut.now bridges.now }
    requires room { IsRoomOf cut.now room }
    requires ready { outlet_failures outlet < 2 ^ 64 - 1 }
    ensures ok { OnOk result.0 (OnBytes W.contents outlet result.1 (AppendsCert cut.now bridges.now)) }
    ensures err { OnErr result.0 (OnBytes W.contents outlet result.1 (AppendsCertPrefix cut.now bridges.now)) }
    ensures failures { CountsFailure result.0 outlet result.1 }
{
    let CertifyingRoom { mut pass, row } = room;
    let mut writer = CertWriter::in_room(outlet, row, Version::Two);
    let came = write_cert(cut, bridges, &mut pass, &mut writer, watch);
    (came, writer.finish())
}

/// The certificate of bits that are least shows that they are, whoever chose them. The function does nothing.
pub fn certificates_show()
    ensures { CertificatesShow }
{}

// Writes the head and then all entries.
fn write_cert<W: Write, T: Watch>(
    cut: &Cut,
    bridges: &ChosenBridges,
    pass: &mut PassRoom,
    writer: &mut CertWriter<W>,
    watch: &T,
) -> Result<(), Device>
    requires bridges { AreBridgesOf cut.now bridges.now }
    requires room { HasBuffers (2 ^ (length cut.now.splice.weights - 1)) pass.old }
    requires fresh { IsFresh (length cut.now.splice.weights) writer.old }
    ensures ok { OnOk result (OnCertBytes W.contents writer.old writer.new (AppendsCert cut.now bridges.now)) }
    ensures err { OnErr result (OnCertBytes W.contents writer.old writer.new (AppendsCertPrefix cut.now bridges.now)) }
    ensures failed { has_failed writer.new ≡ not (is_ok result) }
    ensures before { failures_before writer.new ≡ failures_before writer.old }
{
    let Ok(()) = writer.begin(bridges.places.len() as u32) else {
        return Err(Device);
    };
    write_entries(cut, bridges, pass, writer, watch)
}

// Writes the entries of all bridges.
fn write_entries<W: Write, T: Watch>(
    cut: &Cut,
    bridges: &ChosenBridges,
    pass: &mut PassRoom,
    writer: &mut CertWriter<W>,
    watch: &T,
) -> Result<(), Device>
    requires bridges { AreBridgesOf cut.now bridges.now }
    requires room { HasBuffers (2 ^ (length cut.now.splice.weights - 1)) pass.old }
    requires ready { IsBetweenEntries (length cut.now.splice.weights) writer.old }
    requires entries { entries_left writer.old ≡ length bridges.now.places.items }
    ensures ok { OnOk result (OnCertBytes W.contents writer.old writer.new (AddsEntries cut.now bridges.now)) }
    ensures err { OnErr result (OnCertBytes W.contents writer.old writer.new (AddsSomeEntries cut.now bridges.now)) }
    ensures failed { has_failed writer.new ≡ not (is_ok result) }
    ensures before { failures_before writer.new ≡ failures_before writer.old }
{
    cut.can_cut();
    for k in 0..bridges.places.len() {
        watch.tell(k, bridges.places.len());
        let window = &bridges.windows[k];
        write_entry(bridges.places[k], window, &bridges.chosen[k], pass, writer)?;
    }
    Ok(())
}

// Writes the entry of the bridge at a place, whose rows are made in its window.
fn write_entry<W: Write>(
    place: BridgePlace,
    window: &Window,
    chosen: &Chosen,
    pass: &mut PassRoom,
    writer: &mut CertWriter<W>,
) -> Result<(), Device>
    requires cue { place.cue < 2 ^ 16 }
    requires channel { place.channel < 2 ^ 16 }
    requires chosen { IsChosen window.now chosen.now }
    requires room { HasBuffers (2 ^ (length window.now.weights - 1)) pass.old }
    requires ready { IsBetweenEntries (length window.now.weights) writer.old }
    requires entries { 0 < entries_left writer.old }
    ensures ok { OnOk result (Writes W.contents writer.old writer.new (entry_of place window.now chosen.now)) }
    ensures err { OnErr result (WritesUpTo W.contents writer.old writer.new (entry_of place window.now chosen.now)) }
    ensures ready { OnOk result (IsBetweenEntries (length window.now.weights) writer.new) }
    ensures left { OnOk result (entries_left writer.new + 1 ≡ entries_left writer.old) }
    ensures room { OnOk result (HasBuffers (2 ^ (length window.now.weights - 1)) pass.new) }
    ensures failed { has_failed writer.new ≡ not (is_ok result) }
    ensures before { failures_before writer.new ≡ failures_before writer.old }
{
    let BridgePlace { cue, channel } = place;
    let length = window.length();
    let Ok(()) = writer.begin_bridge(cue as u16, channel as u16, length as u16) else {
        return Err(Device);
    };
    let Ok(()) = hand_capped(window, pass, chosen.cost, writer) else {
        return Err(Device);
    };
    let Ok(()) = writer.end_bridge(chosen.cost) else {
        return Err(Device);
    };
    Ok(())
}
