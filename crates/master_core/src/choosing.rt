//! The bits of a master's bridges, found by search in their order.

ghost use Rattle.std.specs.Prelude.{◌≡◌, ◌+◌, ◌<◌, IfOk, MatchOption, length};
ghost use Rattle.cost_core.specs.Limits.{IsBridging};
ghost use Rattle.cut_core.specs.Bridges.{IsPlace, bridges};
ghost use Rattle.cut_core.specs.Cuts.{take_channels};
ghost use Rattle.master_core.specs.Choosing as specs;
ghost use Rattle.master_core.specs.Choosing.{AreBridgesOf, AreChosen, IsChosen, IsChosenAt, IsNoBridge, window_at};

use crate::watch::Watch;
use cost_core::Window;
use cut_core::{BridgePlace, Cut};
use std::alloc::{AllocError, Global};
use trellis_core::{Chosen, bridge};

/// The bridges of a cut in their order, by rising cue and then by rising channel, and the bits of least cost of each.
#[derive(Drop)]
pub struct ChosenBridges {
    pub(crate) places: Vec<BridgePlace>,
    // The window of each bridge.
    pub(crate) windows: Vec<Window>,
    // The bits of each bridge, and what they cost.
    pub(crate) chosen: Vec<Chosen>,
    // What all of them cost.
    pub(crate) total: u128,
}

impl ChosenBridges {
    /// What the bits of all bridges cost together.
    pub fn total(&self) -> u128
        ensures { result ≡ self.now.total }
    {
        self.total
    }
}

// The window of a bridge and the bits that were chosen in it.
struct Choice {
    window: Window,
    chosen: Chosen,
}

/// The bits of least cost for each bridge of a cut; of several such lists the first. Before each the watch
/// is told how many were searched. Err is out of memory.
pub(crate) fn choose_bridges<W: Watch>(
    alloc: Global,
    cut: &Cut,
    watch: &W,
) -> Result<ChosenBridges, AllocError>
    ensures bridges { IfOk result (AreBridgesOf cut.now) }
    ensures total { IfOk result (λ made. made.total ≡ specs.chosen_cost made.chosen.items) }
{
    let places = cut.bridges(alloc)?;
    let mut windows = Vec::with_capacity(alloc, places.len())?;
    let mut chosen = Vec::with_capacity(alloc, places.len())?;
    let mut total = 0;
    for k in 0..places.len() {
        watch.tell(k, places.len());
        let Choice {
            window,
            chosen: bits,
        } = choose_bridge(alloc, cut, places[k])?;
        total += u128::from(cost_of(&bits));
        windows.push_reserved(window);
        chosen.push_reserved(bits);
    }
    Ok(ChosenBridges {
        places,
        windows,
        chosen,
        total,
    })
}

// The first least bits of the bridge at a place, with its window. Err is out of memory.
fn choose_bridge(alloc: Global, cut: &Cut, place: BridgePlace) -> Result<Choice, AllocError>
    requires { IsPlace cut.now place }
    ensures window { IfOk result (λ choice. choice.window ≡ window_at cut.now place) }
    ensures within { IfOk result (λ choice. IsBridging choice.window) }
    ensures chosen { IfOk result (λ choice. IsChosen choice.window choice.chosen) }
{
    let window = cut.window(alloc, place)?;
    let _ = window.length();
    match bridge(alloc, &window) {
        Ok(chosen) => Ok(Choice { window, chosen }),
        Err(_) => Err(AllocError),
    }
}

// What chosen bits cost.
fn cost_of(bridge: &Chosen) -> u64
    ensures { result ≡ bridge.now.cost }
{
    bridge.cost
}

// The bits that were chosen for the bridge at a place, if there is a bridge.
pub(crate) fn chosen_at<'a>(
    cut: &Cut,
    places: &[BridgePlace],
    chosen: &'a [Chosen],
    place: BridgePlace,
) -> Option<&'a Chosen>
    requires places { places.now ≡ bridges cut.now }
    requires chosen { AreChosen cut.now chosen.now }
    requires channel { place.channel < take_channels cut.now }
    requires cue { place.cue + 1 < length cut.now.splice.cues }
    ensures { MatchOption result (IsNoBridge cut.now place) (λ bridge. IsChosenAt cut.now place bridge.now) }
{
    for k in 0..chosen.len() {
        if places[k] == place {
            return Some(&chosen[k]);
        }
    }
    None
}
