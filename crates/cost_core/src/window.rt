//! The window of a bridge.

ghost use Rattle.std.specs.Prelude.{◌≡◌, ◌+◌, ◌*◌, ◌^◌, ◌<◌, ◌≤◌, length, IfOk, OnOk, IsOkUnless};
ghost use Rattle.splice_core.specs.Splices.{splice_content};
ghost use Rattle.cost_core.specs.Trellis.{states, cost, IsBounded};
ghost use Rattle.cost_core.specs.Bridges.{bridge_cost};
ghost use Rattle.cost_core.specs.StateCosts.{step_of, step_row, tail_row, trellis_of};
ghost use Rattle.cost_core.specs.Windows.{bridging, bridging_over, splice_cue};
ghost use Rattle.cost_core.specs.Limits.{IsBridging, greatest_step};
ghost use Rattle.cost_core.specs.Faults.{HasRoom, CanBridge, NamesMissing, missing_room, named_room};

use crate::fault::WindowFault;
use crate::room::has_room;
use crate::seam::Seam;
use crate::sums::{
    add_squared_differences, read_state, scaled_sums, squared_difference, squared_differences,
};
use crate::targets::targets_after;
use dsd_bits::Bits;
use splice_core::Splice;
use std::alloc::{AllocError, Global};
use std::marker::Model;

/// What decides the cost of a bridge's bits in one channel: the weights, the bits around the bridge that a weight
/// reads, and the target of each place.
#[derive(Drop)]
pub struct Window {
    weights: Vec<i32>,
    levels: usize,
    start: usize,
    preceding: Bits,
    following: Bits,
    targets: Vec<i32>,
    // Indexed by the bits up to a place as a number: their weighted sum times one more than the levels.
    scaled: Vec<i32>,
}

impl Model for Window {
    ghost use Rattle.cost_core.specs.Bridges.{Bridging};
    ghost use Rattle.cost_core.specs.View.{bridging_of, IsWindow};

    ghost Value = { Bridging };

    ghost view = { bridging_of };

    ghost invariant = { IsWindow };
}

impl Window {
    /// The window of the bridge after cue `cue`, whose target leads from the channel `own` of its take to the
    /// channel `next` of the next cue's take.
    ///
    /// Refusals, in this order: `NoRoomBefore` if the next cue starts too early in its take for what the target reads
    /// before it, `NoRoomAfter` if the cue stops too late in its own for what the target reads after it ([`has_room`]),
    /// `Memory`.
    pub fn new(
        alloc: Global,
        splice: &Splice,
        own: &Bits,
        next: &Bits,
        cue: usize,
    ) -> Result<Window, WindowFault>
        requires cues { cue + 1 < length (splice_content splice.now).cues }
        requires bridge { 1 ≤ (splice_cue (splice_content splice.now) cue).bridge }
        requires before { (splice_cue (splice_content splice.now) cue).stop ≤ length own.now }
        requires after { (splice_cue (splice_content splice.now) (cue + 1)).stop ≤ length next.now }
        ensures ok { IfOk result (λ window. window ≡ bridging (splice_content splice.now) cue own.now next.now) }

        // It is made exactly if there is room, unless memory runs out.
        ensures found { OnOk result (HasRoom (splice_content splice.now) cue (length own.now)) }
        ensures only { HasRoom (splice_content splice.now) cue (length own.now) → IsOkUnless result WindowFault.Memory }

        // Which fault it is: the first room that is lacking.
        ensures order { NamesMissing named_room result (missing_room (splice_content splice.now) cue (length own.now)) }
    {
        has_room(splice, cue, own.len())?;
        let stop = splice.cues[cue].stop;
        let start = splice.cues[cue + 1].start;
        let seam = Seam {
            own,
            stop,
            next,
            start,
        };
        Ok(Window::between(alloc, splice, cue, seam)?)
    }

    /// The same for parts of the takes, as the seam after cue `cue` has them. Err is out of memory.
    pub fn between(
        alloc: Global,
        splice: &Splice,
        cue: usize,
        seam: Seam<'_>,
    ) -> Result<Window, AllocError>
        requires cues { cue + 1 < length (splice_content splice.now).cues }
        requires room { CanBridge (splice_content splice.now) cue seam.own.now seam.stop seam.next.now seam.start }
        ensures { IfOk result (λ window. window ≡ bridging_over (splice_content splice.now) cue seam.entry) }
    {
        let Seam {
            own,
            stop,
            next,
            start,
        } = seam;
        let weights = splice.weights.as_slice();
        let width = weights.len() - 1;
        let mut preceding = Bits::new(alloc);
        preceding.push_range(own, stop - width, stop)?;
        let mut following = Bits::new(alloc);
        following.push_range(next, start, start + width)?;
        let targets = targets_after(alloc, splice, cue, seam)?;
        let levels = splice.cues[cue].bridge;
        let scaled = scaled_sums(alloc, weights, levels)?;
        let weights = Vec::from_slice(alloc, weights)?;
        let state = read_state(&preceding);
        Ok(Window {
            weights,
            levels,
            start: state,
            preceding,
            following,
            targets,
            scaled,
        })
    }

    /// How many bits a state holds: one less than the number of weights.
    pub fn width(&self) -> usize
        ensures value { result ≡ length self.now.preceding }
        ensures limits { IsBridging self.now }
    {
        self.preceding.len()
    }

    /// How many states there are: two to the power of the width.
    pub fn states(&self) -> usize
        ensures value { result ≡ states (trellis_of self.now) }
        ensures bounded { IsBounded (trellis_of self.now) }
        ensures limits { IsBridging self.now }
    {
        1 << self.preceding.len()
    }

    /// How many bits the bridge has.
    pub fn length(&self) -> usize
        ensures value { result ≡ self.now.levels }
        ensures bounded { IsBounded (trellis_of self.now) }
        ensures limits { IsBridging self.now }
    {
        self.levels
    }

    /// The state before the bridge.
    pub fn start(&self) -> usize
        ensures { result ≡ (trellis_of self.now).start }
    {
        self.start
    }

    /// The squared deviation from the target at place `level + 1`, with the bits of `state` before this place and `bit`
    /// at it.
    pub fn step_cost(&self, level: usize, state: usize, bit: bool) -> u64
        requires level { level < self.now.levels }
        requires state { state < states (trellis_of self.now) }
        ensures { result ≡ step_of self.now level state bit }
    {
        self.deviation(level, state, bit)
    }

    /// The sum of the squared deviations at the places after a bridge that ends in `state`.
    pub fn tail_cost(&self, state: usize) -> u64
        requires { state < states (trellis_of self.now) }
        ensures { result ≡ (trellis_of self.now).tail state }
    {
        let mut total = 0;
        let mut state = state;
        for i in 0..self.following.len() {
            let bit = self.following.get(i);
            total += self.deviation(self.levels + i, state, bit);
            state = (2 * state + usize::from(bit)) % self.states();
        }
        total
    }

    /// The cost of a bridge's bits: the sum of the squared deviations at all places of the window.
    pub fn cost_of(&self, bits: &Bits) -> u64
        requires { length bits.now ≡ self.now.levels }
        ensures places { result ≡ bridge_cost self.now bits.now }
        ensures steps { result ≡ cost (trellis_of self.now) bits.now }
    {
        let mut total = 0;
        let mut state = self.start;
        for level in 0..self.levels {
            let bit = bits.get(level);
            total += self.deviation(level, state, bit);
            state = (2 * state + usize::from(bit)) % self.states();
        }
        total + self.tail_cost(state)
    }

    /// Writes the step costs of a level, ordered by the state that a step leads to: first those from states whose
    /// oldest bit is 0, then those from states whose oldest bit is 1.
    pub fn step_costs(&self, level: usize, row: &mut [u64])
        requires level { level < self.now.levels }
        requires row { length row.old ≡ 2 * states (trellis_of self.now) }
        ensures { row.new ≡ step_row self.now level }
    {
        let target = self.targets[level];
        squared_differences(&self.scaled, target, row);
    }

    /// Writes the tail costs of all states, state 0 first. It takes the places after a bridge one by one, each over the
    /// whole row.
    pub fn tail_costs(&self, row: &mut [u64])
        requires { length row.old ≡ states (trellis_of self.now) }
        ensures { row.new ≡ tail_row self.now }
    {
        row.fill(0);
        // The state after the bits so far, from state 0.
        let mut ending = 0;
        for place in 0..self.following.len() {
            let code = 2 * ending + usize::from(self.following.get(place));
            let target = self.targets[self.levels + place];
            add_squared_differences(&self.scaled, code, place + 1, target, row);
            ending = code % self.states();
        }
    }

    // The squared deviation at place `level + 1`, which may be after the bridge.
    fn deviation(&self, level: usize, state: usize, bit: bool) -> u64
        requires level { level < self.now.levels + length self.now.following }
        requires state { state < 2 ^ length self.now.preceding }
        ensures value { result ≡ step_of self.now level state bit }
        ensures bound { result ≤ greatest_step }
    {
        let target = self.targets[level];
        let code = 2 * state + usize::from(bit);
        squared_difference(self.scaled[code], target)
    }
}
