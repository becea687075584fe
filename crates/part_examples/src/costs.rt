//! What the bits of a bridge cost, worked out by hand.

ghost use Rattle.splice_core.specs.Cues.{IsLine};

use crate::fixtures::windows::{bits_of, by_equal, by_line, by_newest, by_older, ones, zeros};
use cost_core::{Window, WindowFault};
use std::alloc::Global;

// The bits of a state, the number of states, the bits of the bridge, and the state before it.
fn shape(window: &Window) -> [usize; 4] {
    [
        window.width(),
        window.states(),
        window.length(),
        window.start(),
    ]
}

// The costs of a level's steps, from state 0 by the bits 0 and 1, and from state 1: one by one, and as a row. None if
// there is no such level, or if there are other states.
type Steps = Option<([u64; 4], [u64; 4])>;

fn steps(window: &Window, level: usize) -> Steps {
    if level >= window.length() || window.states() != 2 {
        return None;
    }
    let mut row = [0; 4];
    window.step_costs(level, &mut row);
    let single = [
        window.step_cost(level, 0, false),
        window.step_cost(level, 0, true),
        window.step_cost(level, 1, false),
        window.step_cost(level, 1, true),
    ];
    Some((single, row))
}

// What the bits after the bridge cost after state 0 and after state 1: one by one, and as a row. None if there are
// other states.
type Tails = Option<([u64; 2], [u64; 2])>;

fn tails(window: &Window) -> Tails {
    if window.states() != 2 {
        return None;
    }
    let mut row = [0; 2];
    window.tail_costs(&mut row);
    Some(([window.tail_cost(0), window.tail_cost(1)], row))
}

// What is compared of a window: its shape, its steps at the levels 0 and 1, and the costs after it.
type Reported = ([usize; 4], Steps, Steps, Tails);

fn reported(window: Result<Window, WindowFault>) -> Option<Reported> {
    let window = window.ok()?;
    let first = steps(&window, 0);
    Some((shape(&window), first, steps(&window, 1), tails(&window)))
}

#[test]
fn steps_of_a_bridge_of_one_bit(rt: HostRuntime) {
    let costs = Some(([16, 0, 0, 16], [16, 0, 0, 16]));
    let expected = ([1, 2, 1, 1], costs, None, Some(([0, 16], [0, 16])));
    assert!(rt; reported(by_equal(rt.alloc(), ones(0, 8), 1, zeros(2, 9))) == Some(expected));
}

// The state makes no difference, because only the newest bit has a weight.
#[test]
fn steps_of_a_bridge_of_two_bits(rt: HostRuntime) {
    let first = Some(([16, 4, 16, 4], [16, 4, 16, 4]));
    let second = Some(([4, 16, 4, 16], [4, 16, 4, 16]));
    let expected = ([1, 2, 2, 1], first, second, Some(([0, 0], [0, 0])));
    assert!(rt; reported(by_newest(rt.alloc(), ones(0, 8), 2, zeros(3, 9))) == Some(expected));
}

// The cost of the first bits of a byte as a bridge.
fn cost_in(alloc: Global, window: &Window, byte: u8) -> Option<u64> {
    let bits = bits_of(alloc, window, byte).ok()?;
    Some(window.cost_of(&bits))
}

// What the bits 0 and 1 cost as a bridge of a window.
fn both_costs(alloc: Global, window: Result<Window, WindowFault>) -> [Option<u64>; 2] {
    match window {
        Ok(window) => [cost_in(alloc, &window, 0x00), cost_in(alloc, &window, 0x80)],
        Err(_) => [None, None],
    }
}

#[test]
fn costs_of_whole_bridges(rt: HostRuntime) {
    let alloc = rt.alloc();
    let equal = by_equal(alloc, ones(0, 8), 1, zeros(2, 9));
    assert!(rt; both_costs(alloc, equal) == [Some(0), Some(32)]);
    let newest = by_newest(alloc, ones(0, 8), 1, zeros(2, 9));
    assert!(rt; both_costs(alloc, newest) == [Some(4), Some(4)]);
}

// What the bits 0 and 1 cost as a bridge of a line with these ends, from ones to the start of a take of zeros.
fn line_costs(alloc: Global, ends: (i32, i32)) -> [Option<u64>; 2]
    requires { IsLine ends.0 ends.1 }
{
    both_costs(alloc, by_line(alloc, ones(0, 8), 1, zeros(0, 7), ends))
}

// All numbers are times 2. A line from 2 to -2 has the targets 0 at the bridge's place and -4 after it: the bit 0 meets
// both, the bit 1 is 4 off at both. Silence is 0 at both places: the bit 0 is 4 off after the bridge, the bit 1 at it.
// From -1 to 1 the targets are 0 and 2: the bit 0 is 6 off after the bridge, the bit 1 is 4 off at it and 2 after it.
#[test]
fn costs_of_lines(rt: HostRuntime) {
    let alloc = rt.alloc();
    assert!(rt; line_costs(alloc, (2, -2)) == [Some(0), Some(32)]);
    assert!(rt; line_costs(alloc, (0, 0)) == [Some(16), Some(16)]);
    assert!(rt; line_costs(alloc, (-1, 1)) == [Some(36), Some(20)]);
}

// By the weights 0 and 1 a bridge of one bit from zeros to ones has the targets 0 and 2. At its own place the zero
// before it counts. This is 2 off whatever the bit is, and costs 4. At the place after it the bit itself counts: a 1
// meets the target, a 0 is 4 off.
#[test]
fn a_bit_costs_at_the_place_after_it(rt: HostRuntime) {
    let older = by_older(rt.alloc(), zeros(0, 8), 1, ones(2, 9));
    assert!(rt; both_costs(rt.alloc(), older) == [Some(20), Some(4)]);
}
