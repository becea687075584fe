//! The bits that are chosen, and the rows that a search passes to a sink.

ghost use Rattle.std.specs.Prelude.{◌≡◌, ◌+◌, Some, false, IfOk};
ghost use Rattle.cost_core.specs.Trellis.{states};
ghost use Rattle.cost_core.specs.StateCosts.{trellis_of};
ghost use Rattle.splice_core.specs.Cues.{AreWeights};

use crate::fixtures::windows::{by_newest, by_older, ones, window, zeros};
use cost_core::{LevelSink, SinkFault, Window, WindowFault};
use std::alloc::{AllocError, Global};
use std::test::Fail;
use trellis_core::{BridgeFault, Chosen, bridge, bridge_capped_into, bridge_into};

// A sink with the numbers of the rows before one that is refused.
#[derive(Drop)]
struct Numbers {
    numbers: Vec<u64>,
    left: usize,
    width: usize,
    // How many rows are still to come when one is refused.
    refused_left: usize,
    is_refused: bool,
}

impl LevelSink for Numbers {
    ghost rows_left = { λ sink. sink.left };

    ghost row_length = { λ sink. sink.width };

    ghost kind = { λ _. 0 };

    ghost text = { λ sink. Some sink.numbers.items };

    ghost spelling = { λ _ row. row };

    ghost has_refused = { λ sink. sink.is_refused };

    ghost kept = { λ _. tt };

    fn level(&mut self, row: &[u64]) -> Result<(), SinkFault> {
        if self.left == self.refused_left || self.numbers.extend_from_slice(row).is_err() {
            self.is_refused = true;
            return Err(SinkFault);
        }
        self.left -= 1;
        Ok(())
    }

    fn refused(&self) -> bool {
        self.is_refused
    }
}

// A sink for the rows of a window. It refuses the row at which `refused_left` rows are still to come. It has room for
// `room` numbers.
fn sink_for(
    alloc: Global,
    window: &Window,
    refused_left: usize,
    room: usize,
) -> Result<Numbers, AllocError>
    ensures left { IfOk result (λ sink. sink.left ≡ window.now.levels + 1) }
    ensures width { IfOk result (λ sink. sink.width ≡ states (trellis_of window.now)) }
    ensures ready { IfOk result (λ sink. sink.is_refused ≡ false) }
{
    Ok(Numbers {
        numbers: Vec::with_capacity(alloc, room)?,
        left: window.length() + 1,
        width: window.states(),
        refused_left,
        is_refused: false,
    })
}

// The bits of a bridge and its cost, or why there is none.
type Reported = Result<(u8, u64), BridgeFault>;

// The first byte of chosen bits, and their cost.
fn reported(chosen: Result<Chosen, BridgeFault>) -> Reported {
    match chosen {
        Ok(chosen) => match chosen.bits.as_bytes() {
            [byte] => Ok((*byte, chosen.cost)),
            _ => Err(BridgeFault::Memory),
        },
        Err(fault) => Err(fault),
    }
}

// What a search returns that passes on its rows, capped at the cost or not.
fn searched(alloc: Global, window: &Window, sink: &mut Numbers, is_cut: bool) -> Reported
    requires left { sink.old.left ≡ window.now.levels + 1 }
    requires width { sink.old.width ≡ states (trellis_of window.now) }
    requires ready { sink.old.is_refused ≡ false }
{
    if is_cut {
        reported(bridge_capped_into(alloc, window, sink))
    } else {
        reported(bridge_into(alloc, window, sink))
    }
}

// A search for two bits: whether rows are cut, how many rows are still to come when one is refused, the numbers of the
// rows before that, and what the search returns.
type Search = (bool, usize, &'static [u64], Reported);

// Whether a search returns this, and a row is refused exactly if that is returned. Err is out of memory.
fn is_so(alloc: Global, window: &Window, search: &Search) -> Result<bool, AllocError> {
    let (is_cut, refused_left, numbers, expected) = *search;
    let mut sink = sink_for(alloc, window, refused_left, 6)?;
    let found = searched(alloc, window, &mut sink, is_cut);
    if found == Err(BridgeFault::Memory) {
        return Err(AllocError);
    }
    Ok(
        found == expected
            && sink.refused() == expected.is_err()
            && sink.numbers.as_slice() == numbers,
    )
}

// The same for the bridge of two bits by the weights 1, 0 from ones to zeros.
fn hands_over(alloc: Global, search: &Search) -> Result<bool, Fail> {
    let window = by_newest(alloc, ones(0, 8), 2, zeros(3, 9))?;
    Ok(is_so(alloc, &window, search)?)
}

// The rows as they are, and with the first, the second and the last row refused. Then the same rows capped at the cost,
// which is 8: each number above it is 8.
const SEARCHES: &[Search] = &[
    (false, 0, &[1 << 63, 0, 16, 4, 8, 20], Ok((0x80, 8))),
    (false, 3, &[], Err(BridgeFault::Sink)),
    (false, 2, &[1 << 63, 0], Err(BridgeFault::Sink)),
    (false, 1, &[1 << 63, 0, 16, 4], Err(BridgeFault::Sink)),
    (true, 0, &[8, 0, 8, 4, 8, 8], Ok((0x80, 8))),
    (true, 3, &[], Err(BridgeFault::Sink)),
    (true, 2, &[8, 0], Err(BridgeFault::Sink)),
    (true, 1, &[8, 0, 8, 4], Err(BridgeFault::Sink)),
];

#[test]
fn hands_over_a_row_for_each_level(rt: HostRuntime) -> Result<(), Fail> {
    for search in SEARCHES {
        let is_so = hands_over(rt.alloc(), search)?;
        assert!(rt; is_so, "{} left, cut: {}", search.1, search.0);
    }
    Ok(())
}

// What `bridge` returns for the bridge of one bit from zeros to ones by the weights 0, 1.
fn chosen(alloc: Global) -> Result<Reported, WindowFault> {
    let window = by_older(alloc, zeros(0, 8), 1, ones(2, 9))?;
    Ok(reported(bridged(alloc, &window)))
}

// What `bridge` returns, with its fault as the other searches have it.
fn bridged(alloc: Global, window: &Window) -> Result<Chosen, BridgeFault> {
    match bridge(alloc, window) {
        Ok(chosen) => Ok(chosen),
        Err(AllocError) => Err(BridgeFault::Memory),
    }
}

// At its own place either bit costs 4. At the place after it, 0 costs 16 and 1 nothing.
#[test]
fn chooses_a_bit_for_the_place_after_it(rt: HostRuntime) -> Result<(), Fail> {
    assert!(rt; chosen(rt.alloc())?? == (0x80, 4));
    Ok(())
}

// What a search with a sink for all rows returns, how many numbers were passed on, and the sum of the numbers up to 4.
fn summed(
    alloc: Global,
    window: &Window,
    is_cut: bool,
) -> Result<(Reported, usize, u64), AllocError> {
    let room = window.states().saturating_mul(2);
    let mut sink = sink_for(alloc, window, usize::MAX, room)?;
    let found = searched(alloc, window, &mut sink, is_cut);
    let mut sum: u64 = 0;
    for number in &sink.numbers {
        if *number <= 4 {
            sum = sum.saturating_add(*number);
        }
    }
    Ok((found, sink.numbers.len(), sum))
}

// Whether all three searches of a window choose the bit 0 at the cost 4, and pass on two rows each. In the rows as they
// are the start and the two states that it leads to have at most 4: 0, 4 and 4. If they are capped all have: 4, but 0
// for the start.
fn are_chosen(alloc: Global, window: &Window) -> Result<bool, AllocError> {
    let states = window.states();
    let all = (states as u64).saturating_mul(8).saturating_sub(4);
    let whole = summed(alloc, window, false)?;
    let capped = summed(alloc, window, true)?;
    Ok(
        reported(bridged(alloc, window)) == Ok((0x00, 4))
            && whole == (Ok((0x00, 4)), 2 * states, 8)
            && capped == (Ok((0x00, 4)), 2 * states, all),
    )
}

// The same for the bridge of one bit from ones to zeros by these weights, of which only the newest is not 0.
fn are_so(alloc: Global, weights: &[i32]) -> bool
    requires weights { AreWeights weights.now }
{
    match window(alloc, weights, ones(0, 16), 1, zeros(16, 32)) {
        Ok(window) => are_chosen(alloc, &window).unwrap_or(false),
        Err(_) => false,
    }
}

#[test]
fn chooses_by_two_to_seven_weights(rt: HostRuntime) {
    let alloc = rt.alloc();
    assert!(rt; are_so(alloc, &[1, 0]));
    assert!(rt; are_so(alloc, &[1, 0, 0]));
    assert!(rt; are_so(alloc, &[1, 0, 0, 0]));
    assert!(rt; are_so(alloc, &[1, 0, 0, 0, 0]));
    assert!(rt; are_so(alloc, &[1, 0, 0, 0, 0, 0]));
    assert!(rt; are_so(alloc, &[1, 0, 0, 0, 0, 0, 0]));
}

#[test]
fn chooses_by_eight_to_twelve_weights(rt: HostRuntime) {
    let alloc = rt.alloc();
    assert!(rt; are_so(alloc, &[1, 0, 0, 0, 0, 0, 0, 0]));
    assert!(rt; are_so(alloc, &[1, 0, 0, 0, 0, 0, 0, 0, 0]));
    assert!(rt; are_so(alloc, &[1, 0, 0, 0, 0, 0, 0, 0, 0, 0]));
    assert!(rt; are_so(alloc, &[1, 0, 0, 0, 0, 0, 0, 0, 0, 0, 0]));
    assert!(rt; are_so(alloc, &[1, 0, 0, 0, 0, 0, 0, 0, 0, 0, 0, 0]));
}
