//! Masters of one to six channels that are cut and accepted by two to twelve weights.
//!
//! Of several weights the first is 1 and the others are 0. So a bridge of one bit from ones to zeros has, times 2, the
//! target 0 at its place and -2 after it: either bit is 2 off, which costs 4, and 0 is taken.

ghost use Rattle.std.specs.Prelude.{◌≤◌};

use archive_core::{CutFault, Edited, Fault, Form, Verdict, check, edit};
use part_examples::fixtures::compared::equal;
use part_examples::fixtures::files::file_of;
use std::alloc::{AllocError, Global};
use std::test::Fail;

// A project of so many weights, which cuts twelve bits of one take and eleven of another, with a bridge of one bit.
fn project(alloc: Global, weights: usize) -> Result<String, AllocError> {
    let zeros = ", 0".repeat(alloc, weights.clamp(2, 12) - 1)?;
    format!(in alloc;
        "[splice]
weights = [1{zeros}]
takes = [\"a.dff\", \"b.dff\"]
[[splice.cue]]
take = 0
start = 0
stop = 12
bridge = 1
[[splice.cue]]
take = 1
start = 16
stop = 27
"
    )
}

// Takes of so many channels of 32 ones, and of 32 zeros.
fn takes(alloc: Global, number: usize) -> Result<[Vec<u8>; 2], AllocError>
    requires { number ≤ 6 }
{
    let ones = file_of(alloc, number, &[0xff; 24][..4 * number]);
    let zeros = file_of(alloc, number, &[0; 24][..4 * number]);
    Ok([ones?, zeros?])
}

// Twelve ones, and twelve zeros, of which the first is the bridge: a byte of each channel in turn.
fn master(alloc: Global, number: usize) -> Result<Vec<u8>, AllocError>
    requires { number ≤ 6 }
{
    let sound = [
        &[0xff; 6][..number],
        &[0xf0; 6][..number],
        &[0; 6][..number],
    ]
    .concat(alloc)?;
    file_of(alloc, number, &sound)
}

// Whether a master and its certificate are accepted at this cost, which is that of the cut.
fn is_accepted(
    alloc: Global,
    text: &[u8],
    takes: &[Vec<u8>],
    made: &Edited,
    cost: u128,
) -> Result<bool, Fault> {
    match check(alloc, text, takes, &made.master, &made.cert)? {
        Verdict::Accepted { total } => Ok(total == cost && made.total == cost),
        Verdict::Rejected(_) => Ok(false),
    }
}

// Whether the master of so many channels is cut by a project, and accepted.
fn cuts(alloc: Global, text: &[u8], takes: &[Vec<u8>], number: usize) -> Result<bool, Fault>
    requires { number ≤ 6 }
{
    let made = edit(alloc, text, takes, Form::Dsdiff)?;
    let is_master = equal(&made.master, &master(alloc, number)?);
    Ok(is_master && is_accepted(alloc, text, takes, &made, 4 * number as u128)?)
}

// The same by so many weights.
fn is_cut(alloc: Global, weights: usize, number: usize) -> Result<bool, Fault>
    requires { number ≤ 6 }
{
    let text = project(alloc, weights)?;
    cuts(alloc, text.as_bytes(), &takes(alloc, number)?, number)
}

#[test]
fn cuts_two_channels_by_three_weights(rt: HostRuntime) -> Result<(), Fail> {
    assert!(rt; is_cut(rt.alloc(), 3, 2)?);
    Ok(())
}

// Whether this is so of each number of channels.
fn cuts_each(alloc: Global, weights: usize) -> bool {
    for number in 1..7 {
        if !is_cut(alloc, weights, number).unwrap_or(false) {
            return false;
        }
    }
    true
}

#[test]
fn cuts_by_each_number_of_weights(rt: HostRuntime) {
    for weights in 2..13 {
        assert!(rt; cuts_each(rt.alloc(), weights), "{weights} weights");
    }
}

// What a cut is refused for that has one file for two takes.
fn refusal(alloc: Global) -> Result<Option<Fault>, AllocError> {
    let text = project(alloc, 2)?;
    let takes = takes(alloc, 1)?;
    Ok(edit(alloc, text.as_bytes(), &takes[..1], Form::Dsdiff).err())
}

#[test]
fn refuses_another_number_of_takes(rt: HostRuntime) {
    let refused = refusal(rt.alloc());
    assert!(rt; matches!(refused, Ok(Some(Fault::Cut(CutFault::TakeNumber)))));
}
