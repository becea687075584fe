//! Whether a splice and its takes can be cut.

ghost use Rattle.std.specs.Prelude.{◌≡◌, ◌+◌, ◌-◌, ◌<◌, length, true, false};
ghost use Rattle.splice_core.specs.Splices.{splice_content};
ghost use Rattle.cut_core.specs.Cuts as cuts;
ghost use Rattle.cut_core.specs.Cuts.{AreAlike};
ghost use Rattle.cut_core.specs.Excerpts.{excerpts_shapes};
ghost use Rattle.cut_core.specs.Opening as specs;
ghost use Rattle.cut_core.specs.Opening.{all_have_room, all_inside, each_before, fitting, whole_in};
ghost use Rattle.cut_core.specs.Rooms.{room_at};

use crate::cues::{cue_at, cue_number, span_at, take_of};
use crate::excerpts::Excerpts;
use crate::fault::CutFault;
use cost_core::{RoomFault, has_room};
use dsd_bits::Recording;
use form_core::Form;
use splice_core::Splice;

/// Whether takes, as many as the splice has, can be cut, into a file of the form if one is given.
///
/// Refusals, in this order: `TakeMismatch` for the first take that isn't like take 0, `CueOutside` for the first cue
/// that stops after the end of its take, `MasterTooLong` if the master would have more than `2^36` bits a channel,
/// `NotWholeBytes` if the form is DSDIFF and the master's channels would end inside a byte, then by rising cue
/// `NoRoomBefore` and `NoRoomAfter`.
#[tactic(auto, unfolding(crate::specs::Opening::fitting))]
pub(crate) fn fits(splice: &Splice, takes: &[Excerpts], form: Option<Form>) -> Result<(), CutFault>
    requires { length takes.now ≡ length (splice_content splice.now).takes }
    ensures { result ≡ fitting form (splice_content splice.now) (excerpts_shapes takes.now) }
{
    are_alike(takes)?;
    are_inside(splice, takes)?;
    if master_length(splice) > 1 << 36 {
        return Err(CutFault::MasterTooLong);
    }
    if !is_whole(splice, form) {
        return Err(CutFault::NotWholeBytes);
    }
    have_room(splice, takes)
}

// Whether each take is like the first.
fn are_alike(takes: &[Excerpts]) -> Result<(), CutFault>
    ensures { result ≡ each_before (length (excerpts_shapes takes.now)) (specs.alike_at (excerpts_shapes takes.now)) }
{
    for i in 0..takes.len() {
        alike_at(takes, i)?;
    }
    Ok(())
}

// Whether take `i` is like the first.
fn alike_at(takes: &[Excerpts], i: usize) -> Result<(), CutFault>
    requires { i < length takes.now }
    ensures { result ≡ specs.alike_at (excerpts_shapes takes.now) i }
{
    if differ(&takes[0].recording, &takes[i].recording) {
        return Err(CutFault::TakeMismatch(i));
    }
    Ok(())
}

/// Whether two recordings differ in rate or number of channels.
pub fn differ(first: &Recording, take: &Recording) -> bool
    ensures alike { result ≡ false → AreAlike first.now take.now }
    ensures other { result ≡ true → AreAlike first.now take.now → ⊥ }
{
    take.rate() != first.rate() || take.channels().len() != first.channels().len()
}

/// The sample rate of a recording, and how many channels it has.
#[derive(Clone, Copy, Debug, PartialEq, Eq)]
pub struct Shape {
    /// The sample rate in Hz.
    pub rate: u32,
    /// How many channels there are.
    pub channels: usize,
}

impl Shape {
    /// That of a recording.
    pub fn of(recording: &Recording) -> Shape
        ensures rate { result.rate ≡ recording.now.rate }
        ensures channels { result.channels ≡ length recording.now.channels }
    {
        Shape {
            rate: recording.rate(),
            channels: recording.channels().len(),
        }
    }
}

// Whether each cue ends within its take.
fn are_inside(splice: &Splice, takes: &[Excerpts]) -> Result<(), CutFault>
    requires { length takes.now ≡ length (splice_content splice.now).takes }
    ensures { result ≡ all_inside (splice_content splice.now) (excerpts_shapes takes.now) }
{
    for i in 0..cue_number(splice) {
        inside_at(splice, takes, i)?;
    }
    Ok(())
}

// Whether cue `i` ends within its take.
fn inside_at(splice: &Splice, takes: &[Excerpts], i: usize) -> Result<(), CutFault>
    requires as_many { length takes.now ≡ length (splice_content splice.now).takes }
    requires there { i < length (splice_content splice.now).cues }
    ensures { result ≡ specs.inside_at (splice_content splice.now) (excerpts_shapes takes.now) i }
{
    if take_of(splice, takes, i).count < cue_at(splice, i).stop {
        return Err(CutFault::CueOutside(i));
    }
    Ok(())
}

/// How many bits each channel of the master has.
pub(crate) fn master_length(splice: &Splice) -> usize
    ensures { result ≡ cuts.master_length (splice_content splice.now).cues }
{
    let mut length = 0;
    for i in 0..cue_number(splice) {
        length += span_at(splice, i);
    }
    length
}

// Whether the channels of a file of the form, if one is given, end with a whole byte.
fn is_whole(splice: &Splice, form: Option<Form>) -> bool
    ensures { result ≡ whole_in form (splice_content splice.now) }
{
    match form {
        Some(Form::Dsdiff) => master_length(splice) % 8 == 0,
        _ => true,
    }
}

// Whether each bridge has room in the takes.
fn have_room(splice: &Splice, takes: &[Excerpts]) -> Result<(), CutFault>
    requires { length takes.now ≡ length (splice_content splice.now).takes }
    ensures { result ≡ all_have_room (splice_content splice.now) (excerpts_shapes takes.now) }
{
    for i in 0..cue_number(splice) - 1 {
        has_room_at(splice, takes, i)?;
    }
    Ok(())
}

// Whether the bridge after cue `i`, if there is one, has room.
fn has_room_at(splice: &Splice, takes: &[Excerpts], i: usize) -> Result<(), CutFault>
    requires as_many { length takes.now ≡ length (splice_content splice.now).takes }
    requires there { i + 1 < length (splice_content splice.now).cues }
    ensures { result ≡ room_at (splice_content splice.now) (excerpts_shapes takes.now) i }
{
    if cue_at(splice, i).bridge == 0 {
        return Ok(());
    }
    match has_room(splice, i, take_of(splice, takes, i).count) {
        Ok(()) => Ok(()),
        Err(RoomFault::NoRoomBefore) => Err(CutFault::NoRoomBefore(i)),
        Err(RoomFault::NoRoomAfter) => Err(CutFault::NoRoomAfter(i)),
    }
}
