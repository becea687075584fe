//! The lines that are printed of a null test.

ghost use Rattle.std.specs.Prelude.{◌≡◌, ◌++◌, ◌≤◌, IfOk, OnOk, map, string_bytes};
ghost use Rattle.null_commands.specs.Lines.{Appends, EndsLine, ShowsAllFound, ShowsFound, ShowsHeard, ShowsTested, ShowsVerdict, found_at, found_from, places_text};

use crate::tested::Tested;
use heard_core::push_level;
use null_core::{Heard, Stretch, Verdict};
use std::alloc::{AllocError, Global};
use std::fmt::Write;

/// The lines of a null test, without the end of the last: one for each stretch, then the verdict. Err is out of memory.
pub fn tested_lines(alloc: Global, tested: &Tested) -> Result<String, AllocError>
    ensures { IfOk result (λ text. ShowsTested tested.now (string_bytes text)) }
{
    let mut text = String::new(alloc);
    match push_tested(alloc, &mut text, tested) {
        Ok(()) => Ok(text),
        Err(fault) => Err(fault),
    }
}

// Appends the lines of a null test, without the end of the last.
fn push_tested(alloc: Global, text: &mut String, tested: &Tested) -> Result<(), AllocError>
    ensures { OnOk result (Appends (ShowsTested tested.now) (string_bytes text.old) (string_bytes text.new)) }
{
    match &tested.heard {
        Ok(heard) => push_heard(alloc, text, tested.full, heard),
        Err(_) => text.push_str("rejected MasterUnread"),
    }
}

// Appends the lines of what is heard.
fn push_heard(alloc: Global, text: &mut String, full: u64, heard: &Heard) -> Result<(), AllocError>
    requires { 1 ≤ full }
    ensures { OnOk result (Appends (ShowsHeard full heard.now) (string_bytes text.old) (string_bytes text.new)) }
{
    push_stretches(alloc, text, full, heard.stretches.as_slice())?;
    push_verdict(alloc, text, full, heard.verdict)
}

// Appends the lines of the stretches of all channels.
fn push_stretches(
    alloc: Global,
    text: &mut String,
    full: u64,
    stretches: &[Vec<Stretch>],
) -> Result<(), AllocError>
    requires { 1 ≤ full }
    ensures { OnOk result (Appends (ShowsAllFound full (found_from 0 (map (λ found. found.items) stretches.now))) (string_bytes text.old) (string_bytes text.new)) }
{
    for channel in 0..stretches.len() {
        push_channel(alloc, text, full, channel, stretches[channel].as_slice())?;
    }
    Ok(())
}

// Appends the lines of a channel's stretches.
fn push_channel(
    alloc: Global,
    text: &mut String,
    full: u64,
    channel: usize,
    stretches: &[Stretch],
) -> Result<(), AllocError>
    requires { 1 ≤ full }
    ensures { OnOk result (Appends (ShowsAllFound full (map (found_at channel) stretches.now)) (string_bytes text.old) (string_bytes text.new)) }
{
    for stretch in stretches {
        push_stretch(alloc, text, full, channel, *stretch)?;
    }
    Ok(())
}

// Appends the line of a stretch, with its end.
fn push_stretch(
    alloc: Global,
    text: &mut String,
    full: u64,
    channel: usize,
    stretch: Stretch,
) -> Result<(), AllocError>
    requires { 1 ≤ full }
    ensures { OnOk result (Appends (EndsLine (ShowsFound full (found_at channel stretch))) (string_bytes text.old) (string_bytes text.new)) }
{
    push_places(text, channel, stretch)?;
    push_level(alloc, text, stretch.residual, full)?;
    let place = stretch.place;
    writeln!(text, " place {place}")
}

// Appends the start of a stretch's line, up to its level.
fn push_places(text: &mut String, channel: usize, stretch: Stretch) -> Result<(), AllocError>
    ensures { OnOk result (string_bytes text.new ≡ string_bytes text.old ++ places_text channel stretch) }
{
    let (first, last, residual) = (stretch.first, stretch.last, stretch.residual);
    write!(
        text,
        "channel {channel} first {first} last {last} residual {residual} dBFS "
    )
}

// Appends the line of a verdict, without its end.
fn push_verdict(
    alloc: Global,
    text: &mut String,
    full: u64,
    verdict: Verdict,
) -> Result<(), AllocError>
    requires { 1 ≤ full }
    ensures { OnOk result (Appends (ShowsVerdict full verdict) (string_bytes text.old) (string_bytes text.new)) }
{
    match verdict {
        Verdict::Accepted(residual) => push_accepted(alloc, text, full, residual),
        Verdict::MasterShape { .. } => text.push_str("rejected MasterShape"),
        Verdict::MasterLength { .. } => text.push_str("rejected MasterLength"),
        Verdict::TooLoud { channel, place } => write!(text, "rejected TooLoud {channel} {place}"),
        Verdict::Residual { channel, place } => write!(text, "rejected Residual {channel} {place}"),
    }
}

// Appends the line of an accepted master.
fn push_accepted(
    alloc: Global,
    text: &mut String,
    full: u64,
    residual: u64,
) -> Result<(), AllocError>
    requires { 1 ≤ full }
    ensures { OnOk result (Appends (ShowsVerdict full (Verdict.Accepted residual)) (string_bytes text.old) (string_bytes text.new)) }
{
    write!(text, "accepted residual {residual} dBFS ")?;
    push_level(alloc, text, residual, full)
}
