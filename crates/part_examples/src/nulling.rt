//! Null tests of small masters, worked out by hand.
//!
//! Full scale of decoded sound is 4, what can be heard is the taps 1, 2 and 1, and so is the one decoder.

ghost use Rattle.std.specs.Prelude.{◌≤◌};

use crate::fixtures::files::{DSF_HEADER, FILE, file_of};
use null_core::{Heard, NullFault, Stretch, Verdict, null_test};
use std::alloc::{AllocError, Global};
use std::test::Fail;

// The takes are 1101001011010010 and 0010110100101101.
const ONE: &[u8] = &[0xd2, 0xd2];

const OTHER: &[u8] = &[0x2d, 0x2d];

// The whole first take.
const WHOLE: &str = "[[mix.clip]]\ntake = 0\nstart = 0\nat = 0\nlength = 16\n";

// Half of the first take, and then half of the other.
const HALVES: &str = "[[mix.clip]]\ntake = 0\nstart = 0\nat = 0\nlength = 8\n\
    [[mix.clip]]\ntake = 1\nstart = 8\nat = 8\nlength = 8\n";

// A fade of eight places from the first take to the other.
const FADE: &str =
    "[[mix.clip]]\ntake = 0\nstart = 0\nat = 0\nlength = 12\ngain = [[4, 16777216], [12, 0]]\n\
    [[mix.clip]]\ntake = 1\nstart = 4\nat = 4\nlength = 12\ngain = [[0, 0], [8, 16777216]]\n";

// The whole first take, and then four silent places.
const SILENCE: &str = "[[mix.clip]]\ntake = 0\nstart = 0\nat = 0\nlength = 16\n\
    [[mix.clip]]\ntake = 0\nstart = 0\nat = 16\nlength = 4\ngain = [[0, 0]]\n";

// The first half of the first take twice.
const TWICE: &str = "[[mix.clip]]\ntake = 0\nstart = 0\nat = 0\nlength = 8\n\
    [[mix.clip]]\ntake = 0\nstart = 0\nat = 8\nlength = 8\n";

// The text of a mix of two takes with these lines in its table and these clips.
fn text_of(alloc: Global, lines: &str, clips: &str) -> Result<String, AllocError> {
    format!(in alloc;
        "[mix]
takes = [\"a.dff\", \"b.dff\"]
audible = [1, 2, 1]
{lines}
{clips}"
    )
}

// The lines of the table with a limit of 40, and the decoder.
const LINES: &str = "unit = 4\nlimit = 40\ndecoder = [{ taps = [1, 2, 1] }]\n";

// The same, and every fourth place is judged.
const EVERY_FOURTH: &str = "unit = 4\nlimit = 40\nevery = 4\ndecoder = [{ taps = [1, 2, 1] }]\n";

// The same with a limit of 27.
const LOWER: &str = "unit = 4\nlimit = 27\ndecoder = [{ taps = [1, 2, 1] }]\n";

// The greatest unit, and a decoder that is as loud as one may be.
const LOUD: &str = "unit = 268435456\nlimit = 40\ndecoder = [{ taps = [268435456] }]\n";

// The first take with the greatest gain.
const RAISED: &str =
    "[[mix.clip]]\ntake = 0\nstart = 0\nat = 0\nlength = 16\ngain = [[0, 67108864]]\n";

// Takes of so many channels.
fn takes_of(alloc: Global, number: usize) -> Result<[Vec<u8>; 2], AllocError>
    requires { number ≤ 6 }
{
    let one = file_of(alloc, number, &[0xd2; 12][..2 * number]);
    let other = file_of(alloc, number, &[0x2d; 12][..2 * number]);
    Ok([one?, other?])
}

// Whether these are the stretches: the first and the last place, the greatest residual and its place.
fn are_stretches(stretches: &[Stretch], wanted: &[(usize, usize, u64, usize)]) -> bool {
    let mut rest = wanted.iter();
    for stretch in stretches {
        let found = (stretch.first, stretch.last, stretch.residual, stretch.place);
        match rest.next() {
            Some(next) if found == *next => {}
            _ => return false,
        }
    }
    rest.next().is_none()
}

// A mix of one channel, its master, and its stretches.
struct Row<'a> {
    lines: &'a str,
    clips: &'a str,
    sound: &'a [u8],
    stretches: &'a [(usize, usize, u64, usize)],
}

const ROWS: [Row<'_>; 6] = [
    Row {
        lines: LINES,
        clips: WHOLE,
        sound: ONE,
        stretches: &[],
    },
    Row {
        lines: LINES,
        clips: WHOLE,
        sound: &[0xd3, 0xd2],
        stretches: &[(6, 8, 28, 7)],
    },
    Row {
        lines: LINES,
        clips: HALVES,
        sound: &[0xd2, 0x2d],
        stretches: &[(7, 8, 20, 8)],
    },
    Row {
        lines: LINES,
        clips: FADE,
        sound: &[0xd2, 0xed],
        stretches: &[(4, 12, 34, 9)],
    },
    Row {
        lines: EVERY_FOURTH,
        clips: HALVES,
        sound: &[0xd2, 0x2d],
        stretches: &[(8, 8, 20, 8)],
    },
    Row {
        lines: LINES,
        clips: TWICE,
        sound: ONE,
        stretches: &[(7, 8, 6, 7)],
    },
];

// What is heard of a master, if its file holds a recording.
fn heard_of(
    alloc: Global,
    lines: &str,
    clips: &str,
    master: &[u8],
) -> Result<Option<Heard>, NullFault> {
    let text = text_of(alloc, lines, clips)?;
    let takes = takes_of(alloc, 1)?;
    Ok(null_test(alloc, text.as_bytes(), &takes, master)?.ok())
}

// The greatest residual of the stretches, if they are these, and the master is accepted.
fn accepted_at(heard: &Heard, wanted: &[(usize, usize, u64, usize)]) -> Option<u64> {
    let Verdict::Accepted(residual) = heard.verdict else {
        return None;
    };
    for stretches in &heard.stretches {
        if !are_stretches(stretches, wanted) {
            return None;
        }
    }
    Some(residual)
}

// Whether a master is accepted with these stretches.
fn has_stretches(alloc: Global, row: &Row<'_>) -> Result<bool, NullFault> {
    let master = file_of(alloc, 1, row.sound)?;
    let Some(heard) = heard_of(alloc, row.lines, row.clips, &master)? else {
        return Ok(false);
    };
    let greatest = match row.stretches.first() {
        Some((_, _, residual, _)) => *residual,
        None => 0,
    };
    Ok(accepted_at(&heard, row.stretches) == Some(greatest))
}

#[test]
fn finds_stretches(rt: HostRuntime) {
    for row in &ROWS {
        assert!(rt;
            has_stretches(rt.alloc(), row).unwrap_or(false),
            "{}",
            row.clips
        );
    }
}

// The DSF file of one channel with these twenty bits, the earliest in the lowest bit of a byte.
fn dsf_of_twenty(alloc: Global, sound: &[u8; 3]) -> Result<Vec<u8>, AllocError> {
    let (before, from_count) = DSF_HEADER.split_at(64);
    let (_, after) = from_count.split_at(1);
    [before, &[20], after, sound, &[0; 4093]].concat(alloc)
}

#[test]
fn hears_the_end_of_a_clip(rt: HostRuntime) -> Result<(), Fail> {
    let master = dsf_of_twenty(rt.alloc(), &[0x4b, 0x4b, 0x06])?;
    let heard = heard_of(rt.alloc(), LINES, SILENCE, &master)?;
    let residual = heard.and_then(|heard| accepted_at(&heard, &[(15, 19, 16, 17)]));
    assert!(rt; residual == Some(16));
    Ok(())
}

// What is heard of a master over takes of so many channels, if its file holds a recording.
fn heard_over(
    alloc: Global,
    number: usize,
    clips: &str,
    master: &[u8],
) -> Result<Option<Heard>, NullFault>
    requires { number ≤ 6 }
{
    let text = text_of(alloc, LINES, clips)?;
    let takes = takes_of(alloc, number)?;
    Ok(null_test(alloc, text.as_bytes(), &takes, master)?.ok())
}

// Whether halves of takes of so many channels are heard where they meet, in each channel.
fn hears_halves(alloc: Global, number: usize) -> Result<bool, NullFault>
    requires { number ≤ 6 }
{
    let sound = [&[0xd2; 6][..number], &[0x2d; 6][..number]].concat(alloc)?;
    let master = file_of(alloc, number, &sound)?;
    let Some(heard) = heard_over(alloc, number, HALVES, &master)? else {
        return Ok(false);
    };
    let residual = accepted_at(&heard, &[(7, 8, 20, 8)]);
    Ok(heard.stretches.len() == number && residual == Some(20))
}

#[test]
fn hears_one_channel(rt: HostRuntime) -> Result<(), Fail> {
    assert!(rt; hears_halves(rt.alloc(), 1)?);
    Ok(())
}

#[test]
fn hears_each_number_of_channels(rt: HostRuntime) {
    for number in 1..7 {
        assert!(rt;
            hears_halves(rt.alloc(), number).unwrap_or(false),
            "{number} channels"
        );
    }
}

// Whether a take of so many channels is accepted as its own master, and has no stretches in any of them.
fn accepts_take(alloc: Global, number: usize) -> Result<bool, NullFault>
    requires { number ≤ 6 }
{
    let master = file_of(alloc, number, &[0xd2; 12][..2 * number])?;
    let Some(heard) = heard_over(alloc, number, WHOLE, &master)? else {
        return Ok(false);
    };
    let residual = accepted_at(&heard, &[]);
    Ok(heard.stretches.len() == number && residual == Some(0))
}

#[test]
fn accepts_takes_of_each_number_of_channels(rt: HostRuntime) {
    for number in 1..7 {
        assert!(rt;
            accepts_take(rt.alloc(), number).unwrap_or(false),
            "{number} channels"
        );
    }
}

// The verdict on half of a take of so many channels, as the master of another number of them, without stretches.
fn verdict_on_half(
    alloc: Global,
    number: usize,
    channels: usize,
) -> Result<Option<Verdict>, NullFault>
    requires number { number ≤ 6 }
    requires channels { channels ≤ 6 }
{
    let master = file_of(alloc, channels, &[0xd2; 6][..channels])?;
    match heard_over(alloc, number, WHOLE, &master)? {
        Some(heard) if heard.stretches.is_empty() => Ok(Some(heard.verdict)),
        _ => Ok(None),
    }
}

// Whether half of a take is rejected for its length.
fn rejects_half(alloc: Global, number: usize) -> Result<bool, NullFault>
    requires { number ≤ 6 }
{
    let verdict = verdict_on_half(alloc, number, number)?;
    Ok(matches!(
        verdict,
        Some(Verdict::MasterLength {
            found: 8,
            wanted: 16
        })
    ))
}

// Whether a recording of another number of channels is rejected for that, and not for its length.
fn rejects_channels(alloc: Global, number: usize, channels: usize) -> Result<bool, NullFault>
    requires number { number ≤ 6 }
    requires channels { channels ≤ 6 }
{
    match verdict_on_half(alloc, number, channels)? {
        Some(Verdict::MasterShape { found, wanted }) => {
            Ok((found.channels, wanted.channels) == (channels, number))
        }
        _ => Ok(false),
    }
}

#[test]
fn rejects_misfits_of_each_number_of_channels(rt: HostRuntime) {
    for number in 1..7 {
        assert!(rt;
            rejects_half(rt.alloc(), number).unwrap_or(false),
            "{number} channels"
        );
        let other = number % 6 + 1;
        assert!(rt;
            rejects_channels(rt.alloc(), number, other).unwrap_or(false),
            "{number} channels"
        );
    }
}

// The verdict on a DSDIFF file of so many channels with this sound.
fn verdict_on(
    alloc: Global,
    lines: &str,
    clips: &str,
    number: usize,
    sound: &[u8],
) -> Result<Option<Verdict>, NullFault> {
    let master = file_of(alloc, number, sound)?;
    let heard = heard_of(alloc, lines, clips, &master)?;
    Ok(heard.map(|heard| heard.verdict))
}

#[test]
fn rejects_a_residual_above_the_limit(rt: HostRuntime) {
    let verdict = verdict_on(rt.alloc(), LOWER, WHOLE, 1, &[0xd3, 0xd2]);
    assert!(rt;
        matches!(
            verdict,
            Ok(Some(Verdict::Residual {
                channel: 0,
                place: 7
            }))
        )
    );
}

// The take's sound times 4 is 2^31, and the fourth bit is another one, which adds 2^29.
#[test]
fn rejects_a_place_that_is_too_loud(rt: HostRuntime) {
    let verdict = verdict_on(rt.alloc(), LOUD, RAISED, 1, &[0xc2, 0xd2]);
    assert!(rt;
        matches!(
            verdict,
            Ok(Some(Verdict::TooLoud {
                channel: 0,
                place: 3
            }))
        )
    );
}

#[test]
fn rejects_another_length(rt: HostRuntime) {
    let verdict = verdict_on(rt.alloc(), LINES, WHOLE, 1, &[0xd2]);
    assert!(rt;
        matches!(
            verdict,
            Ok(Some(Verdict::MasterLength {
                found: 8,
                wanted: 16
            }))
        )
    );
}

#[test]
fn rejects_another_number_of_channels(rt: HostRuntime) {
    let verdict = verdict_on(rt.alloc(), LINES, WHOLE, 2, &[0xd2; 4]);
    let Ok(Some(Verdict::MasterShape { found, wanted })) = verdict else {
        return assert!(rt; false, "accepted");
    };
    assert!(rt; (found.rate, found.channels) == (2_822_400, 2));
    assert!(rt; (wanted.rate, wanted.channels) == (2_822_400, 1));
}

#[test]
fn rejects_a_master_that_is_no_recording(rt: HostRuntime) {
    let heard = heard_of(rt.alloc(), LINES, WHOLE, b"RIFF");
    assert!(rt; matches!(heard, Ok(None)));
}

// The fault of a mix with these clips and takes, as it is written for debugging; nothing if there is none.
fn fault_of(alloc: Global, clips: &str, takes: &[Vec<u8>]) -> Result<String, AllocError> {
    let text = text_of(alloc, LINES, clips)?;
    match null_test(alloc, text.as_bytes(), takes, &FILE) {
        Ok(_) => Ok(String::new(alloc)),
        Err(fault) => format!(in alloc; "{fault:?}"),
    }
}

const LONGER: &str = "[[mix.clip]]\ntake = 0\nstart = 0\nat = 0\nlength = 17\n";

const TWO_GAINS: &str = "[[mix.clip]]\ntake = 0\nstart = 0\nat = 0\nlength = 16\n\
    gains = [[[0, 16777216]], [[0, 16777216]]]\n";

// Clips, the number of channels of each take, or 0 for a file that holds no recording, and the fault.
const REFUSED: [(&str, &[usize], &str); 6] = [
    ("[[mix.clips]]", &[], "Mix(UnknownKey(Mix))"),
    (LONGER, &[1], "TakeNumber"),
    (LONGER, &[1, 0], "TakeUnread(1, UnknownForm)"),
    (LONGER, &[1, 2], "TakeMismatch(1)"),
    (LONGER, &[1, 1], "ClipOutside(0)"),
    (TWO_GAINS, &[1, 1], "ClipGains(0)"),
];

// Takes of so many channels, or no recordings.
fn takes_in(alloc: Global, numbers: &[usize]) -> Result<Vec<Vec<u8>>, AllocError> {
    let mut takes = Vec::new(alloc);
    for number in numbers {
        let take = match number {
            1 => file_of(alloc, 1, ONE),
            2 => file_of(alloc, 2, &[0x2d; 4]),
            _ => Vec::from_slice(alloc, OTHER),
        };
        takes.push(take?)?;
    }
    Ok(takes)
}

// Whether the fault of clips and takes is this one.
fn is_refused(alloc: Global, row: &(&str, &[usize], &str)) -> Result<bool, AllocError> {
    let (clips, numbers, fault) = *row;
    let takes = takes_in(alloc, numbers)?;
    Ok(fault_of(alloc, clips, &takes)?.as_str() == fault)
}

#[test]
fn refuses_texts_and_takes(rt: HostRuntime) {
    for row in &REFUSED {
        assert!(rt; is_refused(rt.alloc(), row) == Ok(true), "{}", row.2);
    }
}
