//! Mix texts: one that is read to its values, and others with their first faults. `tests/try_null_test` has more of
//! them.

use mix_core::{Clip, Gains, Mix, Point, read};
use std::alloc::{AllocError, Global};
use std::test::Fail;

const TEXT: &str = "[mix]
unit = 134217728
audible = [-3, 10, -3]
limit = 1000
every = 1
takes = [\"a.dff\", \"b.dff\"]

[[mix.decoder]]
taps = [1, 2, 1]

[[mix.clip]]
take = 0
start = 0
at = 0
length = 16
gain = [[8, 16777216], [16, 0]]

[[mix.clip]]
take = 1
decoder = 0
start = 8
at = 8
length = 16
gains = [[[0, 0], [8, 16777216]], [[0, 0], [4, 16777216]]]
";

// Whether points have these places and gains.
fn are_points(points: &[Point], wanted: &[(usize, i32)]) -> bool {
    let mut rest = wanted.iter();
    for point in points {
        match rest.next() {
            Some((place, gain)) if point.place == *place && point.gain == *gain => {}
            _ => return false,
        }
    }
    rest.next().is_none()
}

// Whether the first clip is that of the text.
fn is_first(clip: &Clip) -> bool {
    let are_gains = match &clip.gains {
        Gains::Alike(points) => are_points(points, &[(8, 1 << 24), (16, 0)]),
        _ => false,
    };
    clip.take == 0 && clip.start == 0 && clip.at == 0 && clip.length == 16 && are_gains
}

// Whether the second clip is that of the text.
fn is_second(clip: &Clip) -> bool {
    let are_gains = match &clip.gains {
        Gains::Each(lists) => match lists.as_slice() {
            [one, other] => {
                are_points(one, &[(0, 0), (8, 1 << 24)])
                    && are_points(other, &[(0, 0), (4, 1 << 24)])
            }
            _ => false,
        },
        _ => false,
    };
    clip.take == 1 && clip.decoder == 0 && clip.start == 8 && clip.at == 8 && are_gains
}

// Whether the names are those of the text.
fn are_takes(takes: &[String]) -> bool {
    match takes {
        [one, other] => one.as_str() == "a.dff" && other.as_str() == "b.dff",
        _ => false,
    }
}

// Whether the clips are those of the text.
fn are_clips(clips: &[Clip]) -> bool {
    match clips {
        [one, other] => is_first(one) && is_second(other),
        _ => false,
    }
}

// Whether the one decoder is that of the text.
fn are_decoders(decoders: &[Vec<i32>]) -> bool {
    match decoders {
        [taps] => taps.as_slice() == [1, 2, 1].as_slice(),
        _ => false,
    }
}

// Whether the mix is that of the text.
fn is_stated(mix: &Mix) -> bool {
    let are_numbers = mix.unit == 1 << 27 && mix.limit == 1000 && mix.every == 1;
    let is_audible = mix.audible.as_slice() == [-3, 10, -3].as_slice();
    are_numbers
        && is_audible
        && are_takes(&mix.takes)
        && are_decoders(&mix.decoders)
        && are_clips(&mix.clips)
}

#[test]
fn reads_a_mix(rt: HostRuntime) -> Result<(), Fail> {
    let mix = read(rt.alloc(), TEXT.as_bytes())?;
    assert!(rt; is_stated(&mix), "the mix of the text");
    Ok(())
}

// All keys before `every`.
const TABLE: &[u8] = b"[mix]\nunit = 4\naudible = [1]\nlimit = 0\ntakes = ['a']\n";

// All before the clips.
const CLIPS: &[u8] =
    b"[mix]\nunit = 4\naudible = [1]\nlimit = 0\ntakes = ['a']\ndecoder = [{taps = [1]}]\nclip = [";

// All before the gain of a clip.
const CLIP: &[u8] = b"[mix]\nunit = 4\naudible = [1]\nlimit = 0\ntakes = ['a']\n\
    decoder = [{taps = [1]}]\nclip = [{take = 0, start = 0, at = 8, length = 8, ";

// Texts in two parts, each with its first fault. A later fault follows in many of them.
const REFUSED: [(&[u8], &[u8], &str); 20] = [
    (b"", b"= 1", "NotToml"),
    (b"", b"gain = 1", "UnknownKey"),
    (b"", b"", "MissingKey mix"),
    (b"", b"mix = []", "WrongKind mix"),
    (b"", b"[mix]\nunits = 4", "UnknownKey"),
    (b"", b"[mix]\nunit = 0", "OutOfLimit unit"),
    (
        b"",
        b"[mix]\nunit = 4\naudible = [1, -2, 1]",
        "OutOfLimit audible",
    ),
    (
        b"",
        b"[mix]\nunit = 4\naudible = [1]\nlimit = -1",
        "OutOfLimit limit",
    ),
    (TABLE, b"every = 65", "OutOfLimit every"),
    (TABLE, b"decoder = [1]", "MissingKey clip"),
    (TABLE, b"decoder = [1]\nclip = [1]", "WrongKind decoder"),
    (
        TABLE,
        b"decoder = [{taps = [1, 1]}]\nclip = [1]",
        "OutOfLimit taps",
    ),
    (CLIPS, b"1]", "WrongKind clip"),
    (CLIPS, b"{take = 1, decoder = 1}]", "NoTake 0"),
    (CLIPS, b"{take = 0, decoder = 1}]", "OutOfLimit decoder"),
    (
        CLIPS,
        b"{take = 0, start = 0, at = 68719476736, length = 1}]",
        "OutOfLimit length",
    ),
    (CLIP, b"gain = [[0], ['a']]}]", "WrongKind gain"),
    (CLIP, b"gain = [[0, 0], [0, 1]]}]", "OutOfLimit gain"),
    (CLIP, b"gain = [[0, 0]], gains = 1}]", "OutOfLimit gains"),
    (CLIP, b"gains = []}, 1]", "OutOfLimit gains"),
];

// Whether a text is refused with a fault of this text.
fn is_refused(alloc: Global, parts: &[&[u8]], name: &str) -> Result<bool, AllocError> {
    let text = parts.concat(alloc)?;
    match read(alloc, &text) {
        Ok(_) => Ok(false),
        Err(fault) => Ok(format!(in alloc; "{fault}")?.as_str() == name),
    }
}

#[test]
fn refuses_texts(rt: HostRuntime) {
    for (before, after, name) in &REFUSED {
        let refused = is_refused(rt.alloc(), &[*before, *after], name);
        assert!(rt; refused.unwrap_or(false), "{name}");
    }
}

const ONE: &[u8] = b"{take = 0, start = 0, at = 0, length = 1}, ";

// A mix of so many clips at one place.
fn overlapping(alloc: Global, number: usize) -> Result<Vec<u8>, AllocError> {
    let mut text = Vec::from_slice(alloc, CLIPS)?;
    for _ in 0..number {
        text.extend_from_slice(ONE)?;
    }
    text.extend_from_slice(b"]")?;
    Ok(text)
}

// Whether 64 clips at one place are a mix, and 65 are none.
fn are_counted(alloc: Global) -> Result<bool, AllocError> {
    let most = overlapping(alloc, 64)?;
    let Ok(mix) = read(alloc, &most) else {
        return Ok(false);
    };
    let more = overlapping(alloc, 65)?;
    let is_refused = is_refused(alloc, &[&more], "OutOfLimit clip")?;
    Ok(mix.clips.len() == 64 && is_refused)
}

#[test]
fn counts_what_overlaps(rt: HostRuntime) {
    let counted = are_counted(rt.alloc());
    assert!(rt; counted.unwrap_or(false), "64 clips at one place, and 65");
}
