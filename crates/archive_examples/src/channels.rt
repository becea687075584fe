//! Files of one to six channels, converted and played in memory.

ghost use Rattle.std.specs.Prelude.{◌≤◌};

use archive_core::{Fault, Form, convert, play};
use part_examples::fixtures::compared::equal;
use part_examples::fixtures::files::file_of;
use part_examples::fixtures::waves::PLAYED;
use std::alloc::Global;
use std::test::Fail;

// A project that decimates by 8 with four taps.
const DECIMATE: &str =
    "[decimate]\ntaps = [1, 2, 3, 4]\nfactor = 8\ndelay = 3\nshift = 0\nwidth = 16\n";

// A byte of each channel.
const SOUND: [u8; 6] = [0xf0, 0x0f, 0xf0, 0x0f, 0xf0, 0x0f];

// Whether the DSF files to which a file is converted have a block for each channel, and are converted to the file
// again. With 1 bit per sample the earliest bit of a byte is its lowest, with 8 its highest.
fn comes_back(alloc: Global, file: &[u8], number: usize) -> Result<bool, Fault>
    requires { number ≤ 6 }
{
    let least = convert(alloc, file, Form::Dsf)?;
    let most = convert(alloc, &least.bytes, Form::Dsf8)?;
    let again = convert(alloc, &most.bytes, Form::Dsdiff)?;
    let size = 92 + 4096 * number;
    let are_blocks = (least.bytes.len(), most.bytes.len()) == (size, size);
    let begin = (least.bytes.get(92), most.bytes.get(92)) == (Some(&0x0f), Some(&0xf0));
    Ok(are_blocks && begin && again.dropped == 0 && equal(&again.bytes, file))
}

// Whether this is so of a file of so many channels, and it is played to its WAVE file.
fn is_kept_and_played(alloc: Global, number: usize) -> Result<bool, Fault>
    requires { (1 ≤ number) × (number ≤ 6) }
{
    let file = file_of(alloc, number, &SOUND[..number])?;
    let wave = play(alloc, DECIMATE.as_bytes(), &file)?;
    Ok(equal(&wave, PLAYED[number - 1]) && comes_back(alloc, &file, number)?)
}

#[test]
fn keeps_and_plays_two_channels(rt: HostRuntime) -> Result<(), Fail> {
    assert!(rt; is_kept_and_played(rt.alloc(), 2)?);
    Ok(())
}

#[test]
fn keeps_and_plays_each_number_of_channels(rt: HostRuntime) {
    for number in 1..7 {
        let is_so = is_kept_and_played(rt.alloc(), number);
        assert!(rt; is_so.unwrap_or(false), "{number} channels");
    }
}
