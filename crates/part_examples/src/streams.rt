//! The samples of a stream that is fed a byte.

ghost use Rattle.std.specs.Prelude.{◌≡◌};
ghost use Rattle.fir_core.specs.StreamView.{IsStream, state_of};

use fir_core::{Stream, Taps};
use std::alloc::{AllocError, Global};
use std::test::Fail;

// Feeds a stream its one byte, f0. Returns how many samples it gave before it was finished.
fn feed_byte(stream: &mut Stream, made: &mut Vec<i32>) -> Result<usize, AllocError>
    requires ready { IsStream stream.old }
    requires fed { (state_of stream.old).fed ≡ 0 }
    requires count { (state_of stream.old).count ≡ 8 }
{
    stream.feed(&[0xf0], made)?;
    let early = made.len();
    stream.finish(made)?;
    Ok(early)
}

// Whether a stream of one byte by these taps gives these samples, `early` of them before it is finished.
fn streams_byte(
    alloc: Global,
    taps: &[i32],
    delay: u32,
    (early, samples): (usize, &[i32]),
) -> Result<bool, Fail> {
    let taps = Taps::new(alloc, taps, 8, delay, 0, 16)?;
    let mut made = Vec::new(alloc);
    let found = feed_byte_to(alloc, &taps, &mut made)?;
    Ok(found == early && made.as_slice() == samples)
}

// Feeds a new stream its one byte.
fn feed_byte_to(alloc: Global, taps: &Taps, made: &mut Vec<i32>) -> Result<usize, AllocError> {
    let mut stream = Stream::new(alloc, taps, 8)?;
    feed_byte(&mut stream, made)
}

// At the delay 3 the four ones of f0 have come with the byte: 1 + 2 + 3 + 4. At the delay 8 the sample reads all eight
// bits, which sum to 0, and the place after them. It is given once it is known that no bit comes there.
#[test]
fn streams_one_byte(rt: HostRuntime) -> Result<(), Fail> {
    assert!(rt; streams_byte(rt.alloc(), &[1, 2, 3, 4], 3, (1, &[10]))?);
    assert!(rt; streams_byte(rt.alloc(), &[1; 9], 8, (0, &[0]))?);
    Ok(())
}
