//! The certificate of a bridge of one bit, read a byte at a time, and by a reader that fails.

ghost use Rattle.std.specs.Prelude.{◌≡◌, length};
ghost use Rattle.chunk_core.specs.Inlets.{inlet_failures};
ghost use Rattle.cert_core.specs.Readers.{cert_inlet};

use crate::certificates::{NARROW, WORKED};
use crate::fixtures::devices::drip;
use crate::fixtures::windows::{bits_of, by_newest, ones, zeros};
use cert_core::{CertReader, CertVerdict, CheckFault};
use chunk_core::Inlet;
use cost_core::{Window, WindowFault};
use dsd_bits::Bits;
use std::alloc::Global;
use std::io::Read;
use std::test::Fail;

// The window of a bridge of one bit from ones to zeros, by the weights 1, 0.
fn newest(alloc: Global) -> Result<Window, WindowFault> {
    by_newest(alloc, ones(0, 8), 1, zeros(2, 9))
}

// The verdict on a certificate of one entry, of the bridge after cue 0 in channel 0.
fn verdict<R: Read>(
    alloc: Global,
    reader: &mut CertReader<R>,
    window: &Window,
    bits: &Bits,
) -> Result<CertVerdict, CheckFault>
    requires reader { inlet_failures (cert_inlet reader.old) ≡ 0 }
    requires bits { length bits.now ≡ window.now.levels }
{
    if let Some(reason) = reader.read_head(window.width() + 1, 1)? {
        return Ok(CertVerdict::Rejected(reason));
    }
    let verdict = reader.check_bridge(alloc, 0, 0, window, bits)?;
    match verdict {
        CertVerdict::Rejected(_) => Ok(verdict),
        CertVerdict::Accepted { cost: _ } => match reader.at_end()? {
            Some(reason) => Ok(CertVerdict::Rejected(reason)),
            None => Ok(verdict),
        },
    }
}

// The verdict on a certificate for the first bit of a byte as the bridge of a window.
fn checked<R: Read + Drop>(
    alloc: Global,
    window: Result<Window, WindowFault>,
    byte: u8,
    reader: R,
) -> Result<CertVerdict, CheckFault> {
    let Ok(window) = window else {
        return Err(CheckFault::Memory);
    };
    let Ok(bits) = bits_of(alloc, &window, byte) else {
        return Err(CheckFault::Memory);
    };
    let mut reader = CertReader::new(Inlet::new(reader));
    verdict(alloc, &mut reader, &window, &bits)
}

// The worked certificate in both versions.
const CERTIFICATES: [&[u8]; 2] = [&WORKED, &NARROW];

const FOUR: CertVerdict = CertVerdict::Accepted { cost: 4 };

#[test]
fn reads_of_one_byte_are_enough(rt: HostRuntime) -> Result<(), Fail> {
    for cert in &CERTIFICATES {
        let reader = drip(cert, 1, u64::MAX);
        let reported = checked(rt.alloc(), newest(rt.alloc()), 0x00, reader)?;
        assert!(rt; reported == FOUR, "{} bytes", cert.len());
    }
    Ok(())
}

// Whether the failure of a read is returned as `Device`. Each read gives at most `most` bytes.
fn reports_a_failed_read(alloc: Global, cert: &[u8], most: usize, read: u64) -> bool {
    let reader = drip(cert, most, read);
    checked(alloc, newest(alloc), 0x00, reader) == Err(CheckFault::Device)
}

// First the header, the entry's start, two rows, the cost and the end are each one read. Then each byte is one read,
// and the end another.
#[test]
fn a_failed_read_is_no_reason(rt: HostRuntime) {
    for read in 1..7 {
        assert!(rt;
            reports_a_failed_read(rt.alloc(), &WORKED, 100, read),
            "read {read}"
        );
    }
    for cert in &CERTIFICATES {
        for read in 1..cert.len() as u64 + 2 {
            assert!(rt;
                reports_a_failed_read(rt.alloc(), cert, 1, read),
                "byte {read}"
            );
        }
    }
}
