//! The certificate of a bridge of one bit as it is written, and writers that fail.

ghost use Rattle.std.specs.Prelude.{◌≡◌, ◌<◌, ◌≤◌, ◌^◌, ◌-◌, length, false};
ghost use Rattle.chunk_core.specs.Outlets.{outlet_failures};
ghost use Rattle.cert_core.specs.Writers.{has_head, is_open, row_length};

use crate::certificates::{NARROW, WORKED};
use crate::fixtures::devices::sip;
use cert_core::{CertFault, CertWriter, Version};
use chunk_core::Outlet;
use cost_core::LevelSink;
use std::alloc::{AllocError, Global};
use std::io::Write;
use std::test::Fail;

const NEVER: u64 = u64::MAX;

// A certificate of one entry of two rows. `parts` has the first and the last byte, counted from 1, of what each call
// writes of it: its header, the start of the entry, both rows, the cost.
struct Worked {
    version: Version,
    first: [u64; 2],
    last: [u64; 2],
    bytes: &'static [u8],
    parts: [(usize, usize); 5],
}

const CERTIFICATES: &[Worked] = &[
    Worked {
        version: Version::One,
        first: [1 << 63, 0],
        last: [4, 4],
        bytes: &WORKED,
        parts: [(1, 12), (13, 18), (19, 34), (35, 50), (51, 58)],
    },
    Worked {
        version: Version::Two,
        first: [4, 0],
        last: [4, 4],
        bytes: &NARROW,
        parts: [(1, 12), (13, 18), (19, 29), (30, 38), (39, 46)],
    },
];

// What the calls for a certificate of one entry of two rows return. Each is made whatever the ones before it returned.
fn answers<W: Write>(
    writer: &mut CertWriter<W>,
    first: &[u64],
    last: &[u64],
    cost: u64,
) -> [Result<(), CertFault>; 5]
    requires head { has_head writer.old ≡ false }
    requires open { is_open writer.old ≡ false }
    requires first { length first.now ≡ row_length writer.old }
    requires last { length last.now ≡ row_length writer.old }
    ensures { row_length writer.new ≡ row_length writer.old }
{
    [
        writer.begin(1),
        writer.begin_bridge(0, 0, 1),
        writer.level(first),
        writer.level(last),
        writer.end_bridge(cost),
    ]
}

// What became of the worked certificate.
#[derive(Drop)]
struct Outcome<W> {
    answers: [Result<(), CertFault>; 5],
    is_refused: bool,
    // Whether one more row is refused, too, when the writer is used as a sink.
    refuses_rows: bool,
    outlet: Outlet<W>,
}

// The outcome after as much of a certificate as could be written to an outlet. Err is out of memory.
fn written<W: Write + Drop>(
    alloc: Global,
    outlet: Outlet<W>,
    worked: &Worked,
) -> Result<Outcome<W>, AllocError>
    requires ready { outlet_failures outlet < 2 ^ 64 - 1 }
{
    let Ok(mut writer) = CertWriter::new(alloc, outlet, 2, worked.version) else {
        return Err(AllocError);
    };
    let answers = answers(&mut writer, &worked.first, &worked.last, 4);
    let is_refused = LevelSink::refused(&writer);
    let refuses_rows = is_refused && LevelSink::level(&mut writer, &worked.last).is_err();
    Ok(Outcome {
        answers,
        is_refused,
        refuses_rows,
        outlet: writer.finish(),
    })
}

// What the call for a part returns if the write of byte `write` fails.
fn answer((first, last): (usize, usize), write: usize) -> Result<(), CertFault> {
    if write < first {
        Err(CertFault::Failed)
    } else if write <= last {
        Err(CertFault::Device)
    } else {
        Ok(())
    }
}

// Whether these are the answers if the write of byte `write` fails.
fn are_answers(answers: &[Result<(), CertFault>], worked: &Worked, write: usize) -> bool {
    answers
        .iter()
        .zip(worked.parts)
        .all(|(given, part)| *given == answer(part, write))
}

// Whether a certificate is written whole, every call succeeds, and no row is refused. Memory for its bytes is reserved
// before, because the outlet would report a refused growth as a failed write.
fn is_written(alloc: Global, worked: &Worked) -> Result<bool, AllocError> {
    let room = Vec::with_capacity(alloc, worked.bytes.len())?;
    let written = written(alloc, Outlet::new(room), worked)?;
    let is_reported = are_answers(&written.answers, worked, usize::MAX) && !written.is_refused;
    let bytes = written.outlet.into_inner();
    Ok(is_reported && bytes.as_slice() == worked.bytes)
}

#[test]
fn the_worked_certificates_are_written(rt: HostRuntime) -> Result<(), Fail> {
    for worked in CERTIFICATES {
        assert!(rt;
            is_written(rt.alloc(), worked)?,
            "{} bytes",
            worked.bytes.len()
        );
    }
    Ok(())
}

// Tests a writer that fails at a write, or is full from that write on: whether it holds just the bytes before it, isn't
// called again, and each later call fails and rows are refused.
fn leaves(
    alloc: Global,
    worked: &Worked,
    fails_at: u64,
    full_from: u64,
    write: usize,
) -> Result<bool, AllocError>
    requires { 1 ≤ write }
{
    let outlet = Outlet::new(sip(alloc, fails_at, full_from));
    let written = written(alloc, outlet, worked)?;
    let is_reported = are_answers(&written.answers, worked, write) && written.refuses_rows;
    let is_once = written.outlet.failures() == 1;
    let device = written.outlet.into_inner();
    let is_prefix = worked.bytes.get(..write - 1) == Some(device.bytes.as_slice());
    Ok(is_reported && is_once && is_prefix && device.writes == write as u64)
}

// Whether this holds for both writers. Each write takes one byte.
fn leaves_a_prefix(alloc: Global, worked: &Worked, write: usize) -> Result<bool, AllocError>
    requires { 1 ≤ write }
{
    let place = write as u64;
    let fails = leaves(alloc, worked, place, NEVER, write)?;
    Ok(leaves(alloc, worked, NEVER, place, write)? && fails)
}

#[test]
fn a_failed_write_leaves_a_prefix(rt: HostRuntime) {
    for worked in CERTIFICATES {
        for write in 1..worked.bytes.len() + 1 {
            let is_left = leaves_a_prefix(rt.alloc(), worked, write);
            assert!(rt; is_left.unwrap_or(false), "write {write}");
        }
    }
}

// Whether the header of a certificate for bridges by so many weights is written.
fn begins(alloc: Global, weights: usize) -> Result<bool, AllocError>
    requires { (2 ≤ weights) × (weights ≤ 12) }
{
    let room = Vec::with_capacity(alloc, 12)?;
    let Ok(mut writer) = CertWriter::new(alloc, Outlet::new(room), weights, Version::Two) else {
        return Err(AllocError);
    };
    let begun = writer.begin(1).is_ok();
    let bytes = writer.finish().into_inner();
    Ok(begun && bytes.len() == 12 && bytes.get(7).copied() == Some(weights as u8))
}

#[test]
fn begins_by_each_number_of_weights(rt: HostRuntime) -> Result<(), Fail> {
    for weights in 2..13 {
        assert!(rt; begins(rt.alloc(), weights)?, "{weights} weights");
    }
    Ok(())
}
