//! The texts of those faults that no command prints, or that no small file causes.

use cert_core::{CertFault, CertReason, CheckFault};
use chunk_core::{ChunkFault, Device};
use cost_core::{RoomFault, SinkFault, WindowFault};
use dsd_bits::{BitsFault, LaceFault};
use dsdiff_core::{DsdiffFault, WriteFault};
use dsf_core::DsfFault;
use fir_core::TapsFault;
use std::alloc::{AllocError, Global};
use std::fmt::{Debug, Display};
use trellis_core::BridgeFault;
use wave_core::WaveFault;

// Whether a value is printed as this text.
fn is_printed<T: Display>(alloc: Global, value: &T, text: &str) -> Result<bool, AllocError> {
    Ok(format!(in alloc; "{value}")?.as_str() == text)
}

// The cases of a table of which this isn't so.
fn others<T: Display>(alloc: Global, cases: &[(T, &str)]) -> usize {
    let mut number: usize = 0;
    for (value, text) in cases {
        if !is_printed(alloc, value, text).unwrap_or(false) {
            number = number.saturating_add(1);
        }
    }
    number
}

// How many limits of a decimator have another debug form than this text.
fn other_limits(alloc: Global, cases: &[(TapsFault, &str)]) -> usize {
    let mut number: usize = 0;
    for (value, text) in cases {
        if !is_shown(alloc, value, text).unwrap_or(false) {
            number = number.saturating_add(1);
        }
    }
    number
}

// Whether the debug form of a value is this text.
fn is_shown<T: Debug>(alloc: Global, value: &T, text: &str) -> Result<bool, AllocError> {
    Ok(format!(in alloc; "{value:?}")?.as_str() == text)
}

const LIMITS: &[(TapsFault, &str)] = &[
    (TapsFault::TapNumber, "TapNumber"),
    (TapsFault::TapSum, "TapSum"),
    (TapsFault::Factor, "Factor"),
    (TapsFault::Delay, "Delay"),
    (TapsFault::Shift, "Shift"),
    (TapsFault::Width, "Width"),
    (TapsFault::Memory, "Memory"),
];

const BITS: &[(BitsFault, &str)] = &[
    (BitsFault::TooFewBytes, "TooFewBytes"),
    (BitsFault::Memory, "Memory"),
];

const LACES: &[(LaceFault, &str)] = &[
    (LaceFault::PartFrame, "PartFrame"),
    (LaceFault::TooFewBytes, "TooFewBytes"),
    (LaceFault::Memory, "Memory"),
];

const CHUNKS: &[(ChunkFault, &str)] = &[
    (ChunkFault::HeadCut(0), "HeadCut 0"),
    (
        ChunkFault::DataCut {
            place: 114,
            id: *b"DSD ",
            size: 8,
        },
        "DataCut 114",
    ),
    (ChunkFault::Memory, "Memory"),
];

// The ID is of no chunk that may appear only once.
const FORMS: &[(DsdiffFault, &str)] = &[
    (DsdiffFault::NotDsdiff, "NotDsdiff"),
    (DsdiffFault::Twice([0, 0, 0, 0xa]), "Twice 0000000a"),
    (
        DsdiffFault::TooLong {
            size: 1,
            channels: 1,
        },
        "TooLong",
    ),
    (DsdiffFault::Memory, "Memory"),
];

const WRITTEN: &[(WriteFault, &str)] = &[
    (WriteFault::NotWholeBytes, "NotWholeBytes"),
    (WriteFault::Memory, "Memory"),
];

const BLOCKS: &[(DsfFault, &str)] = &[(DsfFault::NotDsf, "NotDsf"), (DsfFault::Memory, "Memory")];

const WAVES: &[(WaveFault, &str)] = &[
    (WaveFault::TooLarge, "TooLarge"),
    (WaveFault::Memory, "Memory"),
];

#[test]
fn faults_of_bits_and_files(rt: HostRuntime) {
    let alloc = rt.alloc();
    assert!(rt;
        (others(alloc, BITS), others(alloc, LACES)) == (0, 0),
        "bits"
    );
    assert!(rt;
        (others(alloc, CHUNKS), others(alloc, &[(Device, "Device")])) == (0, 0),
        "chunks"
    );
    assert!(rt;
        (others(alloc, FORMS), others(alloc, WRITTEN)) == (0, 0),
        "DSDIFF"
    );
    assert!(rt; others(alloc, BLOCKS) == 0, "DSF");
    assert!(rt;
        (others(alloc, WAVES), other_limits(alloc, LIMITS)) == (0, 0),
        "playing"
    );
}

const ROOMS: &[(RoomFault, &str)] = &[
    (RoomFault::NoRoomBefore, "NoRoomBefore"),
    (RoomFault::NoRoomAfter, "NoRoomAfter"),
];

const WINDOWS: &[(WindowFault, &str)] = &[
    (WindowFault::NoRoomBefore, "NoRoomBefore"),
    (WindowFault::NoRoomAfter, "NoRoomAfter"),
    (WindowFault::Memory, "Memory"),
];

const SEARCHES: &[(BridgeFault, &str)] = &[
    (BridgeFault::Memory, "Memory"),
    (BridgeFault::Sink, "Sink"),
];

const CHECKS: &[(CheckFault, &str)] = &[
    (CheckFault::Device, "Device"),
    (CheckFault::Memory, "Memory"),
];

const WRITES: &[(CertFault, &str)] = &[
    (CertFault::Device, "Device"),
    (CertFault::Failed, "Failed"),
];

#[test]
fn faults_of_bridges(rt: HostRuntime) {
    let alloc = rt.alloc();
    assert!(rt;
        (others(alloc, ROOMS), others(alloc, WINDOWS)) == (0, 0),
        "rooms"
    );
    assert!(rt;
        (
            others(alloc, SEARCHES),
            others(alloc, &[(SinkFault, "SinkFault")])
        ) == (0, 0),
        "searches"
    );
    assert!(rt;
        (others(alloc, CHECKS), others(alloc, WRITES)) == (0, 0),
        "certificates"
    );
    assert!(rt;
        others(alloc, &[(CertReason::Extra, "Extra")]) == 0,
        "a reason"
    );
}
