//! Chunks of DSDIFF 1.5 (an ID, a size, the data and a pad), found and spelled; values worked out by hand.

ghost use Rattle.std.specs.Prelude.{◌≤◌};

use crate::fixtures::compared::equal;
use chunk_core::{ChunkFault, Order, Span, push_chunk, push_u16, push_u32, push_u64, walk};
use std::alloc::{AllocError, Global};
use std::test::Fail;

// A chunk `AAAA` of one data byte, without its pad.
const ONE_CHUNK: &[u8; 13] = b"AAAA\0\0\0\0\0\0\0\x01\xff";

const WHOLE: Span = Span {
    id: *b"AAAA",
    start: 12,
    size: 1,
};

// Whether these are the one chunk of `ONE_CHUNK`.
fn are_whole(spans: &[Span]) -> bool {
    match spans {
        [span] => *span == WHOLE,
        _ => false,
    }
}

// Whether that chunk is found in the bytes up to a place.
fn walked(alloc: Global, end: usize) -> Result<bool, ChunkFault>
    requires { end ≤ 13 }
{
    Ok(are_whole(&walk(alloc, ONE_CHUNK, 0, end)?))
}

// The fault of a walk up to a place, if it has one.
fn fault(alloc: Global, end: usize) -> Option<ChunkFault>
    requires { end ≤ 13 }
{
    walk(alloc, ONE_CHUNK, 0, end).err()
}

#[test]
fn walks(rt: HostRuntime) -> Result<(), Fail> {
    assert!(rt; walked(rt.alloc(), 13)?);
    Ok(())
}

#[test]
fn names_where_it_is_cut(rt: HostRuntime) {
    let cut = ChunkFault::DataCut {
        place: 0,
        id: *b"AAAA",
        size: 1,
    };
    assert!(rt; fault(rt.alloc(), 12) == Some(cut));
    assert!(rt; fault(rt.alloc(), 11) == Some(ChunkFault::HeadCut(0)));
}

// Appends a chunk and numbers of 2, 4 and 8 bytes.
fn push_each(out: &mut Vec<u8>) -> Result<(), AllocError> {
    push_chunk(out, *b"AAAA", &[0xff])?;
    push_u16(out, Order::Big, 1)?;
    push_u32(out, Order::Little, 352_800)?;
    push_u64(out, Order::Big, 116)
}

// Whether these bytes are appended.
fn appends(alloc: Global, bytes: &[u8]) -> Result<bool, AllocError> {
    let mut out = Vec::new(alloc);
    push_each(&mut out)?;
    Ok(equal(&out, bytes))
}

#[test]
fn pushes(rt: HostRuntime) -> Result<(), Fail> {
    let bytes = b"AAAA\0\0\0\0\0\0\0\x01\xff\0\0\x01\x20\x62\x05\0\0\0\0\0\0\0\0\x74";
    assert!(rt; appends(rt.alloc(), bytes)?);
    Ok(())
}
