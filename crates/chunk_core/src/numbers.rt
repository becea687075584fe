//! Unsigned numbers of a fixed width, in either order of bytes, and IDs.

ghost use Rattle.std.specs.Prelude.{◌≡◌, ◌≤◌, ◌+◌, ◌++◌, OnOk, OnErr, length};
ghost use Rattle.chunk_core.specs.Numbers.{bytes_of, id_at, number_at};

use byteorder::{BigEndian, ByteOrder, LittleEndian};
use std::alloc::AllocError;

/// The order of a number's bytes.
#[derive(Clone, Copy)]
pub enum Order {
    /// The highest byte first, as in IFF and DSDIFF 1.5.
    Big,
    /// The lowest byte first, as in RIFF and DSF 1.01.
    Little,
}

/// The four bytes of the ID at the place `at`.
pub fn id_at(bytes: &[u8], at: usize) -> [u8; 4]
    requires { at + 4 ≤ length bytes.now }
    ensures { result ≡ id_at bytes.now at }
{
    let (_, here) = bytes.split_at(at);
    let (prefix, _) = here.split_at(4);
    let mut id = [0; 4];
    id.copy_from_slice(prefix);
    id
}

/// The number of two bytes at the place `at`.
pub fn u16_at(order: Order, bytes: &[u8], at: usize) -> u16
    requires { at + 2 ≤ length bytes.now }
    ensures { result ≡ number_at order 2 bytes.now at }
{
    let (_, here) = bytes.split_at(at);
    match order {
        Order::Big => BigEndian::read_u16(here),
        Order::Little => LittleEndian::read_u16(here),
    }
}

/// The number of four bytes at the place `at`.
pub fn u32_at(order: Order, bytes: &[u8], at: usize) -> u32
    requires { at + 4 ≤ length bytes.now }
    ensures { result ≡ number_at order 4 bytes.now at }
{
    let (_, here) = bytes.split_at(at);
    match order {
        Order::Big => BigEndian::read_u32(here),
        Order::Little => LittleEndian::read_u32(here),
    }
}

/// The number of eight bytes at the place `at`.
pub fn u64_at(order: Order, bytes: &[u8], at: usize) -> u64
    requires { at + 8 ≤ length bytes.now }
    ensures { result ≡ number_at order 8 bytes.now at }
{
    let (_, here) = bytes.split_at(at);
    match order {
        Order::Big => BigEndian::read_u64(here),
        Order::Little => LittleEndian::read_u64(here),
    }
}

/// The eight bytes of `value`.
pub fn u64_bytes(order: Order, value: u64) -> [u8; 8]
    ensures { result ≡ bytes_of order 8 value }
{
    let mut bytes = [0; 8];
    match order {
        Order::Big => BigEndian::write_u64(&mut bytes, value),
        Order::Little => LittleEndian::write_u64(&mut bytes, value),
    }
    bytes
}

/// Appends the two bytes of `value`. After a refused growth `out` is unchanged.
pub fn push_u16(out: &mut Vec<u8>, order: Order, value: u16) -> Result<(), AllocError>
    ensures ok { OnOk result (out.new.items ≡ out.old.items ++ bytes_of order 2 value) }
    ensures err { OnErr result (out.new.items ≡ out.old.items) }
{
    let mut bytes = [0; 2];
    match order {
        Order::Big => BigEndian::write_u16(&mut bytes, value),
        Order::Little => LittleEndian::write_u16(&mut bytes, value),
    }
    out.extend_from_slice(&bytes)
}

/// Appends the four bytes of `value`. After a refused growth `out` is unchanged.
pub fn push_u32(out: &mut Vec<u8>, order: Order, value: u32) -> Result<(), AllocError>
    ensures ok { OnOk result (out.new.items ≡ out.old.items ++ bytes_of order 4 value) }
    ensures err { OnErr result (out.new.items ≡ out.old.items) }
{
    let mut bytes = [0; 4];
    match order {
        Order::Big => BigEndian::write_u32(&mut bytes, value),
        Order::Little => LittleEndian::write_u32(&mut bytes, value),
    }
    out.extend_from_slice(&bytes)
}

/// Appends the eight bytes of `value`. After a refused growth `out` is unchanged.
pub fn push_u64(out: &mut Vec<u8>, order: Order, value: u64) -> Result<(), AllocError>
    ensures ok { OnOk result (out.new.items ≡ out.old.items ++ bytes_of order 8 value) }
    ensures err { OnErr result (out.new.items ≡ out.old.items) }
{
    out.extend_from_slice(&u64_bytes(order, value))
}
