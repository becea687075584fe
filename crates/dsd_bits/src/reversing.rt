//! Bytes with their bits in the other order, as DSF 1.01 stores them: the earliest bit is the least significant.

ghost use Rattle.std.specs.Prelude.{◌≡◌, map};
ghost use Rattle.dsd_bits.specs.Reversing.{AreReversed, IsReversed, reversed};

/// The bits of a byte in the other order: bit `i` of the result is bit `7 - i` of `byte`, where bit 0 is the least
/// significant.
pub fn reverse_byte(byte: u8) -> u8
    ensures value { result ≡ reversed byte }
    ensures bits { IsReversed byte result }
{
    byte % 2 * 128
        + byte / 2 % 2 * 64
        + byte / 4 % 2 * 32
        + byte / 8 % 2 * 16
        + byte / 16 % 2 * 8
        + byte / 32 % 2 * 4
        + byte / 64 % 2 * 2
        + byte / 128
}

/// Reverses each byte as [`reverse_byte`] does.
pub fn reverse(bytes: &mut [u8])
    ensures values { bytes.new ≡ map reversed bytes.old }
    ensures bits { AreReversed bytes.old bytes.new }
{
    for k in 0..bytes.len() {
        bytes[k] = reverse_byte(bytes[k]);
    }
}
