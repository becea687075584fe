//! The certificate of a bridge of one bit in both versions, worked out by hand as in `docs/CERTIFICATES.md`.

/// The bridge of one bit by the weights 1, 0 from ones to zeros: both bits cost 4.
pub(crate) const WORKED: [u8; 58] = [
    0x44, 0x53, 0x50, 0x43, 0, 1, 0, 2, 0, 0, 0, 1, // header
    0, 0, 0, 0, 0, 1, // cue 0, channel 0, one bit
    0x80, 0, 0, 0, 0, 0, 0, 0, 0, 0, 0, 0, 0, 0, 0, 0, // level 0
    0, 0, 0, 0, 0, 0, 0, 4, 0, 0, 0, 0, 0, 0, 0, 4, // level 1
    0, 0, 0, 0, 0, 0, 0, 4, // cost
];

/// The same in the second version. Its rows are capped at the cost 4. The first is 4 and 0: the least value 0 in eight
/// bytes, the width of one byte, and the excesses 4 and 0. The second is 4 and 4: the least value 4 in eight bytes, and
/// the width 0, so no bytes for the excesses.
pub(crate) const NARROW: [u8; 46] = [
    0x44, 0x53, 0x50, 0x43, 0, 2, 0, 2, 0, 0, 0, 1, // header
    0, 0, 0, 0, 0, 1, // cue 0, channel 0, one bit
    0, 0, 0, 0, 0, 0, 0, 0, 1, 4, 0, // level 0
    0, 0, 0, 0, 0, 0, 0, 4, 0, // level 1
    0, 0, 0, 0, 0, 0, 0, 4, // cost
];
