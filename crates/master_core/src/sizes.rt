//! How large the files of a master will be, before its bridges are searched.

use cut_core::Cut;
use dsd_bits::blocks_size;
use form_core::{Ends, Form, interleaving_in};

// The bytes of a certificate's head, of an entry without its rows, and of what a row has before its bounds.
const HEAD: u64 = 12;

const ENTRY: u64 = 14;

const ROW_HEAD: u64 = 9;

// A bound takes at most eight bytes.
const MOST_OF_BOUND: u64 = 8;

/// How many bytes the file of a cut's master has between these ends.
pub(crate) fn master_size(cut: &Cut, form: Form, ends: &Ends) -> u64 {
    let (channels, count) = (cut.channel_number(), cut.length());
    let sound = if interleaving_in(form).has_blocks() {
        blocks_size(channels, count) as u64
    } else {
        (count / 8 * channels) as u64
    };
    let around = (ends.head.len() as u64).saturating_add(ends.tail.len() as u64);
    sound.saturating_add(around)
}

/// How many bytes the certificate of a cut has at most, of version 2: as many as if each bound took eight bytes. How
/// many fewer it has depends on what the bridges cost.
pub(crate) fn most_of_certificate(cut: &Cut) -> u64 {
    let row = (MOST_OF_BOUND << (cut.weight_number() - 1)).saturating_add(ROW_HEAD);
    let channels = cut.channel_number() as u64;
    let mut size = HEAD;
    for cue in 0..cut.cue_number() - 1 {
        let bits = cut.cue(cue).bridge as u64;
        if bits > 0 {
            let entry = row
                .saturating_mul(bits.saturating_add(1))
                .saturating_add(ENTRY);
            size = size.saturating_add(entry.saturating_mul(channels));
        }
    }
    size
}
