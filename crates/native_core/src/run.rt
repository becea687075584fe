//! The bits of a sound that are given while its bytes come, from a frame on.

ghost use Rattle.std.specs.Prelude.{◌≡◌, ◌+◌, ◌-◌, ◌*◌, ◌/◌, ◌%◌, ◌<◌, ◌≤◌, ◌++◌, false, true, drop, if◌then◌else◌, length, take};
ghost use Rattle.dsd_bits.specs.Sounds.{IsSound, sound_size};
ghost use Rattle.native_core.specs.Runs.{group_size};

use crate::layout::Layout;
use crate::native::push_native;
use dsd_bits::{Interleaving, Sound};
use interleave_core::{Segment, segment_size};
use std::alloc::{AllocError, Global};

// The bits of each channel in a group.
const GROUP_BITS: usize = 32_768;

// The bytes of each channel in a group.
const GROUP_BYTES: usize = 4096;

/// The bits of a sound that are given from a frame on, while its bytes come. It keeps the bytes of at most one group of
/// 4096 bytes a channel.
#[derive(Drop)]
pub struct BitRun {
    pub(crate) layout: Layout,
    pub(crate) sound: Sound,
    // How many groups were given, or left out.
    pub(crate) group: usize,
    // What came after them.
    pub(crate) part: Vec<u8>,
    // How many bytes of frames are still left out.
    pub(crate) skip: usize,
}

impl BitRun {
    ghost use Rattle.std.specs.Prelude.{◌≡◌, ◌+◌, ◌%◌, ◌≤◌, ℕ, List, [], IfOk, length};
    ghost use Rattle.dsd_bits.specs.Sounds.{IsSound};
    ghost use Rattle.native_core.specs.Runs as Runs;
    ghost use Rattle.native_core.specs.Runs.{FeedsRun, IsGiven, IsReady, run_fed};

    /// The frames of a sound from one on. The sound has whole bytes of each channel if they are in frames.
    pub fn new(alloc: Global, layout: Layout, sound: Sound, frame: usize) -> BitRun
        requires sound { IsSound sound }
        requires whole { sound.interleaving ≡ Interleaving.Bytes → sound.count % 8 ≡ 0 }
        requires frame { frame ≤ Runs.total_frames layout sound }
        ensures ready { IsReady result }
        ensures layout { result.layout ≡ layout }
        ensures sound { result.sound ≡ sound }
        ensures given { (came : List ℕ) → length came ≡ run_fed result → IsGiven frame came [] result }
        ensures first { frame ≡ 0 → run_fed result ≡ 0 }
    {
        let frames = GROUP_BITS / layout.unit();
        let group = (frame / frames).min(sound.count / GROUP_BITS);
        BitRun {
            layout,
            sound,
            group,
            part: Vec::new(alloc),
            skip: (frame - group * frames) * layout.frame_size(sound.channels),
        }
    }

    /// How many bytes of the sound came, or were left out.
    pub fn fed(&self) -> usize
        requires { IsReady self.now }
        ensures { result ≡ run_fed self.now }
    {
        self.group * (self.sound.channels * GROUP_BYTES) + self.part.len()
    }

    /// Takes the next bytes of the sound, and appends the bytes of the frames in the groups that are whole with them;
    /// with the last byte of the sound those of all frames, and then no run is left.
    pub fn feed(
        self,
        alloc: Global,
        bytes: &[u8],
        out: &mut Vec<u8>,
    ) -> Result<Option<BitRun>, AllocError>
        requires ready { IsReady self }
        requires few { run_fed self + length bytes.now ≤ self.sound.size }
        ensures { IfOk result (FeedsRun self bytes.now out.old.items out.new.items) }
    {
        let last = self.fed() + bytes.len() == self.sound.size;
        let BitRun {
            layout,
            sound,
            group,
            part,
            skip,
        } = self;
        let mut part = part;
        part.extend_from_slice(bytes)?;
        let count = bits_due(&sound, group, part.len(), last);
        let size = segment_size(sound.interleaving, sound.channels, count);
        let (whole, _) = part.split_at(size);
        let stretch = Segment {
            channels: sound.channels,
            count,
        };
        let kept = out.len();
        push_native(alloc, out, whole, stretch, sound.interleaving, layout)?;
        let added = out.len() - kept;
        drop_after(out, kept, skip.min(added));
        if last {
            return Ok(None);
        }
        drop_after(&mut part, 0, size);
        Ok(Some(BitRun {
            layout,
            sound,
            group: group + count / GROUP_BITS,
            part,
            skip: skip.saturating_sub(added),
        }))
    }
}

// Drops so many bytes after a place.
fn drop_after(held: &mut Vec<u8>, place: usize, cut: usize)
    requires { place + cut ≤ length held.old.items }
    ensures { held.new.items ≡ take place held.old.items ++ drop (place + cut) held.old.items }
{
    if cut == 0 {
        return;
    }
    let left = held.len() - cut;
    held.copy_within(place + cut.., place);
    held.truncate(left);
}

// How many bits of each channel are given of so many bytes after a group: all that are left, or those of whole groups.
fn bits_due(sound: &Sound, group: usize, size: usize, last: bool) -> usize
    requires sound { IsSound sound.now }
    requires some { group * 32768 ≤ sound.now.count }
    requires last { last ≡ true → group * group_size sound.now + size ≡ sound.now.size }
    requires more { last ≡ false → group * group_size sound.now + size < sound.now.size }
    ensures value { result ≡ (if last then sound.now.count - group * 32768 else size / group_size sound.now * 32768) }
    ensures inside { group * 32768 + result ≤ sound.now.count }
    ensures held { sound_size sound.now.interleaving sound.now.channels result ≤ size }
{
    if last {
        return sound.count - group * GROUP_BITS;
    }
    size / (sound.channels * GROUP_BYTES) * GROUP_BITS
}
