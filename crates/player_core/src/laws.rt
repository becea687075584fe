//! Laws of what a player returns. Each function does nothing: a caller's proof cites what it ensures.

ghost use Rattle.player_core.specs.Laws.{FileHasSize, FramesFill, PrefixComesFirst, NothingIsDue, SoundIsPlayed};
ghost use Rattle.player_core.specs.Parts.{PartHasFrames, PartsMeet, WholeIsPart};
ghost use Rattle.player_core.specs.Playing.{PartIsPlayed, WholeIsAll};
ghost use Rattle.player_core.specs.Reaches.{HeadIsEnough, TailIsEnough, TracksMeet};

use wave_core::parts_join;

/// The law of the file: the WAVE text of a recording that a file holds is the header, the bytes of all frames of the
/// file's sound, and the pad. If they are too large there is none.
pub fn sound_is_played()
    ensures { SoundIsPlayed }
{
    parts_join();
}

/// The law of the data: there are as many bytes of all frames as the header says.
pub fn frames_fill_the_data()
    ensures { FramesFill }
{}

/// The law of the size: header, data and pad have as many bytes as the file.
pub fn file_has_its_size()
    ensures { FileHasSize }
{}

/// The law of the beginning: nothing is due before the first sound byte.
pub fn nothing_is_due_at_first()
    ensures { NothingIsDue }
{}

/// The law of prefixes: the bytes of the frames that are due after a prefix of the sound bytes are a prefix of those of
/// all frames.
pub fn frames_of_a_prefix_come_first()
    ensures { PrefixComesFirst }
{}

/// The law of parts: the bytes of a part are those of its frames, as the whole has them, and no others.
pub fn part_has_its_frames()
    ensures { PartHasFrames }
{}

/// The law of parts that meet: their bytes, one after the other, are those of one part.
pub fn parts_meet()
    ensures { PartsMeet }
{}

/// The law of the whole: the part from the first frame to the last is all that is played of the sound.
pub fn whole_is_a_part()
    ensures { WholeIsPart }
{}

/// The law of a part's file: the WAVE text of a part of a recording that a file holds is the header, the bytes of the
/// part's frames, and the pad; where they are too large there is none.
pub fn part_is_played()
    ensures { PartIsPlayed }
{
    parts_join();
}

/// The law of a whole recording: its range of frames is all that is played of it, and no sound lacks frames of that.
pub fn whole_is_all()
    ensures { WholeIsAll }
{}

/// The law of what is before: of the channels before a recording the bits from a frame on are enough, before which the
/// recording's first frame reads none.
pub fn tail_is_enough()
    ensures { TailIsEnough }
{}

/// The law of what is after: of the channels after a recording as many bits are enough as the filter's delay.
pub fn head_is_enough()
    ensures { HeadIsEnough }
{}

/// The law of tracks: what is played of a recording between its neighbours, and then of the next one between its own,
/// is what is played of both in the recording that all make.
pub fn tracks_meet()
    ensures { TracksMeet }
{}
