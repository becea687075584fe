//! What is in memory fits the fields of a file.

ghost use Rattle.std.specs.Prelude.{◌≡◌, All, length, map};
ghost use Rattle.dsd_bits.specs.Contents.{mark_content, other_content};
ghost use Rattle.dsd_bits.specs.Shape.{HasShape};
ghost use Rattle.dsdiff_core.specs.ReadAgain.{FitsFields, FitsMark};

use dsd_bits::{Mark, Other, Recording};

/// The IDs, the marks and the kept chunks of a recording in memory fit the fields of a file. The function does nothing:
/// a caller's proof cites what it ensures.
pub fn fields_fit(recording: &Recording)
    ensures { FitsFields recording.now }
{
    ids_fit(recording.ids());
    marks_fit(recording.marks());
    others_fit(recording.others());
}

/// A recording in memory obeys the rules of one.
pub(crate) fn keeps_shape(recording: &Recording)
    ensures { HasShape recording.now }
{
    recording.channels();
}

fn ids_fit(ids: &[[u8; 4]])
    ensures { All (λ id. length id ≡ 4) ids.now }
{}

fn marks_fit(marks: &[Mark])
    ensures { All FitsMark (map mark_content marks.now) }
{
    for mark in marks {
        mark_fits(mark);
    }
}

fn mark_fits(mark: &Mark)
    ensures { FitsMark (mark_content mark.now) }
{
    let _hours = mark.hours;
    let _minutes = mark.minutes;
    let _seconds = mark.seconds;
    let _samples = mark.samples;
    let _offset = mark.offset;
    let _kind = mark.kind;
    let _channel = mark.channel;
    let _flags = mark.flags;
}

fn others_fit(others: &[Other])
    ensures { All (λ o. length o.id ≡ 4) (map other_content others.now) }
{
    for other in others {
        id_fits(other.id);
    }
}

fn id_fits(id: [u8; 4])
    ensures { length id ≡ 4 }
{}
