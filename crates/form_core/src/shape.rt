//! The shape of a recording.

ghost use Rattle.dsd_bits.specs.Shape.{HasShape};

use dsd_bits::Recording;

/// A recording obeys the rules of its shape.
pub fn has_shape(recording: &Recording)
    ensures { HasShape recording.now }
{
    let _ = recording.channels();
}
