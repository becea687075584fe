//! What the WAVE file of a sound says.

ghost use Rattle.std.specs.Prelude.{◌≡◌, ◌/◌, ◌≤◌};
ghost use Rattle.dsd_bits.specs.Limits.{greatest_rate, least_rate};
ghost use Rattle.wave_core.specs.Contents.{spec_of};

use fir_core::Taps;
use wave_core::WaveSpec;

/// What the WAVE file of `channels` channels of bits at a rate says: 1 to 6 channels, and the rate in hertz within the
/// limits of a recording.
pub(crate) fn wave_spec(taps: &Taps, channels: usize, rate: u32) -> WaveSpec
    requires channels { (1 ≤ channels) × (channels ≤ 6) }
    requires rate { (least_rate ≤ rate) × (rate ≤ greatest_rate) }
    ensures spec { result ≡ spec_of channels (rate / taps.now.factor) taps.now.width }
    ensures factor { 8 ≤ taps.now.factor }
{
    WaveSpec::new(channels as u16, rate / taps.factor(), taps.width())
}
