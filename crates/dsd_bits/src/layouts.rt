//! The layouts of channels, which are the channel types of DSF 1.01.

ghost use Rattle.std.specs.Prelude.{◌≡◌, ◌≤◌};
ghost use Rattle.dsd_bits.specs.Layouts as layouts;

/// How many channels a layout has. It is 0 for a number that isn't a layout.
pub fn layout_channels(layout: u32) -> u32
    ensures { result ≡ layouts.layout_channels layout }
{
    if layout < 5 {
        layout
    } else if layout < 8 {
        layout - 1
    } else {
        0
    }
}

/// The layout of one to six channels if only their number is known: mono, stereo, three, four (quad), five and six
/// channels.
pub fn usual_layout(number: u32) -> u32
    requires { number ≤ 6 }
    ensures { result ≡ layouts.usual_layout number }
{
    if number < 5 { number } else { number + 1 }
}
