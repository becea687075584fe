//! The keys of project texts and mix texts.

ghost use Rattle.std.specs.Prelude.{◌≡◌};
ghost use Rattle.project_core.specs.Keys.{key_name};

use std::fmt;

/// A key of a project text or a mix text. It is printed as it is spelled there.
#[derive(Clone, Copy, Debug, PartialEq, Eq)]
pub enum Key {
    /// The table of a decimator.
    Decimate,
    /// The taps of a filter.
    Taps,
    /// How many stored bits make one sample.
    Factor,
    /// The delay in bits.
    Delay,
    /// By how many bits a sum is shifted.
    Shift,
    /// How many bits a sample has.
    Width,
    /// The table of a splice.
    Splice,
    /// The weights by which bridges are judged.
    Weights,
    /// The names of the takes.
    Takes,
    /// The array of cues.
    Cue,
    /// The take of a cue or a clip.
    Take,
    /// The first bit of a cue or a clip.
    Start,
    /// The place after a cue's last bit.
    Stop,
    /// The length of the bridge after a cue, in bits.
    Bridge,
    /// What that bridge should sound like.
    Target,
    /// The two ends of a line, if that is the target.
    Line,
    /// A cue's title.
    Title,
    /// The table of a mix.
    Mix,
    /// Full scale of decoded sound.
    Unit,
    /// The taps of the low-pass that passes what can be heard.
    Audible,
    /// The greatest residual that is accepted.
    Limit,
    /// Places at multiples of this are judged.
    Every,
    /// The array of decoders, and the number of a clip's decoder.
    Decoder,
    /// The array of clips.
    Clip,
    /// A clip's first place in the mix.
    At,
    /// How many places a clip has.
    Length,
    /// The points of a clip's gain, for all channels.
    Gain,
    /// The points of a clip's gain, for each channel.
    Gains,
}

/// A table of a project text or a mix text.
#[derive(Clone, Copy, Debug, PartialEq, Eq)]
pub enum Table {
    /// The whole document of a project text.
    Document,
    /// The table of the decimator.
    Decimate,
    /// The table of the splice.
    Splice,
    /// The table of the cue of this number.
    Cue(usize),
    /// The whole document of a mix text.
    MixDocument,
    /// The table of the mix.
    Mix,
    /// The table of the decoder of this number.
    Decoder(usize),
    /// The table of the clip of this number.
    Clip(usize),
}

impl Key {
    /// The key as it is spelled in a text.
    #[tactic(auto, unfolding(crate::specs::Keys::key_name))]
    pub fn name(self) -> &'static str
        ensures { result.now ≡ key_name self }
    {
        match self {
            Key::Decimate => "decimate",
            Key::Taps => "taps",
            Key::Factor => "factor",
            Key::Delay => "delay",
            Key::Shift => "shift",
            Key::Width => "width",
            Key::Splice => "splice",
            Key::Weights => "weights",
            Key::Takes => "takes",
            Key::Cue => "cue",
            Key::Take => "take",
            Key::Start => "start",
            Key::Stop => "stop",
            Key::Bridge => "bridge",
            Key::Target => "target",
            Key::Line => "line",
            Key::Title => "title",
            Key::Mix => "mix",
            Key::Unit => "unit",
            Key::Audible => "audible",
            Key::Limit => "limit",
            Key::Every => "every",
            Key::Decoder => "decoder",
            Key::Clip => "clip",
            Key::At => "at",
            Key::Length => "length",
            Key::Gain => "gain",
            Key::Gains => "gains",
        }
    }
}

impl fmt::Display for Key {
    ghost use Rattle.std.specs.Prelude.{Some};

    ghost output = { λ key. Some (key_name key) };

    fn fmt<W: fmt::Write>(&self, f: &mut fmt::Formatter<W>) -> fmt::Result {
        f.write_str(self.name())
    }
}
