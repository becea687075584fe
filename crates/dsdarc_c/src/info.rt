//! What is played, as C reads it.

ghost use Rattle.std.specs.Prelude.{◌≡◌, IfErr, IfOk, IfSome, MatchOption, None};
ghost use Rattle.dsd_bits.specs.Sounds.{IsSound};
ghost use Rattle.dsdarc_c.specs.Bare.{IsBare};
ghost use Rattle.dsdarc_c.specs.BareReporting.{AreCopied, RefusesBitsInfo, RefusesStated, ReportsBits, ReportsStated, width_of};
ghost use Rattle.dsdarc_c.specs.Pushing.{IsPushing};
ghost use Rattle.dsdarc_c.specs.Reporting.{KnowsNoSound, ReportsSound};

use crate::bare::{Bare, BareStage};
use crate::fault::PlayFault;
use crate::pushing::Pushing;
use dsd_bits::Sound;
use native_core::Layout;

/// What is played.
#[repr(C)]
#[derive(Clone, Copy)]
pub struct Info {
    /// How many frames there are.
    pub frames: u64,
    /// The sample rate of the file, in hertz.
    pub rate_in: u32,
    /// The sample rate of the frames, in hertz.
    pub rate: u32,
    /// How many channels there are.
    pub channels: u32,
    /// How many bits a sample has: 16 or 24.
    pub width: u32,
}

/// What is played, once it is known.
pub(crate) fn info_of(p: &Pushing) -> Option<Info>
    requires { IsPushing p.now }
    ensures { MatchOption result (KnowsNoSound p.now) (ReportsSound p.now) }
{
    let sound = p.stated?;
    let factor = p.taps.factor();
    Some(Info {
        frames: sound.count.div_ceil(factor as usize) as u64,
        rate_in: sound.rate,
        rate: sound.rate / factor,
        channels: sound.channels as u32,
        width: p.taps.width(),
    })
}

/// The sound of a file, as C reads it.
#[repr(C)]
#[derive(Clone, Copy)]
pub struct SoundInfo {
    /// How many bits each channel has.
    pub bits: u64,
    /// The place of the first sound byte in the file.
    pub start: u64,
    /// How many sound bytes there are.
    pub size: u64,
    /// The sample rate, in hertz.
    pub rate: u32,
    /// How many channels there are.
    pub channels: u32,
    /// 1 if the channels are in blocks, as in a DSF file, otherwise 0.
    pub blocks: u32,
}

/// The sound that is kept as stated.
pub(crate) fn sound_info(stated: Option<Sound>) -> Result<SoundInfo, PlayFault>
    requires { IfSome stated IsSound }
    ensures ok { IfOk result (ReportsStated stated) }
    ensures err { IfErr result (RefusesStated stated) }
{
    match stated {
        Some(sound) => Ok(SoundInfo {
            bits: sound.count as u64,
            start: sound.start as u64,
            size: sound.size as u64,
            rate: sound.rate,
            channels: sound.channels as u32,
            blocks: if sound.interleaving.has_blocks() {
                1
            } else {
                0
            },
        }),
        None => Err(PlayFault::NotYet),
    }
}

/// What is given of a sound without a filter.
pub(crate) fn bits_info(p: &Bare) -> Result<Info, PlayFault>
    requires { IsBare p.now }
    ensures ok { IfOk result (ReportsBits p.now) }
    ensures err { IfErr result (RefusesBitsInfo p.now) }
{
    match &p.stage {
        BareStage::Open(_) => Err(PlayFault::NoChoice),
        _ => bits_info_of(p),
    }
}

// The same after the choice.
fn bits_info_of(p: &Bare) -> Result<Info, PlayFault>
    requires { IsBare p.now }
    ensures ok { IfOk result (ReportsBits p.now) }
    ensures err { IfErr result (λ fault. (fault ≡ PlayFault.NotYet) × (p.now.stated ≡ None)) }
{
    match p.stated {
        Some(sound) => {
            let unit = p.layout.unit();
            Ok(Info {
                frames: sound.count.div_ceil(unit) as u64,
                rate_in: sound.rate,
                rate: sound.rate / unit as u32,
                channels: sound.channels as u32,
                width: width_of(p.layout),
            })
        }
        None => Err(PlayFault::NotYet),
    }
}

/// How many bits a sample has.
pub(crate) fn width_of(layout: Layout) -> u32
    ensures { result ≡ width_of layout }
{
    match layout {
        Layout::Bytes(_) => 8,
        Layout::Dop => 24,
    }
}

/// Copies bytes from a place on: how many, as many as there are and as fit.
pub(crate) fn copy_from(from: &[u8], at: usize, out: &mut [u8]) -> usize
    ensures { AreCopied from.now at out.old out.new result }
{
    let (_, rest) = from.split_at(at.min(from.len()));
    let count = rest.len().min(out.len());
    let (to, _) = out.split_at_mut(count);
    let (part, _) = rest.split_at(count);
    to.copy_from_slice(part);
    count
}
