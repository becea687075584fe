//! A player without a filter that keeps to what its calls need, and its calls: each with the status that C gets.

use crate::bare::{Bare, BareStage};
use crate::bare_choosing::{choose, seek_bits, with_filter};
use crate::bare_ending::end_bits;
use crate::bare_pulling::pull_bits;
use crate::bare_taking::push_bare;
use crate::content::PushPlayer;
use crate::info::{Info, bits_info, copy_from};
use crate::status::{NO_DECIMATION, status_of_outcome, status_of_project, status_with};
use dsd_bits::Sound;
use native_core::Layout;
use project_core::Project;
use std::alloc::Global;
use std::marker::Model;

/// A player whose file is pushed and of whose sound the bits are pulled, as its calls leave it.
#[derive(Drop)]
pub struct BarePlayer {
    bare: Bare,
}

impl Model for BarePlayer {
    ghost use Rattle.dsdarc_c.specs.Bare.{IsBare};
    ghost use Rattle.dsdarc_c.specs.declared.bare.Bare.{Bare};

    ghost Value = { Bare };

    ghost view = { λ a. a.bare };

    ghost invariant = { λ a. IsBare a.bare };
}

impl BarePlayer {
    ghost use Rattle.std.specs.Prelude.{◌≡◌, [], IfSome, List, ℕ, MatchResult};
    ghost use Rattle.dsd_bits.specs.Sounds.{IsSound};
    ghost use Rattle.native_core.specs.declared.layout.Layout.{Layout};
    ghost use Rattle.dsdarc_c.specs.Bare.{bare_waiting};
    ghost use Rattle.dsdarc_c.specs.BareCalls.{RefusesBare, RefusesBareEnd, RefusesBareSeek, RefusesChoice};
    ghost use Rattle.dsdarc_c.specs.BareMoves.{BareEnded, BarePulled, BarePushed, BareSought, IsChosenNow, IsFiltered, RefusesFiltered};
    ghost use Rattle.dsdarc_c.specs.BareReporting.{AreCopied, RefusesBitsInfo, ReportsBits};
    ghost use Rattle.dsdarc_c.specs.Players.{kept_of};
    ghost use Rattle.dsdarc_c.specs.declared.player.Player.TheVariants as Player;
    ghost use Rattle.dsdarc_c.specs.BareWhole.{PlaysBits};
    ghost use Rattle.dsdarc_c.specs.Statuses.{StatusMeans};

    /// A player before the first byte of a file.
    pub(crate) fn new(alloc: Global) -> BarePlayer
        ensures plays { (file : List ℕ) → PlaysBits file 0 [] result }
        ensures place { result.place ≡ 0 }
        ensures waits { bare_waiting result ≡ [] }
    {
        BarePlayer {
            bare: Bare::new(alloc),
        }
    }

    /// Takes bytes of the file: `taken` says how many.
    pub(crate) fn push(&mut self, alloc: Global, bytes: &[u8], taken: &mut usize) -> u32
        // 0 says that so many were taken; any other status says why none were, and `taken` is as it was.
        ensures { StatusMeans (BarePushed self.old self.new bytes.now taken.new)
            (λ fault. RefusesBare self.old bytes.now fault × (taken.new ≡ taken.old)) result }
    {
        let pushed = push_bare(alloc, &mut self.bare, bytes);
        status_with(pushed, taken)
    }

    /// Takes the bytes of frames that are due: how many.
    pub(crate) fn pull(&mut self, out: &mut [u8]) -> usize
        ensures { BarePulled self.old self.new out.old out.new result }
    {
        pull_bits(&mut self.bare, out)
    }

    /// Says that no bytes come any more.
    pub(crate) fn end(&mut self, alloc: Global) -> u32
        // 0 says that a file that ends here holds a recording; any other status says why it isn't accepted.
        ensures { StatusMeans (BareEnded self.old self.new) (RefusesBareEnd self.old) result }
    {
        let ended = end_bits(alloc, &mut self.bare);
        status_of_outcome(ended)
    }

    /// Goes to a frame: `offset` is the byte of the file from which on it is pushed then.
    pub(crate) fn seek(&mut self, alloc: Global, frame: u64, offset: &mut u64) -> u32
        // 0 says from which byte the file is pushed on; any other status says why not, and `offset` is as it was.
        ensures { StatusMeans (BareSought self.old self.new frame offset.new)
            (λ fault. RefusesBareSeek self.old frame fault × (offset.new ≡ offset.old)) result }
    {
        let sought = seek_bits(alloc, &mut self.bare, frame);
        status_with(sought, offset)
    }

    /// What is given.
    pub(crate) fn info(&self, info: &mut Info) -> u32
        // 0 says that `info` has what is given; any other status says why nothing is reported, and `info` is as it was.
        ensures { StatusMeans (ReportsBits self.now info.new)
            (λ fault. RefusesBitsInfo self.now fault × (info.new ≡ info.old)) result }
    {
        let stated = bits_info(&self.bare);
        status_with(stated, info)
    }

    /// Gives bits in this layout.
    pub(crate) fn choose(&mut self, alloc: Global, layout: Layout) -> u32
        // 0 says that they are given so; any other status says why not.
        ensures { StatusMeans (IsChosenNow self.old self.new layout) (RefusesChoice self.old layout) result }
    {
        let chosen = choose(alloc, &mut self.bare, layout);
        status_of_outcome(chosen)
    }

    /// A player with the filter of a project text, which goes on with the file; or the status that says why there is
    /// none.
    pub(crate) fn filtered(&self, alloc: Global, project: &[u8]) -> Result<PushPlayer, u32>
        ensures { MatchResult result (IsFiltered self.now project.now) (RefusesFiltered self.now project.now) }
    {
        match project_core::read(alloc, project) {
            Ok(Project { decimate, .. }) => match decimate {
                Some(taps) => PushPlayer::of(with_filter(alloc, &self.bare, taps)),
                None => Err(NO_DECIMATION),
            },
            Err(fault) => Err(status_of_project(fault)),
        }
    }

    /// The sound of the file, once it is known.
    pub(crate) fn sound(&self) -> Option<Sound>
        ensures stated { result ≡ self.now.stated }
        ensures limits { IfSome result IsSound }
    {
        self.bare.stated
    }

    /// Copies bytes that are kept before the sound, or after it: how many.
    pub(crate) fn kept(&self, after: bool, from: usize, out: &mut [u8]) -> usize
        ensures { AreCopied (kept_of (Player.Bits self.now) after) from out.old out.new result }
    {
        if !after {
            return copy_from(self.bare.header.as_slice(), from, out);
        }
        match &self.bare.stage {
            BareStage::After(_, back) => copy_from(back.as_slice(), from, out),
            _ => copy_from(&[], from, out),
        }
    }
}
