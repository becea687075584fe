//! A player that keeps to what its calls need, and its calls: each with the status that C gets.

use crate::ending::end;
use crate::fault::PlayFault;
use crate::info::{Info, copy_from, info_of};
use crate::pulling::pull;
use crate::pushing::{Pushing, Stage};
use crate::samples::pull_numbers;
use crate::seeking::seek;
use crate::status::{
    NO_DECIMATION, done, status_of, status_of_outcome, status_of_project, status_with,
};
use crate::taking::push;
use dsd_bits::Sound;
use fir_core::Taps;
use project_core::Project;
use std::alloc::Global;
use std::marker::Model;

/// A player whose file is pushed, as its calls leave it.
#[derive(Drop)]
pub struct PushPlayer {
    pushing: Pushing,
}

impl Model for PushPlayer {
    ghost use Rattle.dsdarc_c.specs.Pushing.{IsPushing};
    ghost use Rattle.dsdarc_c.specs.declared.pushing.Pushing.{Pushing};

    ghost Value = { Pushing };

    ghost view = { λ a. a.pushing };

    ghost invariant = { λ a. IsPushing a.pushing };
}

impl PushPlayer {
    ghost use Rattle.std.specs.Prelude.{◌≡◌, Err, IfErr, IfOk, IfSome, MatchResult, Ok};
    ghost use Rattle.dsd_bits.specs.Sounds.{IsSound};
    ghost use Rattle.dsdarc_c.specs.BareReporting.{AreCopied};
    ghost use Rattle.dsdarc_c.specs.Players.{kept_of};
    ghost use Rattle.dsdarc_c.specs.Pushing.{IsPushing};
    ghost use Rattle.dsdarc_c.specs.declared.fault.PlayFault.{PlayFault};
    ghost use Rattle.dsdarc_c.specs.declared.player.Player.TheVariants as Player;
    ghost use Rattle.dsdarc_c.specs.Calls.{EndRefused, Ended, Pulled, PulledNumbers, PushRefused, Pushed, SeekRefused, Sought};
    ghost use Rattle.dsdarc_c.specs.Making.{IsMadeBy, IsNew, RefusesProject};
    ghost use Rattle.dsdarc_c.specs.Reporting.{RefusesInfo, ReportsSound};
    ghost use Rattle.dsdarc_c.specs.Statuses.{StatusMeans, status_of};

    /// A player by the filter of a project text, before the first byte of a file; or the status that says why none is
    /// made.
    pub(crate) fn made_by(alloc: Global, project: &[u8]) -> Result<PushPlayer, u32>
        ensures { MatchResult result (IsMadeBy project.now) (RefusesProject project.now) }
    {
        match project_core::read(alloc, project) {
            Ok(Project { decimate, .. }) => match decimate {
                Some(taps) => Ok(PushPlayer::with_filter(alloc, taps)),
                None => Err(NO_DECIMATION),
            },
            Err(fault) => Err(status_of_project(fault)),
        }
    }

    // The same by a filter.
    fn with_filter(alloc: Global, taps: Taps) -> PushPlayer
        ensures { IsNew taps result }
    {
        let pushing = Pushing::new(alloc, taps);
        PushPlayer { pushing }
    }

    /// A player that was made, or the status of the fault for which it wasn't.
    pub(crate) fn of(made: Result<Pushing, PlayFault>) -> Result<PushPlayer, u32>
        requires { IfOk made IsPushing }
        ensures ok { IfOk result (λ player. made ≡ Ok player) }
        ensures err { IfErr result (λ status. (fault : PlayFault) × (made ≡ Err fault) × (status ≡ status_of fault)) }
    {
        match made {
            Ok(pushing) => Ok(PushPlayer { pushing }),
            Err(fault) => Err(status_of(fault)),
        }
    }

    /// The sound of the file, once it is known.
    pub(crate) fn sound(&self) -> Option<Sound>
        ensures stated { result ≡ self.now.stated }
        ensures limits { IfSome result IsSound }
    {
        self.pushing.stated
    }

    /// Copies bytes that are kept before the sound, or after it: how many.
    pub(crate) fn kept(&self, after: bool, from: usize, out: &mut [u8]) -> usize
        ensures { AreCopied (kept_of (Player.Frames self.now) after) from out.old out.new result }
    {
        if !after {
            return copy_from(self.pushing.header.as_slice(), from, out);
        }
        match &self.pushing.stage {
            Stage::After(_, back) => copy_from(back.as_slice(), from, out),
            _ => copy_from(&[], from, out),
        }
    }

    /// Takes bytes of the file: `taken` says how many.
    pub(crate) fn push(&mut self, alloc: Global, bytes: &[u8], taken: &mut usize) -> u32
        // 0 says that so many were taken; any other status says why none were, and `taken` is as it was.
        ensures { StatusMeans (Pushed self.old self.new bytes.now taken.new)
            (λ fault. PushRefused self.old self.new bytes.now fault × (taken.new ≡ taken.old)) result }
    {
        let pushed = push(alloc, &mut self.pushing, bytes);
        status_with(pushed, taken)
    }

    /// Takes the bytes of frames that are due: how many.
    pub(crate) fn pull(&mut self, out: &mut [u8]) -> usize
        ensures { Pulled self.old self.new out.old out.new result }
    {
        pull(&mut self.pushing, out)
    }

    /// Takes the samples of frames that are due, as numbers: how many.
    pub(crate) fn pull_numbers(&mut self, out: &mut [i32]) -> usize
        ensures { PulledNumbers self.old self.new out.old out.new result }
    {
        pull_numbers(&mut self.pushing, out)
    }

    /// Says that no bytes come any more.
    pub(crate) fn end(&mut self, alloc: Global) -> u32
        // 0 says that a file that ends here holds a recording; any other status says why it isn't accepted.
        ensures { StatusMeans (Ended self.old self.new) (EndRefused self.old self.new) result }
    {
        let ended = end(alloc, &mut self.pushing);
        status_of_outcome(ended)
    }

    /// What is played.
    pub(crate) fn info(&self, info: &mut Info) -> u32
        // 0 says that `info` has what is played; any other status says why nothing is reported, and `info` is as it was.
        ensures { StatusMeans (ReportsSound self.now info.new) (λ fault. RefusesInfo self.now fault × (info.new ≡ info.old)) result }
    {
        match info_of(&self.pushing) {
            Some(stated) => {
                *info = stated;
                done()
            }
            None => status_of(PlayFault::NotYet),
        }
    }

    /// Goes to a frame: `offset` is the byte of the file from which on it is pushed then.
    pub(crate) fn seek(&mut self, alloc: Global, frame: u64, offset: &mut u64) -> u32
        // 0 says from which byte the file is pushed on; any other status says why not, and `offset` is as it was.
        ensures { StatusMeans (Sought self.old self.new frame offset.new)
            (λ fault. SeekRefused self.old self.new frame fault × (offset.new ≡ offset.old)) result }
    {
        let sought = seek(alloc, &mut self.pushing, frame);
        status_with(sought, offset)
    }
}
