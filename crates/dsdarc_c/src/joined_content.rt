//! A player of files that follow each other, as its calls leave it, and its calls: each with the status that C gets.

use crate::bare::BareStage;
use crate::fault::PlayFault;
use crate::info::{Info, copy_from};
use crate::joined::Joined;
use crate::joined_choosing::{choose_joined, filter_joined, joined_info};
use crate::joined_ending::{end_joined, next_file};
use crate::joined_pulling::pull_joined;
use crate::joined_taking::push_joined;
use crate::status::{NO_DECIMATION, status_of_outcome, status_of_project, status_with};
use dsd_bits::Sound;
use native_core::Layout;
use project_core::Project;
use std::alloc::Global;
use std::marker::Model;

/// A player of files that follow each other, as its calls leave it.
#[derive(Drop)]
pub struct JoinedPlayer {
    joined: Joined,
}

impl Model for JoinedPlayer {
    ghost use Rattle.dsdarc_c.specs.Joined.{IsJoined};
    ghost use Rattle.dsdarc_c.specs.declared.joined.Joined.{Joined};

    ghost Value = { Joined };

    ghost view = { λ a. a.joined };

    ghost invariant = { λ a. IsJoined a.joined };
}

impl JoinedPlayer {
    ghost use Rattle.std.specs.Prelude.{◌≡◌, ◌⊎◌, [], IfSome, List, ℕ};
    ghost use Rattle.dsd_bits.specs.Sounds.{IsSound};
    ghost use Rattle.joined_core.specs.Givers.{Way};
    ghost use Rattle.native_core.specs.declared.layout.Layout.{Layout};
    ghost use Rattle.dsdarc_c.specs.BareReporting.{AreCopied};
    ghost use Rattle.dsdarc_c.specs.JoinedCalls.{RefusesEndAt, RefusesJoined, RefusesJoinedChoice, RefusesJoinedInfo, RefusesJoinedText, RefusesNextAt, ReportsJoined};
    ghost use Rattle.dsdarc_c.specs.JoinedMoves.{Followed, IsJoinChosen, IsJoinFiltered, JoinedEnded, JoinedPulled, JoinedPushed};
    ghost use Rattle.dsdarc_c.specs.JoinedWhole.{PlaysJoined};
    ghost use Rattle.dsdarc_c.specs.Players.{kept_of};
    ghost use Rattle.dsdarc_c.specs.Statuses.{StatusMeans};
    ghost use Rattle.dsdarc_c.specs.declared.player.Player.TheVariants as Player;

    /// A player before the first byte of the first file.
    pub(crate) fn new(alloc: Global) -> JoinedPlayer
        ensures plays { (way : Way) (file : List ℕ) → PlaysJoined way [] file [] result }
        ensures place { result.bare.place ≡ 0 }
    {
        JoinedPlayer {
            joined: Joined::new(alloc),
        }
    }

    /// Takes bytes of the file: `taken` says how many.
    pub(crate) fn push(&mut self, alloc: Global, bytes: &[u8], taken: &mut usize) -> u32
        // 0 says that so many were taken; any other status says why none were, and `taken` is as it was.
        ensures { StatusMeans (JoinedPushed self.old self.new bytes.now taken.new)
            (λ fault. RefusesJoined self.old bytes.now fault × (taken.new ≡ taken.old)) result }
    {
        let pushed = push_joined(alloc, &mut self.joined, bytes);
        status_with(pushed, taken)
    }

    /// Takes the bytes of frames that are due: how many.
    pub(crate) fn pull(&mut self, out: &mut [u8]) -> usize
        ensures { JoinedPulled self.old self.new out.old out.new result }
    {
        pull_joined(&mut self.joined, out)
    }

    /// Says that the file ends here and another one follows.
    pub(crate) fn next(&mut self, alloc: Global) -> u32
        // 0 says that the file's sound is joined to those before; any other status says why not.
        ensures { StatusMeans (Followed self.old self.new) (RefusesNextAt self.old.stage self.old.bare) result }
    {
        let followed = next_file(alloc, &mut self.joined);
        status_of_outcome(followed)
    }

    /// Says that no bytes come any more.
    pub(crate) fn end(&mut self, alloc: Global) -> u32
        // 0 says that all frames of the recording can be pulled; any other status says why not.
        ensures { StatusMeans (JoinedEnded self.old self.new) (RefusesEndAt self.old.stage self.old.bare) result }
    {
        let ended = end_joined(alloc, &mut self.joined);
        status_of_outcome(ended)
    }

    /// What is given.
    pub(crate) fn info(&self, info: &mut Info) -> u32
        // 0 says that `info` has what is given; any other status says why nothing is reported, and `info` is as it was.
        ensures { StatusMeans (ReportsJoined self.now info.new)
            (λ fault. RefusesJoinedInfo self.now fault × (info.new ≡ info.old)) result }
    {
        let stated = joined_info(&self.joined);
        status_with(stated, info)
    }

    /// Gives bits in this layout.
    pub(crate) fn choose(&mut self, alloc: Global, layout: Layout) -> u32
        // 0 says that they are given so; any other status says why not.
        ensures { StatusMeans (IsJoinChosen self.old self.new layout) (RefusesJoinedChoice self.old layout) result }
    {
        let chosen = choose_joined(alloc, &mut self.joined, layout);
        status_of_outcome(chosen)
    }

    /// Gives frames by the filter of a project text.
    pub(crate) fn filter(&mut self, alloc: Global, project: &[u8]) -> u32
        // 0 says that they are given so; any other status says why not.
        ensures { ((result ≡ 0) × IsJoinFiltered self.old self.new project.now) ⊎ RefusesJoinedText self.old project.now result }
    {
        match project_core::read(alloc, project) {
            Ok(Project { decimate, .. }) => match decimate {
                Some(taps) => {
                    let filtered = filter_joined(alloc, &mut self.joined, taps);
                    status_of_outcome(filtered)
                }
                None => NO_DECIMATION,
            },
            Err(fault) => status_of_project(fault),
        }
    }

    /// The sound of the file, once it is known.
    pub(crate) fn sound(&self) -> Option<Sound>
        ensures stated { result ≡ self.now.bare.stated }
        ensures limits { IfSome result IsSound }
    {
        self.joined.bare.stated
    }

    /// Copies bytes that are kept before the sound, or after it: how many.
    pub(crate) fn kept(&self, after: bool, from: usize, out: &mut [u8]) -> usize
        ensures { AreCopied (kept_of (Player.Joined self.now) after) from out.old out.new result }
    {
        if !after {
            return copy_from(self.joined.bare.header.as_slice(), from, out);
        }
        match &self.joined.bare.stage {
            BareStage::After(_, back) => copy_from(back.as_slice(), from, out),
            _ => copy_from(&[], from, out),
        }
    }
}
