//! A player, with a filter or without: each call goes to the one that it is.

ghost use Rattle.std.specs.Prelude.{◌≡◌, MatchResult};

use crate::bare_content::BarePlayer;
use crate::content::PushPlayer;
use crate::fault::PlayFault;
use crate::info::{Info, SoundInfo, sound_info};
use crate::joined_content::JoinedPlayer;
use crate::status::{done, memory, status_of, status_with};
use dsd_bits::Sound;
use native_core::Layout;
use std::alloc::Global;

/// A player, with a filter, without one, or of files that follow each other.
#[derive(Drop)]
pub enum Player {
    /// It gives frames by a filter.
    Frames(PushPlayer),
    /// It gives bits, or it isn't chosen yet what it gives.
    Bits(BarePlayer),
    /// It gives the recording that files make which follow each other.
    Joined(JoinedPlayer),
}

impl Player {
    ghost use Rattle.std.specs.Prelude.{◌≡◌, ◌⊎◌, ⊤, IfSome, drop, length, min, take};
    ghost use Rattle.dsd_bits.specs.Sounds.{IsSound};
    ghost use Rattle.dsdarc_c.specs.BareCalls.{AcceptsBareEnd, GoesToBits, RefusesBare, RefusesBareEnd, RefusesBareSeek, RefusesChoice, TakesBare};
    ghost use Rattle.dsdarc_c.specs.BareMoves.{RefusesFiltered};
    ghost use Rattle.dsdarc_c.specs.BareReporting.{AreCopied, RefusesBitsInfo, RefusesStated, ReportsBits, ReportsStated};
    ghost use Rattle.dsdarc_c.specs.Ending.{AcceptsEnd, RefusesEnd};
    ghost use Rattle.dsdarc_c.specs.JoinedCalls.{AcceptsEndAt, AcceptsNextAt, RefusesEndAt, RefusesJoined, RefusesJoinedChoice, RefusesJoinedInfo, RefusesJoinedText, RefusesNextAt, ReportsJoined, TakesJoined};
    ghost use Rattle.dsdarc_c.specs.Players.{ByKind, GivesNumbers, HasFilterOf, IsJoinedByFilter, IsLaidOut, kept_of, stated_of, waits_of};
    ghost use Rattle.dsdarc_c.specs.Pushing.{AreWholeFrames};
    ghost use Rattle.dsdarc_c.specs.Reporting.{RefusesInfo, ReportsSound};
    ghost use Rattle.dsdarc_c.specs.Seeking.{GoesTo, RefusesSeek};
    ghost use Rattle.dsdarc_c.specs.Statuses.{StatusMeans};
    ghost use Rattle.dsdarc_c.specs.Taking.{RefusesPush, Takes};
    ghost use Rattle.dsdarc_c.specs.Whole.{WaitsWhole};

    /// Takes bytes of the file: `taken` says how many.
    pub(crate) fn push(&mut self, alloc: Global, bytes: &[u8], taken: &mut usize) -> u32
        ensures { ByKind self.old
            (λ p. StatusMeans (Takes p bytes.now taken.new) (λ fault. RefusesPush p bytes.now fault × (taken.new ≡ taken.old)) result)
            (λ p. StatusMeans (TakesBare p bytes.now taken.new) (λ fault. RefusesBare p bytes.now fault × (taken.new ≡ taken.old)) result)
            (λ p. StatusMeans (TakesJoined p bytes.now taken.new) (λ fault. RefusesJoined p bytes.now fault × (taken.new ≡ taken.old)) result) }
    {
        match self {
            Player::Frames(player) => player.push(alloc, bytes, taken),
            Player::Bits(player) => player.push(alloc, bytes, taken),
            Player::Joined(player) => player.push(alloc, bytes, taken),
        }
    }

    /// Takes the bytes of frames that are due: how many.
    pub(crate) fn pull(&mut self, out: &mut [u8]) -> usize
        // As many of the bytes that wait are given as there are and as fit, from the first one on.
        ensures count { result ≡ min (length out.old) (length (waits_of self.old)) }
        ensures given { take result out.new ≡ take result (waits_of self.old) }
        ensures others { drop result out.new ≡ drop result out.old }
        // If whole frames of a filter wait and fit, whole frames are given.
        ensures whole { ByKind self.old (λ p. WaitsWhole p → AreWholeFrames p.taps p.stated (length out.old)
            → AreWholeFrames p.taps p.stated result) (λ p. ⊤) (λ p. ⊤) }
    {
        match self {
            Player::Frames(player) => player.pull(out),
            Player::Bits(player) => player.pull(out),
            Player::Joined(player) => player.pull(out),
        }
    }

    /// Takes the samples of frames that are due, as numbers: how many. Bits are given as bytes alone.
    pub(crate) fn pull_numbers(&mut self, out: &mut [i32]) -> usize
        ensures { ByKind self.old (λ p. GivesNumbers p out.old out.new result) (λ p. (result ≡ 0) × (out.new ≡ out.old))
            (λ p. (result ≡ 0) × (out.new ≡ out.old)) }
    {
        match self {
            Player::Frames(player) => player.pull_numbers(out),
            Player::Bits(_) => 0,
            Player::Joined(_) => 0,
        }
    }

    /// Says that no bytes come any more.
    pub(crate) fn end(&mut self, alloc: Global) -> u32
        ensures { ByKind self.old (λ p. StatusMeans (AcceptsEnd p) (RefusesEnd p) result)
            (λ p. StatusMeans (AcceptsBareEnd p) (RefusesBareEnd p) result)
            (λ p. StatusMeans (AcceptsEndAt p.stage p.bare) (RefusesEndAt p.stage p.bare) result) }
    {
        match self {
            Player::Frames(player) => player.end(alloc),
            Player::Bits(player) => player.end(alloc),
            Player::Joined(player) => player.end(alloc),
        }
    }

    /// What is played.
    pub(crate) fn info(&self, info: &mut Info) -> u32
        ensures { ByKind self.now
            (λ p. StatusMeans (ReportsSound p info.new) (λ fault. RefusesInfo p fault × (info.new ≡ info.old)) result)
            (λ p. StatusMeans (ReportsBits p info.new) (λ fault. RefusesBitsInfo p fault × (info.new ≡ info.old)) result)
            (λ p. StatusMeans (ReportsJoined p info.new) (λ fault. RefusesJoinedInfo p fault × (info.new ≡ info.old)) result) }
    {
        match self {
            Player::Frames(player) => player.info(info),
            Player::Bits(player) => player.info(info),
            Player::Joined(player) => player.info(info),
        }
    }

    /// Goes to a frame: `offset` is the byte of the file from which on it is pushed then.
    pub(crate) fn seek(&mut self, alloc: Global, frame: u64, offset: &mut u64) -> u32
        ensures { ByKind self.old
            (λ p. StatusMeans (GoesTo p frame offset.new) (λ fault. RefusesSeek p frame fault × (offset.new ≡ offset.old)) result)
            (λ p. StatusMeans (GoesToBits p frame offset.new) (λ fault. RefusesBareSeek p frame fault × (offset.new ≡ offset.old)) result)
            (λ p. (result ≡ 26) × (offset.new ≡ offset.old)) }
    {
        match self {
            Player::Frames(player) => player.seek(alloc, frame, offset),
            Player::Bits(player) => player.seek(alloc, frame, offset),
            Player::Joined(_) => status_of(PlayFault::NoSeek),
        }
    }

    /// Gives the bits of the sound that comes next in this layout.
    pub(crate) fn choose(&mut self, alloc: Global, layout: Layout) -> u32
        ensures { ByKind self.old (λ p. result ≡ 23) (λ p. StatusMeans (IsLaidOut self.new layout) (RefusesChoice p layout) result)
            (λ p. StatusMeans ⊤ (RefusesJoinedChoice p layout) result) }
    {
        match self {
            Player::Frames(_) => status_of(PlayFault::Chosen),
            Player::Bits(player) => player.choose(alloc, layout),
            Player::Joined(player) => player.choose(alloc, layout),
        }
    }

    /// Gives frames of the sound that comes next by the filter of a project text.
    pub(crate) fn filter(&mut self, alloc: Global, project: &[u8]) -> u32
        ensures { ByKind self.old (λ p. result ≡ 23)
            (λ p. ((result ≡ 0) × HasFilterOf self.new p project.now) ⊎ RefusesFiltered p project.now result)
            (λ p. ((result ≡ 0) × IsJoinedByFilter self.new p project.now) ⊎ RefusesJoinedText p project.now result) }
    {
        match self {
            Player::Frames(_) => status_of(PlayFault::Chosen),
            Player::Bits(player) => match player.filtered(alloc, project) {
                Ok(made) => {
                    *self = Player::Frames(made);
                    done()
                }
                Err(status) => status,
            },
            Player::Joined(player) => player.filter(alloc, project),
        }
    }

    /// Says that the file ends here and another one follows.
    pub(crate) fn next(&mut self, alloc: Global) -> u32
        ensures { ByKind self.old (λ p. result ≡ 25) (λ p. result ≡ 25)
            (λ p. StatusMeans (AcceptsNextAt p.stage p.bare) (RefusesNextAt p.stage p.bare) result) }
    {
        match self {
            Player::Joined(player) => player.next(alloc),
            _ => status_of(PlayFault::NotJoined),
        }
    }

    /// The sound of the file.
    pub(crate) fn sound(&self, info: &mut SoundInfo) -> u32
        ensures { StatusMeans (ReportsStated (stated_of self.now) info.new)
            (λ fault. RefusesStated (stated_of self.now) fault × (info.new ≡ info.old)) result }
    {
        let stated = self.stated();
        status_with(sound_info(stated), info)
    }

    // The sound that is kept as stated.
    fn stated(&self) -> Option<Sound>
        ensures stated { result ≡ stated_of self.now }
        ensures limits { IfSome result IsSound }
    {
        match self {
            Player::Frames(player) => player.sound(),
            Player::Bits(player) => player.sound(),
            Player::Joined(player) => player.sound(),
        }
    }

    /// Copies bytes that are kept before the sound, or after it: how many.
    pub(crate) fn kept(&self, after: bool, from: usize, out: &mut [u8]) -> usize
        ensures { AreCopied (kept_of self.now after) from out.old out.new result }
    {
        match self {
            Player::Frames(player) => player.kept(after, from, out),
            Player::Bits(player) => player.kept(after, from, out),
            Player::Joined(player) => player.kept(after, from, out),
        }
    }
}

/// A player in the heap, or the status of a call that is out of memory.
pub(crate) fn boxed(alloc: Global, player: Player) -> Result<Box<Player>, u32>
    ensures { MatchResult result (λ made. made.value ≡ player) (λ status. status ≡ 3) }
{
    match Box::new(alloc, player) {
        Ok(made) => Ok(made),
        Err(_) => Err(memory()),
    }
}
