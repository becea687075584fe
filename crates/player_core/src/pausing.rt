//! A player of a part without its filter, between two pieces of the sound.

use crate::parts::PartPlayer;
use crate::player::Player;
use dsd_bits::Sound;
use fir_core::{Stream, Taps};

// What a player holds beside its filter.
#[derive(Drop)]
struct PausedPlayer {
    sound: Sound,
    fed: usize,
    streams: Vec<Stream>,
    held: Vec<u8>,
    own: Vec<u8>,
    tile: Vec<i32>,
}

impl PausedPlayer {
    ghost use Rattle.std.specs.Prelude.{◌≡◌, List, ℕ};
    ghost use Rattle.player_core.specs.PausedView.{IsPaused};
    ghost use Rattle.player_core.specs.PlayerView.{IsPlayerFed, IsPlayer, fed_of, filter_of, sound_of};
    ghost use Rattle.player_core.specs.declared.player.Player.{Player as Playing};

    // What a player holds beside its filter.
    fn of(player: Player<'_>) -> PausedPlayer
        ensures { IsPaused player.entry result }
    {
        let Player {
            sound,
            fed,
            streams,
            held,
            own,
            tile,
            ..
        } = player;
        PausedPlayer {
            sound,
            fed,
            streams,
            held,
            own,
            tile,
        }
    }

    // The player goes on, by its own filter: it is as it was.
    fn resume<'a>(self, taps: &'a Taps) -> Player<'a>
        ensures filter { filter_of result ≡ taps.now }
        ensures same { (p : Playing) → IsPaused p self → (sound_of result ≡ sound_of p) × (fed_of result ≡ fed_of p) }
        ensures ready { (p : Playing) → IsPaused p self → filter_of p ≡ taps.now → IsPlayer p → IsPlayer result }
        ensures fed { (p : Playing) (came : List ℕ) → IsPaused p self → IsPlayerFed p came → IsPlayerFed result came }
    {
        Player {
            taps,
            sound: self.sound,
            fed: self.fed,
            streams: self.streams,
            held: self.held,
            own: self.own,
            tile: self.tile,
        }
    }
}

/// What a [`PartPlayer`] holds beside its filter. Whoever owns both keeps it while no bytes come.
#[derive(Drop)]
pub struct PausedPart {
    player: PausedPlayer,
    start: usize,
    skip: usize,
    stop: usize,
    given: usize,
    own: Vec<u8>,
}

impl PausedPart {
    ghost use Rattle.std.specs.Prelude.{◌≡◌};
    ghost use Rattle.player_core.specs.PausedView.{IsPausedPart, IsSamePlace, ResumesFed, ResumesReady};
    ghost use Rattle.player_core.specs.PartView.{part_filter};
    ghost use Rattle.player_core.specs.declared.parts.PartPlayer.{PartPlayer as Playing};

    /// What a player holds beside its filter.
    pub fn of(part: PartPlayer<'_>) -> PausedPart
        ensures { IsPausedPart part.entry result }
    {
        let PartPlayer {
            player,
            start,
            skip,
            stop,
            given,
            own,
        } = part;
        PausedPart {
            player: PausedPlayer::of(player),
            start,
            skip,
            stop,
            given,
            own,
        }
    }

    /// The player goes on, by its own filter: it is as it was.
    pub fn resume<'a>(self, taps: &'a Taps) -> PartPlayer<'a>
        ensures filter { part_filter result ≡ taps.now }
        ensures same { (p : Playing) → IsPausedPart p self → IsSamePlace p result }
        ensures ready { ResumesReady self taps.now result }
        ensures fed { ResumesFed self taps.now result }
    {
        PartPlayer {
            player: self.player.resume(taps),
            start: self.start,
            skip: self.skip,
            stop: self.stop,
            given: self.given,
            own: self.own,
        }
    }
}
