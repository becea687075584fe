//! Calls for programs in C, over a player whose file is pushed and whose frames are pulled.
//!
//! `pushing.rt` has what a player holds. What its calls do is in `taking.rt` (bytes of the file) with `within_sound.rt`
//! (those of the sound), `pulling.rt` and `samples.rt` (frames), `seeking.rt`, `ending.rt` and `info.rt`.
//!
//! A player is in the heap, and C holds its pointer (`handle.rt`). Each call returns a status (`status.rt`). Null
//! pointers and sizes are tested by `library/dsdarc.c`, which has the calls of `dsdarc.h`.
#![tactic(auto)]

ghost use Rattle.std.specs.Prelude.{◌≡◌, ◌≢◌, ◌⊎◌, ◌<◌, ◌≤◌, ⊤, false, true, drop, length, min, take};
ghost use Rattle.dsdarc_c.specs.BareCalls.{AcceptsBareEnd, GoesToBits, RefusesBare, RefusesBareEnd, RefusesBareSeek, TakesBare};
ghost use Rattle.dsdarc_c.specs.BareMoves.{RefusesFiltered, RefusesLayout};
ghost use Rattle.dsdarc_c.specs.BareReporting.{AreCopied, RefusesBitsInfo, RefusesStated, ReportsBits, ReportsStated, layout_of};
ghost use Rattle.dsdarc_c.specs.Ending.{AcceptsEnd, RefusesEnd};
ghost use Rattle.dsdarc_c.specs.JoinedCalls.{AcceptsEndAt, AcceptsNextAt, RefusesEndAt, RefusesJoined, RefusesJoinedInfo, RefusesJoinedLayout, RefusesJoinedText, RefusesNextAt, ReportsJoined, TakesJoined};
ghost use Rattle.dsdarc_c.specs.Making.{IsStatusOfProject};
ghost use Rattle.dsdarc_c.specs.Players.{ByKind, GivesNumbers, kept_of, stated_of, waits_of};
ghost use Rattle.dsdarc_c.specs.Pushing.{AreWholeFrames};
ghost use Rattle.dsdarc_c.specs.Reporting.{RefusesInfo, ReportsSound};
ghost use Rattle.dsdarc_c.specs.Seeking.{GoesTo, RefusesSeek};
ghost use Rattle.dsdarc_c.specs.Statuses.{StatusMeans};
ghost use Rattle.dsdarc_c.specs.Taking.{RefusesPush, Takes};
ghost use Rattle.dsdarc_c.specs.Whole.{WaitsWhole};
ghost use denote.RawPtr.{InBlock};

mod bare;
mod bare_choosing;
mod bare_content;
mod bare_ending;
mod bare_pulling;
mod bare_sound;
mod bare_taking;
mod content;
mod ending;
mod fault;
mod handle;
mod headers;
mod info;
mod joined;
mod joined_choosing;
mod joined_content;
mod joined_ending;
mod joined_pulling;
mod joined_taking;
mod player;
mod playing;
mod pulling;
mod pushing;
mod samples;
mod seeking;
mod status;
mod taking;
mod within_sound;

use crate::bare_content::BarePlayer;
use crate::content::PushPlayer;
use crate::handle::{Handle, hand_over, into_box, player_of};
use crate::info::{Info, SoundInfo};
use crate::joined_content::JoinedPlayer;
use crate::player::{Player, boxed};
use crate::status::size_refused;
use dsd_bits::BitOrder;
use native_core::Layout;
use std::alloc::Global;

/// A player by the filter of a project text, before the first byte of a file: `out` has its pointer then.
#[unsafe(no_mangle)]
pub extern "C" fn dsdarc_c_new(alloc: Global, project: &[u8], out: &mut *mut u8) -> u32
    // 0 says that the text states a filter, and any other status why no player is made; `out` is as it was then.
    ensures status { IsStatusOfProject project.now result }
    ensures same { result ≢ 0 → out.new ≡ out.old }
    // With the status 0 `out` has a pointer.
    ensures pointer { result ≡ 0 → InBlock out.new }
{
    match PushPlayer::made_by(alloc, project) {
        Ok(player) => hand_over(boxed(alloc, Player::Frames(player)), out),
        Err(status) => status,
    }
}

/// A player without a filter, before the first byte of a file: `out` has its pointer then.
#[unsafe(no_mangle)]
pub extern "C" fn dsdarc_c_new_bare(alloc: Global, out: &mut *mut u8) -> u32
    // 0 says that a player is made, and 3 that memory ran out; `out` is as it was then.
    ensures status { (result ≡ 0) ⊎ (result ≡ 3) }
    ensures same { result ≢ 0 → out.new ≡ out.old }
    ensures pointer { result ≡ 0 → InBlock out.new }
{
    let player = BarePlayer::new(alloc);
    hand_over(boxed(alloc, Player::Bits(player)), out)
}

/// A player of files that follow each other, before the first byte of the first one: `out` has its pointer then.
#[unsafe(no_mangle)]
pub extern "C" fn dsdarc_c_new_joined(alloc: Global, out: &mut *mut u8) -> u32
    // 0 says that a player is made, and 3 that memory ran out; `out` is as it was then.
    ensures status { (result ≡ 0) ⊎ (result ≡ 3) }
    ensures same { result ≢ 0 → out.new ≡ out.old }
    ensures pointer { result ≡ 0 → InBlock out.new }
{
    let player = JoinedPlayer::new(alloc);
    hand_over(boxed(alloc, Player::Joined(player)), out)
}

/// Takes bytes of the file: `taken` says how many.
#[unsafe(no_mangle)]
pub extern "C" fn dsdarc_c_push(
    alloc: Global,
    handle: Handle,
    bytes: &[u8],
    taken: &mut usize,
) -> u32
    // 0 says that so many were taken; any other status says why none were, and `taken` is as it was.
    ensures { ByKind handle.value
        (λ p. StatusMeans (Takes p bytes.now taken.new) (λ fault. RefusesPush p bytes.now fault × (taken.new ≡ taken.old)) result)
        (λ p. StatusMeans (TakesBare p bytes.now taken.new) (λ fault. RefusesBare p bytes.now fault × (taken.new ≡ taken.old)) result)
        (λ p. StatusMeans (TakesJoined p bytes.now taken.new) (λ fault. RefusesJoined p bytes.now fault × (taken.new ≡ taken.old)) result) }
{
    let player = player_of(handle);
    player.push(alloc, bytes, taken)
}

/// Takes the bytes of frames that are due: how many.
#[unsafe(no_mangle)]
pub extern "C" fn dsdarc_c_pull(handle: Handle, out: &mut [u8]) -> usize
    // As many of the bytes that wait are given as there are and as fit, from the first one on.
    ensures count { result ≡ min (length out.old) (length (waits_of handle.value)) }
    ensures given { take result out.new ≡ take result (waits_of handle.value) }
    ensures others { drop result out.new ≡ drop result out.old }
    // If whole frames of a filter wait and fit, whole frames are given.
    ensures whole { ByKind handle.value (λ p. WaitsWhole p → AreWholeFrames p.taps p.stated (length out.old)
        → AreWholeFrames p.taps p.stated result) (λ p. ⊤) (λ p. ⊤) }
{
    let player = player_of(handle);
    player.pull(out)
}

/// Takes the samples of frames that are due, as numbers: how many. Bits are given as bytes alone.
#[unsafe(no_mangle)]
pub extern "C" fn dsdarc_c_pull_numbers(handle: Handle, out: &mut [i32]) -> usize
    ensures { ByKind handle.value (λ p. GivesNumbers p out.old out.new result) (λ p. (result ≡ 0) × (out.new ≡ out.old))
        (λ p. (result ≡ 0) × (out.new ≡ out.old)) }
{
    let player = player_of(handle);
    player.pull_numbers(out)
}

/// Says that no bytes come any more.
#[unsafe(no_mangle)]
pub extern "C" fn dsdarc_c_end(alloc: Global, handle: Handle) -> u32
    // 0 says that a file that ends here holds a recording; any other status says why it isn't accepted.
    ensures { ByKind handle.value (λ p. StatusMeans (AcceptsEnd p) (RefusesEnd p) result)
        (λ p. StatusMeans (AcceptsBareEnd p) (RefusesBareEnd p) result)
        (λ p. StatusMeans (AcceptsEndAt p.stage p.bare) (RefusesEndAt p.stage p.bare) result) }
{
    let player = player_of(handle);
    player.end(alloc)
}

/// Says that the file ends here and another one follows.
#[unsafe(no_mangle)]
pub extern "C" fn dsdarc_c_next(alloc: Global, handle: Handle) -> u32
    // Only a player of files that follow each other is told so: any other refuses it by 25.
    ensures { ByKind handle.value (λ p. result ≡ 25) (λ p. result ≡ 25)
        (λ p. StatusMeans (AcceptsNextAt p.stage p.bare) (RefusesNextAt p.stage p.bare) result) }
{
    let player = player_of(handle);
    player.next(alloc)
}

/// What is played.
#[unsafe(no_mangle)]
pub extern "C" fn dsdarc_c_info(handle: Handle, info: &mut Info) -> u32
    // 0 says that `info` has what is played; any other status says why nothing is reported, and `info` is as it was.
    ensures { ByKind handle.value
        (λ p. StatusMeans (ReportsSound p info.new) (λ fault. RefusesInfo p fault × (info.new ≡ info.old)) result)
        (λ p. StatusMeans (ReportsBits p info.new) (λ fault. RefusesBitsInfo p fault × (info.new ≡ info.old)) result)
        (λ p. StatusMeans (ReportsJoined p info.new) (λ fault. RefusesJoinedInfo p fault × (info.new ≡ info.old)) result) }
{
    let player = player_of(handle);
    player.info(info)
}

/// Goes to a frame: `offset` is the byte of the file from which on it is pushed then.
#[unsafe(no_mangle)]
pub extern "C" fn dsdarc_c_seek(alloc: Global, handle: Handle, frame: u64, offset: &mut u64) -> u32
    // 0 says from which byte the file is pushed on; any other status says why not, and `offset` is as it was.
    ensures { ByKind handle.value
        (λ p. StatusMeans (GoesTo p frame offset.new) (λ fault. RefusesSeek p frame fault × (offset.new ≡ offset.old)) result)
        (λ p. StatusMeans (GoesToBits p frame offset.new) (λ fault. RefusesBareSeek p frame fault × (offset.new ≡ offset.old)) result)
        (λ p. (result ≡ 26) × (offset.new ≡ offset.old)) }
{
    let player = player_of(handle);
    player.seek(alloc, frame, offset)
}

/// Gives frames of the sound that comes next by the filter of a project text.
#[unsafe(no_mangle)]
pub extern "C" fn dsdarc_c_filter(alloc: Global, handle: Handle, project: &[u8]) -> u32
    // A player that has its choice refuses it by 23; another one says by 0 that it was made, and else why it isn't.
    ensures { ByKind handle.value (λ p. result ≡ 23) (λ p. (result ≡ 0) ⊎ RefusesFiltered p project.now result)
        (λ p. (result ≡ 0) ⊎ RefusesJoinedText p project.now result) }
{
    let player = player_of(handle);
    player.filter(alloc, project)
}

/// Gives the bits of the sound that comes next: as bytes with the most significant bit the earliest (0) or the least
/// significant one (1), or as DoP samples (2).
#[unsafe(no_mangle)]
pub extern "C" fn dsdarc_c_bits(alloc: Global, handle: Handle, layout: u32) -> u32
    ensures other { 3 ≤ layout → result ≡ 2 }
    ensures chosen { layout < 3 → ByKind handle.value (λ p. result ≡ 23)
        (λ p. (result ≡ 0) ⊎ RefusesLayout p (layout_of layout) result)
        (λ p. (result ≡ 0) ⊎ RefusesJoinedLayout p (layout_of layout) result) }
{
    if layout >= 3 {
        return size_refused();
    }
    let player = player_of(handle);
    player.choose(alloc, layout_of(layout))
}

// The layout of a number.
fn layout_of(layout: u32) -> Layout
    ensures { result ≡ layout_of layout }
{
    match layout {
        0 => Layout::Bytes(BitOrder::MostFirst),
        1 => Layout::Bytes(BitOrder::LeastFirst),
        _ => Layout::Dop,
    }
}

/// The sound of the file.
#[unsafe(no_mangle)]
pub extern "C" fn dsdarc_c_sound(handle: Handle, info: &mut SoundInfo) -> u32
    // 0 says that `info` has the sound, and 5 that it isn't known yet; `info` is as it was then.
    ensures { StatusMeans (ReportsStated (stated_of handle.value) info.new)
        (λ fault. RefusesStated (stated_of handle.value) fault × (info.new ≡ info.old)) result }
{
    let player = player_of(handle);
    player.sound(info)
}

/// Copies bytes that are kept before the sound (`after` is 0), or after it: how many.
#[unsafe(no_mangle)]
pub extern "C" fn dsdarc_c_kept(handle: Handle, after: u32, from: usize, out: &mut [u8]) -> usize
    ensures before { after ≡ 0 → AreCopied (kept_of handle.value false) from out.old out.new result }
    ensures after { after ≢ 0 → AreCopied (kept_of handle.value true) from out.old out.new result }
{
    let player = player_of(handle);
    player.kept(after != 0, from, out)
}

/// Frees a player.
#[unsafe(no_mangle)]
pub extern "C" fn dsdarc_c_drop(handle: Handle) {
    let _player = into_box(handle);
}
