//! A player in the heap, as C holds it: a pointer to it, until it is dropped.

ghost use Rattle.std.specs.Prelude.{◌≡◌, MatchResult};
ghost use Rattle.std.specs.Box.Ownership.{box_owns};
ghost use Rattle.std_heap.specs.contracts.GlobalAllocator.TheImpl as heap;
ghost use Rattle.dsdarc_c.specs.contracts.player.Player as content;
ghost use Rattle.dsdarc_c.specs.declared.player.Player.{Player};
ghost use denote.RawPtr.{InBlock};

use crate::player::Player;
use crate::status::done;
use std::alloc::Global;
use std::marker::Model;
use std::ptr::NonNull;

/// What C passes for a player: the pointer that it was given. It owns the player behind it.
#[repr(C)]
#[derive(Drop)]
pub struct Handle {
    at: *mut u8,
    alloc: Global,
    ghost value: { Player },
}

impl Model for Handle {
    ghost also_owns = { λ h. box_owns (heap.ghosts.dealloc_token h.alloc) content.the_row h.at h.value };
}

/// The player behind a handle.
pub(crate) fn into_box(handle: Handle) -> Box<Player>
    ensures { result.value ≡ handle.value }
{
    let Handle { at, alloc } = handle;
    unsafe { Box::from_raw(alloc, at as *mut Player) }
}

/// The player behind a handle, for one call: it stays in the heap.
pub(crate) fn player_of<'a>(handle: Handle) -> &'a mut Player
    ensures { result.now ≡ handle.value }
{
    Box::leak(into_box(handle))
}

/// Hands a player over: its pointer goes to `out`, and the status is 0; otherwise the status says why there is none.
pub(crate) fn hand_over(made: Result<Box<Player>, u32>, out: &mut *mut u8) -> u32
    ensures { MatchResult made (λ _. (result ≡ 0) × InBlock out.new) (λ status. (result ≡ status) × (out.new ≡ out.old)) }
{
    match made {
        Ok(player) => {
            *out = into_pointer(player);
            done()
        }
        Err(status) => status,
    }
}

// The place of a player that stays in the heap: whoever has it owns the player.
fn into_pointer(player: Box<Player>) -> *mut u8
    ensures { InBlock result }
{
    NonNull::from_mut(Box::leak(player)).cast::<u8>().as_ptr()
}
