//! Gives the frames of files that follow each other.

ghost use Rattle.std.specs.Prelude.{◌≡◌, ◌+◌, ◌≤◌, ◌++◌, List, ℕ, drop, length, min, take};
ghost use Rattle.joined_core.specs.Givers.{Way};
ghost use Rattle.dsdarc_c.specs.Joined.{IsJoined, joined_waiting};
ghost use Rattle.dsdarc_c.specs.JoinedWhole.{GaveFirst, PlaysJoined};

use crate::joined::Joined;

/// Takes the next bytes of frames that are due: how many, as many as there are and as fit.
pub(crate) fn pull_joined(p: &mut Joined, out: &mut [u8]) -> usize
    requires { IsJoined p.old }
    ensures keeps { IsJoined p.new }
    // They are the next of the recording's frames.
    ensures plays { (way : Way) (before file pulled : List ℕ) → PlaysJoined way before file pulled p.old
        → PlaysJoined way before file (pulled ++ take result out.new) p.new }
    // All that was pulled comes first among the frames of the recording that the files make.
    ensures prefix { (way : Way) (before file pulled : List ℕ) → PlaysJoined way before file pulled p.old
        → GaveFirst way before file (pulled ++ take result out.new) }
    ensures count { result ≡ min (length out.old) (length (joined_waiting p.old)) }
    ensures given { take result out.new ≡ take result (joined_waiting p.old) }
    ensures others { drop result out.new ≡ drop result out.old }
    // What isn't taken waits on, and nothing else changes.
    ensures left { joined_waiting p.old ≡ take result out.new ++ joined_waiting p.new }
    ensures same { p.new ≡ record p.old { pulled = p.old.pulled + result } }
{
    let (_, left) = p.pending.split_at(p.pulled);
    let count = left.len().min(out.len());
    let (to, _) = out.split_at_mut(count);
    let (from, _) = left.split_at(count);
    to.copy_from_slice(from);
    p.pulled += count;
    count
}
