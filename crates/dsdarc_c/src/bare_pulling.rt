//! Gives the bits that are due.

ghost use Rattle.std.specs.Prelude.{◌≡◌, ◌+◌, ◌≤◌, ◌++◌, List, ℕ, drop, length, min, take};
ghost use Rattle.dsdarc_c.specs.Bare.{IsBare, bare_waiting};
ghost use Rattle.dsdarc_c.specs.BareWhole.{IsPrefixOfBits, PlaysBits};

use crate::bare::Bare;

/// Takes the next bytes of frames that are due: how many, as many as there are and as fit.
pub(crate) fn pull_bits(p: &mut Bare, out: &mut [u8]) -> usize
    requires { IsBare p.old }
    ensures keeps { IsBare p.new }
    // They are the next of the file's frames.
    ensures plays { (file : List ℕ) (start : ℕ) (pulled : List ℕ) → PlaysBits file start pulled p.old
        → PlaysBits file start (pulled ++ take result out.new) p.new }
    // All that was pulled since a frame was sought comes first among the file's frames from there on.
    ensures prefix { (file : List ℕ) (start : ℕ) (pulled : List ℕ) → PlaysBits file start pulled p.old
        → IsPrefixOfBits p.old.layout file start (pulled ++ take result out.new) }
    ensures count { result ≡ min (length out.old) (length (bare_waiting p.old)) }
    ensures given { take result out.new ≡ take result (bare_waiting p.old) }
    ensures others { drop result out.new ≡ drop result out.old }
    // What isn't taken waits on, and nothing else changes.
    ensures left { bare_waiting p.old ≡ take result out.new ++ bare_waiting p.new }
    ensures same { p.new ≡ record p.old { pulled = p.old.pulled + result } }
{
    let (_, left) = p.pending.split_at(p.pulled);
    let count = left.len().min(out.len());
    let (to, _) = out.split_at_mut(count);
    let (from, _) = left.split_at(count);
    to.copy_from_slice(from);
    p.pulled += count;
    count
}
