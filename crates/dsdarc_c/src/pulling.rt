//! Gives the frames that are due.

ghost use Rattle.std.specs.Prelude.{◌≡◌, ◌+◌, ◌≤◌, ◌++◌, ◌⊎◌, [], List, ℕ, drop, length, min, take};
ghost use Rattle.dsdarc_c.specs.Pushing.{AreWholeFrames, IsPushing};
ghost use Rattle.dsdarc_c.specs.Whole.{IsPrefixOfFrames, PlaysPushedFile, WaitsWhole, waiting};

use crate::pushing::Pushing;

/// Takes the next bytes of frames that are due: how many, as many as there are and as fit.
pub(crate) fn pull(p: &mut Pushing, out: &mut [u8]) -> usize
    requires { IsPushing p.old }
    ensures keeps { IsPushing p.new }
    ensures few { result ≤ length out.old }
    // They are the next of the file's frames.
    ensures plays { (file : List ℕ) (start : ℕ) (pulled : List ℕ) → PlaysPushedFile file start pulled p.old
        → PlaysPushedFile file start (pulled ++ take result out.new) p.new }
    // All that was pulled since a frame was sought comes first among the file's frames from there on.
    ensures prefix { (file : List ℕ) (start : ℕ) (pulled : List ℕ) → PlaysPushedFile file start pulled p.old
        → IsPrefixOfFrames p.old.taps file start (pulled ++ take result out.new) }
    // Fewer than fit are taken only if no more wait.
    ensures all { (result ≡ length out.old) ⊎ (waiting p.new ≡ []) }
    ensures count { result ≡ min (length out.old) (length (waiting p.old)) }
    ensures given { take result out.new ≡ take result (waiting p.old) }
    ensures others { drop result out.new ≡ drop result out.old }
    // What isn't taken waits on, and nothing else changes.
    ensures left { waiting p.old ≡ take result out.new ++ waiting p.new }
    ensures same { p.new ≡ record p.old { pulled = p.old.pulled + result } }
    // If whole frames wait and fit, whole frames are taken, and whole frames wait on.
    ensures whole { WaitsWhole p.old → AreWholeFrames p.old.taps p.old.stated (length out.old)
        → AreWholeFrames p.old.taps p.old.stated result × WaitsWhole p.new }
    ensures place { p.new.place ≡ p.old.place }
    ensures taps { p.new.taps ≡ p.old.taps }
{
    let (_, left) = p.pending.split_at(p.pulled);
    let count = left.len().min(out.len());
    let (to, _) = out.split_at_mut(count);
    let (from, _) = left.split_at(count);
    to.copy_from_slice(from);
    p.pulled += count;
    count
}
