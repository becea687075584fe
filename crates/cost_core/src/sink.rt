//! A sink for the rows of a table of bounds, one level at a time.

ghost use Rattle.std.specs.Prelude.{◌≡◌, ℕ, ◌+◌, ◌<◌, Bool, true, false, Option, List, length, IsSome, OnOk, OnErr};
ghost use Rattle.std.specs.Io.KnownBytes.{Appends};
ghost use Rattle.cost_core.specs.Sinks.{GrowsByPrefix, IsErrFlag};

use thiserror::Error;

/// A sink refused a row.
#[derive(Clone, Copy, Debug, PartialEq, Eq, Error)]
#[error("SinkFault")]
pub struct SinkFault;

/// Takes rows of numbers, one at a time, and may write them as a text.
pub trait LevelSink {
    /// How many rows it still takes.
    ghost rows_left: { Self → ℕ };

    /// How many numbers a row has.
    ghost row_length: { Self → ℕ };

    /// The kind of its text: which spelling its rows have.
    ghost kind: { Self → ℕ };

    /// The bytes of its text so far, if they are known.
    ghost text: { Self → Option (List ℕ) };

    /// The bytes of a row in a text of a kind.
    ghost spelling: { ℕ → List ℕ → List ℕ };

    /// Whether a row was refused.
    ghost has_refused: { Self → Bool };

    /// What else its owner knows of it, and no row changes.
    ghost Kept: { Type 0 } = { Unit {0} };

    ghost kept: { Self → Self.Kept };

    /// Takes a row of `row_length` numbers, if it still takes rows, and appends the spelling to the text. If the row is
    /// refused, the text may end with a prefix of it.
    fn level(&mut self, row: &[u64]) -> Result<(), SinkFault>
        requires rows { 0 < rows_left self.old }
        requires row { length row.now ≡ row_length self.old }
        ensures rows { OnOk result (rows_left self.new + 1 ≡ rows_left self.old) }
        ensures row_length { row_length self.new ≡ row_length self.old }
        ensures kind { kind self.new ≡ kind self.old }
        ensures kept { kept self.new ≡ kept self.old }
        ensures telling { IsSome (text self.old) → IsSome (text self.new) }
        ensures ok { OnOk result (Appends (text self.old) (text self.new) (spelling (kind self.old) row.now)) }
        ensures err { OnErr result (GrowsByPrefix (text self.old) (text self.new) (spelling (kind self.old) row.now)) }
        ensures refused { has_refused self.old ≡ false → IsErrFlag result (has_refused self.new) };

    /// Whether a row was refused.
    fn refused(&self) -> bool
        ensures { result ≡ has_refused self.now };
}
