//! Laws of what `sum` prints, and of what `check` and `nulltest` accept. The functions do nothing: a caller's proof cites
//! what they ensure.

ghost use Rattle.command_core.specs.Laws.{CheckedAndNulled, ConvertedShowsSameSums, FilesCheckedAndNulled};

use judge_core::accepted_is_least;
use transfer_commands::kept_sound_has_same_sums;

/// The law of shown sums: of a file, and of what it was converted to, `sum` shows the same but for their names.
pub fn converted_shows_same_sums()
    ensures { ConvertedShowsSameSums }
{
    kept_sound_has_same_sums();
}

/// The law of masters that `check` accepts for a project, and `nulltest` for a mix: the master's file holds one recording.
/// It has the bits that are cued in the project, and none of its bridges could cost less. As heard it differs from the mix
/// by at most the mix's limit.
pub fn checked_and_nulled()
    ensures bytes { CheckedAndNulled }
    // The same of what the two commands came to over a folder whose bytes are known.
    ensures files { FilesCheckedAndNulled }
{
    accepted_is_least();
}
