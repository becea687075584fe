//! What explains what a command came to.

use crate::ended::{Ended, Summed};
use crate::explanation::Explanation;
use std::rt::{Env, Files};
use words_core::{Task, WordsFault};

/// What explains what a command came to, each time in a line without its end, or None if there is nothing to say. It may
/// look at files again, and writes none.
pub trait Explain {
    /// Why words ask for nothing.
    fn explain_words<A: AllocGlobal>(&self, rt: &A, fault: WordsFault) -> Option<Explanation>;

    /// What a task came to.
    fn explain<R: Files + Env + AllocGlobal>(
        &self,
        rt: &R,
        task: Task,
        ended: Ended,
    ) -> Option<Explanation>;

    /// What `sum` came to at a file.
    fn explain_sum<R: Files + Env + AllocGlobal>(
        &self,
        rt: &R,
        file: Summed,
        ended: Ended,
    ) -> Option<Explanation>;
}
