//! A sink for searches whose rows nobody needs.

ghost use Rattle.std.specs.Prelude.{◌≡◌, ◌+◌, None, [], false};
ghost use Rattle.cost_core.specs.Trellis.{states};
ghost use Rattle.cost_core.specs.StateCosts.{trellis_of};

use cost_core::{LevelSink, SinkFault, Window};

/// Takes the rows of one window and drops them.
#[derive(Drop)]
pub struct Discarding {
    left: usize,
    width: usize,
}

impl Discarding {
    /// A sink for the rows of a window.
    pub(crate) fn new(window: &Window) -> Discarding
        ensures left { result.left ≡ window.now.levels + 1 }
        ensures width { result.width ≡ states (trellis_of window.now) }
    {
        Discarding {
            left: window.length() + 1,
            width: window.states(),
        }
    }
}

impl LevelSink for Discarding {
    ghost rows_left = { λ sink. sink.left };

    ghost row_length = { λ sink. sink.width };

    ghost kind = { λ _. 0 };

    ghost text = { λ _. None };

    ghost spelling = { λ _ _. [] };

    ghost has_refused = { λ _. false };

    ghost kept = { λ _. tt };

    fn level(&mut self, _row: &[u64]) -> Result<(), SinkFault> {
        self.left -= 1;
        Ok(())
    }

    fn refused(&self) -> bool {
        false
    }
}
