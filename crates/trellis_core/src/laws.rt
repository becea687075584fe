//! What holds of the least sums of all bridges: functions that do nothing and carry laws.

ghost use Rattle.trellis_core.specs.Handing.{CappedRowsAreValid};
ghost use Rattle.trellis_core.specs.LeastSums.{BestRowsAreLeast, BestRowsAreValid};

/// The rows that a search passes on show that its bits are least: they are valid bounds for each least bridge.
pub fn best_rows_are_valid()
    ensures { BestRowsAreValid }
{}

/// They still show it if each number above the cost is replaced by the cost.
pub fn capped_rows_are_valid()
    ensures { CappedRowsAreValid }
{}

/// There is one table of best sums, that of the least sums over all lists of bits. So what a search passes on is a
/// function of the window.
pub fn best_rows_are_least()
    ensures { BestRowsAreLeast }
{}
