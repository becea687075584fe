//! How the words of the contracts are related. The function does nothing: a caller's proof cites what it ensures.

ghost use Rattle.cut_core.specs.Laws.{OpensInOrder};

/// The cut of a splice and files is the result of reading them in order.
pub fn opens_in_order()
    ensures { OpensInOrder }
{}
