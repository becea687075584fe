//! How the words of the contracts are related. The function does nothing: a caller's proof cites what it ensures.

ghost use Rattle.judge_core.specs.Laws.{AcceptedCostsLeast, AcceptedCostsWindows, AcceptedIsLeast, AcceptedIsMaster};

/// What is accepted with a certificate is a master of its project and takes. None of its bridges could cost less. No
/// master of the project and the takes costs less than the reported total, which is the sum over the windows of its
/// bridges.
pub fn accepted_is_least()
    ensures master { AcceptedIsMaster }
    ensures least { AcceptedIsLeast }
    ensures joint { AcceptedCostsLeast }
    ensures windows { AcceptedCostsWindows }
{}
