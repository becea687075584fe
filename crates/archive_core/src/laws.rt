//! How the words of the contracts are related. The functions do nothing: a caller's proof cites what they ensure.

ghost use Rattle.request_core.specs.Cutting.{SaysCutInOrder};
ghost use Rattle.archive_core.specs.Laws.{LeastIsAccepted, OneCertificate};
ghost use Rattle.request_core.specs.Projects.{SaysTakesInOrder};
ghost use Rattle.transfer_core.specs.Laws.{ConvertsInOrder, PlaysInOrder};

/// Reading in the order of the refusals returns what a file converts to, what project and file play, which takes a text
/// cuts, and which cut it makes.
pub fn read_in_order()
    ensures converts { ConvertsInOrder }
    ensures plays { PlaysInOrder }
    ensures takes { SaysTakesInOrder }
    ensures cuts { SaysCutInOrder }
{}

/// The certificate that is written for a master is a function of the project, the takes and the master's bits. With it,
/// a master is accepted if none of its bridges could cost less.
pub fn least_is_accepted()
    ensures one { OneCertificate }
    ensures accepted { LeastIsAccepted }
{}
