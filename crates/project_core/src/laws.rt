//! How the words of the contracts are related. The functions do nothing: a caller's proof cites what they ensure.

ghost use Rattle.project_core.specs.Laws.{OneProject, ReadAsSaid};

/// A text states at most one project.
pub fn one_project()
    ensures { OneProject }
{}

/// Reading in order ends with a project exactly if the text states it.
pub fn read_as_said()
    ensures { ReadAsSaid }
{}
