//! Laws of what is given. Each function does nothing: a caller's proof cites what it ensures.

ghost use Rattle.joined_core.specs.Givers.{GivenComesFirst};

/// The law of prefixes: what was given comes first among the frames of each recording that begins with the bytes that
/// came.
pub fn given_comes_first()
    ensures { GivenComesFirst }
{}
