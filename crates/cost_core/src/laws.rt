//! What holds of the costs of all bridges and channels: functions that do nothing and carry laws.

ghost use Rattle.cost_core.specs.Channels.{FadesJoin, LeastTogether, PlacesAreWindows};
ghost use Rattle.cost_core.specs.StateCosts.{CostsInBounds, StepsAreCost};
ghost use Rattle.cost_core.specs.Validity.{CappedIsValid, LeastFromValid};

/// Steps along a bridge's bits and the end that they lead to add up to the sum over the places of its window.
pub fn steps_are_cost()
    ensures { StepsAreCost }
{}

/// No cost within the limits exceeds its type: a step is below `2^51`, an end and a whole cost are below `2^63`.
pub fn costs_in_bounds()
    ensures { CostsInBounds }
{}

/// If a table of forward bounds is valid for the bits of a bridge, no bits cost less.
pub fn least_from_valid()
    ensures { LeastFromValid }
{}

/// A valid table stays valid if each bound above the cost is replaced by the cost.
pub fn capped_is_valid()
    ensures { CappedIsValid }
{}

/// No place of a channel reads two bridges, so none is counted twice: the cost of the whole channel is the sum over its
/// windows.
pub fn places_are_windows()
    ensures { PlacesAreWindows }
{}

/// The window of the bridge after a cue, whatever its target, is built from the end of that cue and the start of the
/// next one.
pub fn fades_join()
    ensures { FadesJoin }
{}

/// If each bridge is least, no channel of the same cues with bridges of the same lengths costs less.
pub fn least_together()
    ensures { LeastTogether }
{}
