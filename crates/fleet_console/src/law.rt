//! Proves that the slices of a command together reach all its meters.
ghost use Rattle.fleet_console.specs.Steps.{SlicesGiveAll};

/// Proves that a line that gives an event to a range of meters, carried out slice after slice, does
/// to the fleet what it does to all the meters at once: each that the fleet has is given the event
/// once and in order, and no other; or the fleet has none of them and is unchanged; or memory ran
/// out after the first of them.
pub fn slices_give_all()
    ensures { SlicesGiveAll }
{}
