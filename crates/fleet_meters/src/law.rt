//! Proves what holds of a fleet after any admissions, turns, closings and events.
ghost use Rattle.fleet_meters.specs.Law.{HaveTheirFrames, HaveTheirAnswers, HaveTheirHistories};
ghost use Rattle.fleet_meters.specs.Law.{HoldsAlways, StayUnaddressed};

/// Proves that a connection, after any calls of its fleet, has been written the first frames that
/// its session owes for the bytes that were read from it, and all of them if it waits with nothing
/// pending.
pub fn answered_connections()
    ensures frames { HaveTheirFrames }
    ensures answers { HaveTheirAnswers }
{}

/// Proves that the history of a meter, after any calls of its fleet, is the earlier one followed by
/// the events of the connections to that meter and those that it was given, in order.
pub fn separate_histories()
    ensures { HaveTheirHistories }
{}

/// Proves what holds of a fleet of new meters after any calls: each open connection has been
/// written the frames of its session, and no other has this session; at most eight are open to one
/// meter; and each meter is a new one with the history of its own connections and events. A meter
/// that no call is for stays as it is.
pub fn moments_of_fleets()
    ensures holds { HoldsAlways }
    ensures unaddressed { StayUnaddressed }
{}
