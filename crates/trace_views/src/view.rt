//! `TraceView`: which lines of a run are shown, what they have, and in which format.
ghost use Rattle.std.specs.Prelude.{◌≡◌};
ghost use Rattle.trace_views.specs.Views.{is_change, is_shown, is_within, whole_view};

use crate::format::TraceFormat;
use disconnect_control::ControlState;
use relay_events::Line;

/// What is shown of a run.
#[derive(Clone, Copy, Debug, PartialEq, Eq)]
pub struct TraceView {
    /// The number of the first event that is shown, counted from 1; `None`: no lower bound.
    pub first: Option<u32>,
    /// The number of the last event that is shown; `None`: no upper bound.
    pub last: Option<u32>,
    /// Whether to show only the lines whose control state or supply differs from that of the line
    /// before, and for the first line from that of the opening.
    pub changes_only: bool,
    /// Whether each line ends with its event.
    pub with_events: bool,
    /// How the events are shown.
    pub format: TraceFormat,
}

// The supply switch: its control state, and whether the supply is on.
#[derive(Clone, Copy, Debug)]
pub(crate) struct Switch {
    pub(crate) state: ControlState,
    pub(crate) output: bool,
}

impl TraceView {
    /// Returns the view that shows each line as the player prints it, without its event.
    pub fn whole() -> TraceView
        ensures { result ≡ whole_view }
    {
        TraceView {
            first: None,
            last: None,
            changes_only: false,
            with_events: false,
            format: TraceFormat::Lines,
        }
    }

    // Returns whether the number of an event is within the bounds.
    fn is_within(&self, number: u64) -> bool
        ensures { result ≡ is_within self.now number }
    {
        if let Some(first) = self.first
            && number < u64::from(first)
        {
            return false;
        }
        if let Some(last) = self.last
            && u64::from(last) < number
        {
            return false;
        }
        true
    }

    // Returns whether the line of an event is shown. `before` is the switch before the event.
    pub(crate) fn is_shown(&self, number: u64, before: Switch, line: &Line) -> bool
        ensures { result ≡ is_shown self.now number before line.now }
    {
        self.is_within(number) && (!self.changes_only || is_change(before, line))
    }
}

// Returns whether the control state or the supply after an event differs from that before it.
fn is_change(before: Switch, line: &Line) -> bool
    ensures { result ≡ is_change before line.now }
{
    before.state != line.state || before.output != line.output
}
