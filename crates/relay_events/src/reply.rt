//! The meter's reply to an event, and the line of a run: reply, control state and supply output.
use cosem_axdr::Data;
use cosem_names::{GetResult, ResultCode};
use disconnect_control::ControlState;
use wire_bytes::Listed;

/// The core's reply to an event.
#[derive(Debug, Drop)]
pub enum Reply {
    /// To a Get: the value of the attribute.
    Value(Data),
    /// To a GetList: a result for each item, in order.
    Values(Listed<GetResult>),
    /// To a Set, an Execute or a press of a button: its result. To a Get: why the attribute was not
    /// read.
    Code(ResultCode),
    /// To Samples of imported power only: how often each side of its limiter fired.
    Sampled {
        over: u16,
        under: u16,
    },
    /// To Samples of imported and exported power: how often each side of each limiter fired.
    SampledBoth {
        over: u16,
        under: u16,
        export_over: u16,
        export_under: u16,
    },
    /// To a Moment: the number of schedules that were due.
    Ran(u8),
    /// To a Moment earlier than the last one, which changes nothing: the last moment.
    Stale {
        last: u32,
    },
}

/// One line of a run: the reply to an event, and the switch's state and output after it.
#[derive(Debug, Drop)]
pub struct Line {
    /// The reply to the event.
    pub reply: Reply,
    /// The state of the switch.
    pub state: ControlState,
    /// Whether the supply is on.
    pub output: bool,
}

/// Lines in order.
pub type Lines = Listed<Line>;
