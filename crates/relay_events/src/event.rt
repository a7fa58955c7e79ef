//! The inputs of a meter, and their copies.
ghost use Rattle.std.specs.Prelude.{◌≡◌, IfOk};
ghost use Rattle.relay_events.specs.Kinds.{is_read};

use cosem_axdr::Data;
use cosem_names::{AttrRef, AttributeSelection, Level, MethodRef};
use lane_sampler::Block;
use std::alloc::{AllocError, Global};
use wire_bytes::Listed;

/// An input of the meter: a client's request, a press of the button, a block of power samples or a
/// moment of the clock. Each is one step of the core.
#[derive(Debug, Drop)]
pub enum Event {
    /// GET: a client reads an attribute. `selected` says whether the request has selective access.
    Get {
        level: Level,
        attr: AttrRef,
        selected: bool,
    },
    /// GET with list: a client reads several attributes in one step.
    GetList {
        level: Level,
        items: Listed<AttributeSelection>,
    },
    /// SET: a client writes an attribute.
    Set {
        level: Level,
        attr: AttrRef,
        selected: bool,
        value: Data,
    },
    /// ACTION: a client executes a method.
    Execute {
        level: Level,
        method: MethodRef,
        parameter: Option<Data>,
    },
    /// A press of the meter's button.
    Button,
    /// Samples of the imported power, or of imported and exported power, in watts.
    Samples(Block),
    /// The clock has reached this moment: seconds since 2000-01-01 00:00:00 in the meter's time.
    Moment(u32),
}

/// Events in order.
pub type Events = Listed<Event>;

// Returns a copy of a parameter, if there is one.
fn copy_parameter(alloc: Global, parameter: &Option<Data>) -> Result<Option<Data>, AllocError>
    ensures { IfOk result (λ copy. copy ≡ parameter.now) }
{
    match parameter {
        Some(value) => Ok(Some(value.try_clone(alloc)?)),
        None => Ok(None),
    }
}

impl Event {
    /// Returns whether the event only reads: a GET or a GET with list.
    pub fn is_read(&self) -> bool
        ensures { result ≡ is_read self.now }
    {
        matches!(self, Event::Get { .. } | Event::GetList { .. })
    }

    /// Returns a copy of the event. Fails if out of memory.
    pub fn try_copy(&self, alloc: Global) -> Result<Event, AllocError>
        ensures { IfOk result (λ copy. copy ≡ self.now) }
    {
        Ok(match self {
            Event::Get {
                level,
                attr,
                selected,
            } => Event::Get {
                level: *level,
                attr: *attr,
                selected: *selected,
            },
            Event::GetList { level, items } => Event::GetList {
                level: *level,
                items: Listed::from_vec(Vec::from_slice(alloc, items.as_slice())?),
            },
            Event::Set {
                level,
                attr,
                selected,
                value,
            } => Event::Set {
                level: *level,
                attr: *attr,
                selected: *selected,
                value: value.try_clone(alloc)?,
            },
            Event::Execute {
                level,
                method,
                parameter,
            } => Event::Execute {
                level: *level,
                method: *method,
                parameter: copy_parameter(alloc, parameter)?,
            },
            Event::Button => Event::Button,
            Event::Samples(block) => Event::Samples(block.try_clone(alloc)?),
            Event::Moment(now) => Event::Moment(*now),
        })
    }
}
