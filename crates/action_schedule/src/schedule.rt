//! A single action schedule (IEC 62056-6-2, class 22): its script, type and entries, how clients
//! read and write them, and the moments at which the schedule runs.
ghost use Rattle.std.specs.Prelude.{◌≡◌, ◌↔◌, [], IsOk, IfOk, OnErr, IsErrOf, IsTrue, Err};
ghost use Rattle.action_schedule.specs.Attributes.{is_plain};
ghost use Rattle.cosem_names.specs.declared.write_fault.WriteFault.TheVariants.{Unmatched, Value};
ghost use Rattle.action_schedule.specs.Fitting.{fits, is_due, IsDue};
ghost use Rattle.action_schedule.specs.Reading.{selector_of, kind_of, entries_of};
ghost use Rattle.action_schedule.specs.Schedule.{AreEntries, new_schedule, answer_of, with_selector, with_kind, with_entries};
ghost use Rattle.action_schedule.specs.Writing.{data_at, ReadsBack};

use crate::attribute::ScheduleAttribute;
use crate::fitting::{fits_type, has_match, window_start};
use crate::kind::ScheduleType;
use crate::reading::{judge_entries, read_entries, read_kind, read_selector};
use crate::writing::{script_to_data, write_entries};
use cosem_axdr::Data;
use cosem_datetime::EntryPattern;
use cosem_names::WriteFault;
use std::alloc::{AllocError, Global};
use std::marker::Model;
use std::mem;
use wire_bytes::Listed;

/// The maximum number of entries of a schedule.
pub const MAX_ENTRIES: usize = 16;

/// A single action schedule (IEC 62056-6-2, class 22): the script that it runs, its type and its
/// entries.
#[derive(Debug, Drop)]
pub struct ActionSchedule {
    selector: u16,
    kind: ScheduleType,
    entries: Listed<EntryPattern>,
}

impl Model for ActionSchedule {
    ghost use Rattle.action_schedule.specs.Schedule.{Schedule, AreEntries};

    ghost Value = { Schedule };

    ghost view = { λ s. record { selector = s.selector; kind = s.kind; entries = s.entries } };

    ghost invariant = { λ s. AreEntries s.entries };
}

impl ActionSchedule {
    /// Returns a schedule of type 5 without entries that runs the null script. Does not allocate.
    pub fn new(alloc: Global) -> ActionSchedule
        ensures { result ≡ new_schedule }
    {
        ActionSchedule {
            selector: 0,
            kind: ScheduleType::Type5,
            entries: Listed::new(alloc),
        }
    }

    /// Returns a schedule without entries that has this type and runs the script with this
    /// selector. Does not allocate.
    pub fn without_entries(alloc: Global, selector: u16, kind: ScheduleType) -> ActionSchedule
        ensures { result ≡ record { selector = selector; kind = kind; entries = [] } }
    {
        ActionSchedule {
            selector,
            kind,
            entries: Listed::new(alloc),
        }
    }

    /// Writes executed_script (attribute 2): a structure of the script table's logical name and a
    /// long-unsigned selector. Does not allocate.
    ///
    /// Errors, judged in this order: `Unmatched` if a type differs, `Value` if the script is of
    /// another script table. On an error nothing changes.
    pub fn set_script(&mut self, value: &Data) -> Result<(), WriteFault>
        ensures schedule { self.new ≡ with_selector (selector_of value.now) self.old }
        ensures answer { result ≡ answer_of (selector_of value.now) }
        ensures no_memory { ¬ IsErrOf result WriteFault.Memory }
    {
        self.selector = read_selector(value)?;
        Ok(())
    }

    /// Writes type (attribute 3): an enum, 1 to 5. Returns `Unmatched` if the Data is not an enum,
    /// and `Value` for any other number; then nothing changes. Does not allocate.
    pub fn set_kind(&mut self, value: &Data) -> Result<(), WriteFault>
        ensures schedule { self.new ≡ with_kind (kind_of value.now) self.old }
        ensures answer { result ≡ answer_of (kind_of value.now) }
        ensures no_memory { ¬ IsErrOf result WriteFault.Memory }
    {
        self.kind = read_kind(value)?;
        Ok(())
    }

    /// Writes execution_time (attribute 4): an array of structures, each of a time and a date,
    /// which are octet-strings or have their own types.
    ///
    /// Errors, judged in this order: `Unmatched` if a type differs anywhere, `Value` if there are
    /// more than `MAX_ENTRIES` entries or a field of a time or date is out of its range, `Memory`
    /// if out of memory. On an error nothing changes.
    #[tactic(auto, unfolding(crate::specs::Reading::entries_of))]
    pub fn set_entries(&mut self, alloc: Global, value: &Data) -> Result<(), WriteFault>
        ensures ok { IfOk result (λ _. (self.new ≡ with_entries (entries_of value.now) self.old)
            × IsOk (entries_of value.now)) }
        ensures err { OnErr result (self.new ≡ self.old) }
        ensures unmatched { IsErrOf result WriteFault.Unmatched
            ↔ (entries_of value.now ≡ Err Unmatched) }
        ensures value { IsErrOf result WriteFault.Value ↔ (entries_of value.now ≡ Err Value) }
        ensures memory { IsErrOf result WriteFault.Memory → IsOk (entries_of value.now) }
    {
        let items = value.array().ok_or(WriteFault::Unmatched)?;
        judge_entries(items)?;
        self.entries = read_entries(alloc, items)?;
        Ok(())
    }

    /// Swaps the entries (attribute 4) of two schedules. Does not allocate.
    pub fn swap_entries(&mut self, other: &mut ActionSchedule)
        ensures self_after { self.new ≡ record self.old { entries = other.old.entries } }
        ensures other_after { other.new ≡ record other.old { entries = self.old.entries } }
    {
        mem::swap(&mut self.entries, &mut other.entries);
    }

    /// Returns the value of an attribute as Data, as a client reads it. Times and dates are
    /// octet-strings. The type does not allocate; the other attributes fail only if out of memory.
    pub fn to_data(&self, alloc: Global, attribute: ScheduleAttribute) -> Result<Data, AllocError>
        ensures value { IfOk result (λ value. value ≡ data_at attribute self.now) }
        // Reading the Data returns the attribute.
        ensures read_back { IfOk result (λ value. ReadsBack attribute value self.now) }
        ensures plain { IsTrue (is_plain attribute) → IsOk result }
    {
        match attribute {
            ScheduleAttribute::ExecutedScript => script_to_data(alloc, self.selector),
            ScheduleAttribute::Kind => Ok(Data::Enum(u8::from(self.kind))),
            ScheduleAttribute::ExecutionTime => write_entries(alloc, self.entries.as_slice()),
        }
    }

    /// Returns the selector of the script that the schedule runs.
    pub fn selector(&self) -> u16
        ensures { result ≡ self.now.selector }
    {
        self.selector
    }

    /// Returns the type of the schedule.
    pub fn kind(&self) -> ScheduleType
        ensures { result ≡ self.now.kind }
    {
        self.kind
    }

    /// Returns the entries, in order.
    pub fn entries(&self) -> &[EntryPattern]
        ensures entries { result.now ≡ self.now.entries }
        ensures fit { AreEntries self.now.entries }
    {
        self.entries.as_slice()
    }

    /// Returns whether the entries are allowed for the schedule's type.
    #[tactic(auto, unfolding(crate::specs::Fitting::fits))]
    pub fn fits(&self) -> bool
        ensures { result ≡ fits self.now }
    {
        fits_type(self.kind, self.entries.as_slice())
    }

    // Returns whether the schedule fits its type and a second of the window matches one of its
    // entries.
    #[tactic(auto, unfolding(crate::specs::Fitting::is_due, crate::specs::Fitting::fits))]
    fn falls_due(&self, previous: u32, now: u32) -> bool
        ensures { result ≡ is_due self.now previous now }
    {
        self.fits() && has_match(self.entries.as_slice(), window_start(previous, now), now)
    }

    /// Returns whether the schedule is due at the moment `now`; `previous` is the moment before
    /// (both in seconds since 1 January 2000).
    ///
    /// The schedule is due if it fits its type and some second after `previous` and up to `now`
    /// matches one of its entries. Seconds a day or more before `now` do not count.
    pub fn due(&self, previous: u32, now: u32) -> bool
        ensures value { result ≡ is_due self.now previous now }
        ensures meaning { IsTrue result ↔ IsDue self.now previous now }
    {
        self.falls_due(previous, now)
    }

    /// Returns a copy of the schedule, or an error if out of memory.
    pub fn try_clone(&self, alloc: Global) -> Result<ActionSchedule, AllocError>
        ensures { IfOk result (λ schedule. schedule ≡ self.now) }
    {
        let entries = Vec::from_slice(alloc, self.entries.as_slice())?;
        Ok(ActionSchedule {
            selector: self.selector,
            kind: self.kind,
            entries: Listed::from_vec(entries),
        })
    }
}
