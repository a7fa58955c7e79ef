//! The meter's four single action schedules, and how clients read and write their attributes (IEC
//! 62056-6-2, class 22).
ghost use Rattle.std.specs.Prelude.{◌≡◌, IfOk, IsOk, IsTrue};
ghost use Rattle.action_schedule.specs.Attributes.{attribute_numbered, is_plain};
ghost use Rattle.action_schedule.specs.Reading.{selector_of, kind_of};
ghost use Rattle.action_schedule.specs.Schedule.{with_selector, with_kind};
ghost use Rattle.action_schedule.specs.Writing.{data_at};
ghost use Rattle.relay_core.specs.Memory.{is_plain_where};
ghost use Rattle.relay_core.specs.Reading.{result_of_attribute};
ghost use Rattle.relay_core.specs.Schedules.{schedule_of, schedule_after_write, schedule_code, write_code};
ghost use Rattle.relay_core.specs.Stands.{StandsFor};
ghost use Rattle.relay_core.specs.World.{World, new_schedules};
ghost use Rattle.relay_core.specs.Writing.{at_schedule};
ghost use Rattle.relay_core.specs.Moving.{with_list};
ghost use Rattle.relay_core.specs.declared.parts.Parts.TheVariants as part;
ghost use Rattle.relay_core.specs.declared.parts.WrittenList.TheVariants as written;

use crate::relay::RelayCore;
use action_schedule::{ActionSchedule, ScheduleAttribute};
use cosem_axdr::Data;
use cosem_names::{GetResult, ResultCode, ScheduleNumber, WriteFault};
use std::alloc::{AllocError, Global};
use wire_bytes::and_keep;

/// The four single action schedules, in the order in which they run.
#[derive(Debug, Drop)]
pub struct Schedules {
    /// The schedule 0.0.15.0.1.255.
    pub first: ActionSchedule,
    /// The schedule 0.1.15.0.1.255.
    pub second: ActionSchedule,
    /// The schedule 0.2.15.0.1.255.
    pub third: ActionSchedule,
    /// The schedule 0.3.15.0.1.255.
    pub fourth: ActionSchedule,
}

impl Schedules {
    // Returns the schedules of a new meter: none is ever due.
    pub(crate) fn new(alloc: Global) -> Schedules
        ensures { result ≡ new_schedules }
    {
        Schedules {
            first: ActionSchedule::new(alloc),
            second: ActionSchedule::new(alloc),
            third: ActionSchedule::new(alloc),
            fourth: ActionSchedule::new(alloc),
        }
    }

    // Returns one of the schedules.
    pub(crate) fn get(&self, which: ScheduleNumber) -> &ActionSchedule
        ensures { result.now ≡ schedule_of which self.now }
    {
        match which {
            ScheduleNumber::First => &self.first,
            ScheduleNumber::Second => &self.second,
            ScheduleNumber::Third => &self.third,
            ScheduleNumber::Fourth => &self.fourth,
        }
    }

    // Returns copies of the schedules.
    pub(crate) fn try_clone(&self, alloc: Global) -> Result<Schedules, AllocError>
        ensures { IfOk result (λ copy. copy ≡ self.now) }
    {
        let halves = copy_pair(alloc, &self.first, &self.second)?;
        let (halves, others) = and_keep(halves, copy_pair(alloc, &self.third, &self.fourth))?;
        let (first, second) = halves;
        let (third, fourth) = others;
        Ok(Schedules {
            first,
            second,
            third,
            fourth,
        })
    }
}

// Returns copies of two schedules.
fn copy_pair(
    alloc: Global,
    one: &ActionSchedule,
    other: &ActionSchedule,
) -> Result<(ActionSchedule, ActionSchedule), AllocError>
    ensures first { IfOk result (λ copies. copies.0 ≡ one.now) }
    ensures second { IfOk result (λ copies. copies.1 ≡ other.now) }
{
    let copy = one.try_clone(alloc)?;
    and_keep(copy, other.try_clone(alloc))
}

// Reads an attribute of a schedule other than the logical name.
pub(crate) fn read_schedule(
    alloc: Global,
    schedule: &ActionSchedule,
    number: u8,
) -> Result<GetResult, AllocError>
    ensures value { IfOk result (λ r. r
        ≡ result_of_attribute (λ attribute. data_at attribute schedule.now)
        (attribute_numbered number)) }
    ensures plain { IsTrue (is_plain_where is_plain (attribute_numbered number)) → IsOk result }
{
    let Ok(attribute) = ScheduleAttribute::try_from(number) else {
        return Ok(GetResult::Code(ResultCode::ReadWriteDenied));
    };
    Ok(GetResult::Value(schedule.to_data(alloc, attribute)?))
}

// Returns the result code of a write that does not allocate.
fn code_of(answer: Result<(), WriteFault>) -> ResultCode
    ensures { result ≡ write_code answer }
{
    match answer {
        Ok(()) => ResultCode::Success,
        Err(fault) => fault.code(),
    }
}

// Writes executed_script (IEC 62056-6-2, class 22) and returns the result code.
#[tactic(auto, using(crate::proofs::ScheduleLemmas::code_of_answer))]
fn write_script(schedule: &mut ActionSchedule, value: &Data) -> ResultCode
    ensures schedule { schedule.new ≡ with_selector (selector_of value.now) schedule.old }
    ensures code { result ≡ write_code (selector_of value.now) }
{
    code_of(schedule.set_script(value))
}

// Writes type (IEC 62056-6-2, class 22) and returns the result code.
#[tactic(auto, using(crate::proofs::ScheduleLemmas::code_of_answer))]
fn write_kind(schedule: &mut ActionSchedule, value: &Data) -> ResultCode
    ensures schedule { schedule.new ≡ with_kind (kind_of value.now) schedule.old }
    ensures code { result ≡ write_code (kind_of value.now) }
{
    code_of(schedule.set_kind(value))
}

// Writes an attribute of a schedule other than its list of entries.
#[tactic(auto, unfolding(crate::specs::Schedules::schedule_after_write, crate::specs::Schedules::schedule_code))]
fn write_attribute(schedule: &mut ActionSchedule, number: u8, value: &Data) -> ResultCode
    ensures schedule { schedule.new
        ≡ schedule_after_write (attribute_numbered number) value.now schedule.old }
    ensures code { result ≡ schedule_code (attribute_numbered number) value.now }
{
    match ScheduleAttribute::try_from(number) {
        Ok(ScheduleAttribute::ExecutedScript) => write_script(schedule, value),
        Ok(ScheduleAttribute::Kind) => write_kind(schedule, value),
        Ok(ScheduleAttribute::ExecutionTime) | Err(_) => ResultCode::ReadWriteDenied,
    }
}

impl RelayCore {
    // Writes an attribute of one of the schedules other than its list of entries.
    #[tactic(auto, unfolding(crate::specs::Writing::at_schedule))]
    pub(crate) fn write_schedule(
        &mut self,
        which: ScheduleNumber,
        number: u8,
        value: &Data,
    ) -> ResultCode
        ensures world { (w : World) → StandsFor self.old w
            → StandsFor self.new (at_schedule which (attribute_numbered number) value.now w).world }
        ensures code { (w : World) → StandsFor self.old w
            → result ≡ (at_schedule which (attribute_numbered number) value.now w).code }
    {
        match which {
            ScheduleNumber::First => write_attribute(&mut self.schedules.first, number, value),
            ScheduleNumber::Second => write_attribute(&mut self.schedules.second, number, value),
            ScheduleNumber::Third => write_attribute(&mut self.schedules.third, number, value),
            ScheduleNumber::Fourth => write_attribute(&mut self.schedules.fourth, number, value),
        }
    }

    // Swaps the entries of one of these schedules with those of `other`.
    pub(crate) fn trade_entries(&mut self, which: ScheduleNumber, other: &mut ActionSchedule)
        ensures { (w : World) → StandsFor self.old w
            → StandsFor self.new (with_list (written.Entries which) (part.Entries other.old) w) }
    {
        match which {
            ScheduleNumber::First => self.schedules.first.swap_entries(other),
            ScheduleNumber::Second => self.schedules.second.swap_entries(other),
            ScheduleNumber::Third => self.schedules.third.swap_entries(other),
            ScheduleNumber::Fourth => self.schedules.fourth.swap_entries(other),
        }
    }
}
