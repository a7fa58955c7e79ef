//! Reads the opening of a trace, line by line, from the version to the last schedule.
ghost use Rattle.std.specs.Prelude.{◌≤◌, IfOk};
ghost use Rattle.relay_core.specs.Opening.{IsFitLimiterOpening, IsFitOpening};
ghost use Rattle.trace_openings.specs.OpeningFields.{schedule_from};
ghost use Rattle.trace_openings.specs.OpeningReading.{IsFitStart, opening_after_import, opening_with, schedules_from, opening_in, opening_from};
ghost use Rattle.trace_words.specs.Places.{ReadsLines, line_as};

use crate::limiter_lines::{read_export, read_last, read_limiter};
use crate::opening_fields::{
    read_device, read_mode, read_moment, read_schedule_words, read_state, read_table, read_version,
};
use action_schedule::ActionSchedule;
use cosem_axdr::Octets;
use cosem_names::Which;
use disconnect_control::{ControlMode, ControlState};
use relay_core::{LimiterOpening, Opening, Schedules};
use std::alloc::Global;
use trace_words::{TraceFault, TraceLines, Version};
use wire_bytes::and_keep;

// Reads the line of the schedule with this number, counted from 0.
fn read_schedule(
    alloc: Global,
    number: u32,
    lines: &mut TraceLines,
) -> Result<ActionSchedule, TraceFault>
    requires { number ≤ 3 }
    ensures { ReadsLines (λ schedule. schedule) result lines.new
        (line_as (schedule_from number) lines.old) }
{
    lines.read(|words| read_schedule_words(alloc, number, words))
}

// Reads the lines of the four schedules.
#[tactic(auto, unfolding(crate::specs::OpeningReading::schedules_from))]
fn read_schedules(alloc: Global, lines: &mut TraceLines) -> Result<Schedules, TraceFault>
    ensures { ReadsLines (λ schedules. schedules) result lines.new (schedules_from lines.old) }
{
    let first = read_schedule(alloc, 0, lines)?;
    let (first, second) = and_keep(first, read_schedule(alloc, 1, lines))?;
    let ((first, second), third) = and_keep((first, second), read_schedule(alloc, 2, lines))?;
    let ((first, second, third), fourth) = and_keep(
        (first, second, third),
        read_schedule(alloc, 3, lines),
    )?;
    Ok(Schedules {
        first,
        second,
        third,
        fourth,
    })
}

// The device name and the switch, from the first lines.
#[derive(Drop)]
struct Start {
    device: Octets,
    state: ControlState,
    mode: ControlMode,
}

// Reads the lines after those of the import limiter.
#[tactic(auto, unfolding(crate::specs::OpeningReading::opening_after_import))]
fn read_after_import(
    alloc: Global,
    version: Version,
    start: Start,
    moment: Option<u32>,
    import: LimiterOpening,
    lines: &mut TraceLines,
) -> Result<Opening, TraceFault>
    requires start { IsFitStart start.device start.state start.mode }
    requires import { IsFitLimiterOpening import }
    ensures reads { ReadsLines (λ opening. opening) result lines.new
        (opening_after_import version start.device start.state start.mode moment import
        lines.old) }
    ensures fit { IfOk result IsFitOpening }
{
    let ((start, import), export) = and_keep((start, import), read_export(alloc, version, lines))?;
    let ((start, import, export), scripts) = and_keep(
        (start, import, export),
        lines.read(|words| read_table(alloc, words)),
    )?;
    let ((start, import, export, scripts), schedules) = and_keep(
        (start, import, export, scripts),
        read_schedules(alloc, lines),
    )?;
    let Start {
        device,
        state,
        mode,
    } = start;
    Ok(Opening {
        device,
        state,
        mode,
        moment,
        import,
        export,
        scripts,
        schedules,
    })
}

// Reads the lines after that of the control mode.
#[tactic(auto, unfolding(crate::specs::OpeningReading::opening_with, crate::specs::OpeningReading::opening_after_import))]
fn read_after_mode(
    alloc: Global,
    version: Version,
    start: Start,
    lines: &mut TraceLines,
) -> Result<Opening, TraceFault>
    requires { IsFitStart start.device start.state start.mode }
    ensures reads { ReadsLines (λ opening. opening) result lines.new
        (opening_with version start.device start.state start.mode lines.old) }
    ensures fit { IfOk result IsFitOpening }
{
    let (start, last) = and_keep(start, read_last(Which::Import, lines))?;
    let (start, moment) = and_keep(start, lines.read(read_moment))?;
    let (start, import) = and_keep(start, read_limiter(alloc, Which::Import, last, lines))?;
    let opening = read_after_import(alloc, version, start, moment, import, lines)?;
    Ok(opening)
}

// Reads the lines after that of the version.
#[tactic(auto, unfolding(crate::specs::OpeningReading::opening_in))]
fn read_parts(
    alloc: Global,
    version: Version,
    lines: &mut TraceLines,
) -> Result<Opening, TraceFault>
    ensures reads { ReadsLines (λ opening. opening) result lines.new
        (opening_in version lines.old) }
    ensures fit { IfOk result IsFitOpening }
{
    let device = lines.read(|words| read_device(alloc, words))?;
    let (device, state) = and_keep(device, lines.read(read_state))?;
    let (device, mode) = and_keep(device, lines.read(|words| read_mode(state, words)))?;
    let start = Start {
        device,
        state,
        mode,
    };
    read_after_mode(alloc, version, start, lines)
}

/// Reads the opening of a trace: its lines from that of the version to that of the last schedule.
/// Errors: `Line` with the number of the first line that is missing, malformed or has a value that
/// no meter has; `Memory`.
#[tactic(auto, unfolding(crate::specs::OpeningReading::opening_from))]
pub fn read_opening(alloc: Global, lines: &mut TraceLines) -> Result<(Version, Opening), TraceFault>
    ensures reads { ReadsLines (λ parts. parts) result lines.new (opening_from lines.old) }
    ensures fit { IfOk result (λ parts. IsFitOpening parts.1) }
{
    let version = lines.read(read_version)?;
    let opening = read_parts(alloc, version, lines)?;
    Ok((version, opening))
}
