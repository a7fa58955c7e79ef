//! Writes the opening of a trace, in version 2 of the format.
#![tactic(auto, unfolding(text_lines::specs::Lines::rows_text, text_lines::specs::Lines::text_of, text_lines::specs::Words::line_of))]

ghost use Rattle.std.specs.Prelude.{◌≡◌, ◌++◌, ◌∷◌, [], OnOk, codes};
ghost use Rattle.action_schedule.specs.Writing.{entries_data};
ghost use Rattle.disconnect_control.specs.Transitions.{state_number, mode_number};
ghost use Rattle.hex.specs.Hex.{encode_upper};
ghost use Rattle.script_steps.specs.Writing.{data_of};
ghost use Rattle.text_lines.specs.Lines.{rows_text};
ghost use Rattle.trace_words.specs.Labels.{number_row};
ghost use Rattle.trace_openings.specs.OpeningRows.{moment_word, head_rows, schedule_row, schedule_rows, opening_rows};
ghost use Rattle.trace_words.specs.Writing.{words_after_blanks, data_word};

use crate::limiter_writing::{write_last, write_limiter};
use action_schedule::{ActionSchedule, ScheduleAttribute};
use cosem_axdr::Octets;
use cosem_names::Which;
use disconnect_control::{ControlMode, ControlState};
use relay_core::{Opening, Schedules};
use script_steps::ScriptTable;
use std::alloc::{AllocError, Global};
use text_lines::{add_hex, add_number, add_word, end_line};
use trace_words::{add_data, write_number_line};

// The version of the format that is written.
const VERSION: u64 = 2;

// Appends the line of a device name.
fn write_device(alloc: Global, out: &mut Vec<u8>, device: &Octets) -> Result<(), AllocError>
    ensures { OnOk result (out.new.items ≡ out.old.items
        ++ rows_text ((codes "device" ∷ encode_upper device.now ∷ []) ∷ [])) }
{
    out.extend_from_slice(b"device")?;
    add_hex(alloc, out, device.as_slice())?;
    end_line(out)
}

// Appends the line of the control state.
fn write_state(out: &mut Vec<u8>, state: ControlState) -> Result<(), AllocError>
    ensures { OnOk result (out.new.items ≡ out.old.items
        ++ rows_text (number_row (codes "state") (state_number state) ∷ [])) }
{
    write_number_line(out, b"state", u64::from(u8::from(state)))
}

// Appends the line of the control mode.
fn write_mode(out: &mut Vec<u8>, mode: ControlMode) -> Result<(), AllocError>
    ensures { OnOk result (out.new.items ≡ out.old.items
        ++ rows_text (number_row (codes "mode") (mode_number mode) ∷ [])) }
{
    write_number_line(out, b"mode", u64::from(u8::from(mode)))
}

// Appends the lines of the version, the device name and the switch.
#[tactic(auto)]
fn write_head(alloc: Global, out: &mut Vec<u8>, opening: &Opening) -> Result<(), AllocError>
    ensures { OnOk result (out.new.items ≡ out.old.items ++ rows_text (head_rows opening.now)) }
{
    write_number_line(out, b"RELAYTRACE", VERSION)?;
    write_device(alloc, out, &opening.device)?;
    write_state(out, opening.state)?;
    write_mode(out, opening.mode)
}

// Appends the clock's last moment, or `-` before the first.
fn add_moment(out: &mut Vec<u8>, moment: Option<u32>) -> Result<(), AllocError>
    ensures { OnOk result (out.new.items ≡ out.old.items
        ++ words_after_blanks (moment_word moment ∷ [])) }
{
    match moment {
        Some(moment) => add_number(out, u64::from(moment)),
        None => add_word(out, b"-"),
    }
}

// Appends the line of the clock's last moment, or of `-` before the first.
fn write_moment(out: &mut Vec<u8>, moment: Option<u32>) -> Result<(), AllocError>
    ensures { OnOk result (out.new.items ≡ out.old.items
        ++ rows_text ((codes "now" ∷ moment_word moment ∷ []) ∷ [])) }
{
    out.extend_from_slice(b"now")?;
    add_moment(out, moment)?;
    end_line(out)
}

// Appends a script table as a word.
fn add_table(alloc: Global, out: &mut Vec<u8>, scripts: &ScriptTable) -> Result<(), AllocError>
    ensures { OnOk result (out.new.items ≡ out.old.items
        ++ words_after_blanks (data_word (data_of scripts.now) ∷ [])) }
{
    let value = scripts.to_data(alloc)?;
    let added = add_data(alloc, out, &value);
    drop(value);
    added
}

// Appends the line of the script table.
fn write_scripts(alloc: Global, out: &mut Vec<u8>, scripts: &ScriptTable) -> Result<(), AllocError>
    ensures { OnOk result (out.new.items ≡ out.old.items
        ++ rows_text ((codes "scripts" ∷ data_word (data_of scripts.now) ∷ []) ∷ [])) }
{
    out.extend_from_slice(b"scripts")?;
    add_table(alloc, out, scripts)?;
    end_line(out)
}

// Appends the entries of a schedule as a word.
fn add_entries(
    alloc: Global,
    out: &mut Vec<u8>,
    schedule: &ActionSchedule,
) -> Result<(), AllocError>
    ensures { OnOk result (out.new.items ≡ out.old.items
        ++ words_after_blanks (data_word (entries_data schedule.now.entries) ∷ [])) }
{
    let entries = schedule.to_data(alloc, ScheduleAttribute::ExecutionTime)?;
    let added = add_data(alloc, out, &entries);
    drop(entries);
    added
}

// Appends the line of a schedule: its number, selector, type and entries.
fn write_schedule(
    alloc: Global,
    out: &mut Vec<u8>,
    number: u64,
    schedule: &ActionSchedule,
) -> Result<(), AllocError>
    ensures { OnOk result (out.new.items ≡ out.old.items
        ++ rows_text (schedule_row number schedule.now ∷ [])) }
{
    out.extend_from_slice(b"schedule")?;
    add_number(out, number)?;
    add_number(out, u64::from(schedule.selector()))?;
    add_number(out, u64::from(u8::from(schedule.kind())))?;
    add_entries(alloc, out, schedule)?;
    end_line(out)
}

// Appends the lines of the four schedules.
#[tactic(auto)]
fn write_schedules(
    alloc: Global,
    out: &mut Vec<u8>,
    schedules: &Schedules,
) -> Result<(), AllocError>
    ensures { OnOk result (out.new.items ≡ out.old.items
        ++ rows_text (schedule_rows schedules.now)) }
{
    write_schedule(alloc, out, 0, &schedules.first)?;
    write_schedule(alloc, out, 1, &schedules.second)?;
    write_schedule(alloc, out, 2, &schedules.third)?;
    write_schedule(alloc, out, 3, &schedules.fourth)
}

/// Appends the lines of an opening, in version 2, each with the byte 0A that ends it: from the line
/// of the version to that of the last schedule. On an error a part of them may have been appended.
pub fn write_opening(alloc: Global, out: &mut Vec<u8>, opening: &Opening) -> Result<(), AllocError>
    ensures { OnOk result (out.new.items ≡ out.old.items ++ rows_text (opening_rows opening.now)) }
{
    write_head(alloc, out, opening)?;
    write_last(out, Which::Import, &opening.import)?;
    write_moment(out, opening.moment)?;
    write_limiter(alloc, out, Which::Import, &opening.import)?;
    write_last(out, Which::Export, &opening.export)?;
    write_limiter(alloc, out, Which::Export, &opening.export)?;
    write_scripts(alloc, out, &opening.scripts)?;
    write_schedules(alloc, out, &opening.schedules)
}
