//! Reads the values of an opening from the words of each line: version, device, switch, clock,
//! scripts and schedules.
ghost use Rattle.std.specs.Prelude.{◌≡◌, ◌≤◌, IfOk, codes, length};
ghost use Rattle.wire_bytes.specs.Outcome.{Gives};
ghost use Rattle.disconnect_control.specs.declared.state.ControlMode.TheVariants.{Mode0};
ghost use Rattle.disconnect_control.specs.declared.state.ControlState.TheVariants.{Connected};
ghost use Rattle.trace_words.specs.Labels.{labelled_value};
ghost use Rattle.trace_openings.specs.OpeningFields.{version_in, device_in, state_in, mode_in, moment_in, table_in, entries_in, type_in, version_from, schedule_from};
ghost use Rattle.trace_words.specs.declared.fault.RowFault.TheVariants.{Memory};

use action_schedule::{ActionSchedule, ScheduleFault, ScheduleType};
use cosem_axdr::Octets;
use disconnect_control::{ControlMode, ControlState};
use relay_core::MAX_DEVICE_NAME;
use script_steps::{ScriptFault, ScriptTable};
use std::alloc::Global;
use text_lines::Words;
use trace_words::{
    RowFault, Version, last_word, next_long, next_word, parse_bytes, parse_data, parse_number,
    read_label, read_labelled,
};

// Reads the version of the format, 1 or 2.
fn parse_version(word: &[u8]) -> Result<Version, RowFault>
    ensures { result ≡ version_in word.now }
{
    match parse_number(word, 2)? {
        1 => Ok(Version::One),
        2 => Ok(Version::Two),
        _ => Err(RowFault::Wrong),
    }
}

// Reads the line of the version.
pub(crate) fn read_version(words: &mut Words) -> Result<Version, RowFault>
    ensures { Gives Memory (λ version. version) result (version_from words.old) }
{
    read_labelled(b"RELAYTRACE", words, parse_version)
}

// Reads a device name, 1 to 16 bytes in hexadecimal.
#[tactic(auto, unfolding(crate::specs::OpeningFields::device_in), using(crate::proofs::OpeningLemmas::bytes_some))]
fn parse_device(alloc: Global, word: &[u8]) -> Result<Octets, RowFault>
    ensures device { Gives Memory (λ device. device) result (device_in word.now) }
    ensures non_empty { IfOk result (λ device. 1 ≤ length device) }
    ensures within_max { IfOk result (λ device. length device ≤ 16) }
{
    let device = parse_bytes(alloc, word)?;
    if device.len() > MAX_DEVICE_NAME {
        return Err(RowFault::Wrong);
    }
    Ok(device)
}

// Reads the line of the device name.
pub(crate) fn read_device(alloc: Global, words: &mut Words) -> Result<Octets, RowFault>
    ensures device { Gives Memory (λ device. device) result
        (labelled_value (codes "device") device_in words.old) }
    ensures non_empty { IfOk result (λ device. 1 ≤ length device) }
    ensures within_max { IfOk result (λ device. length device ≤ 16) }
{
    read_labelled(b"device", words, |word| parse_device(alloc, word))
}

// Reads a control state (class 70, attribute 3) as a number, 0 to 2.
fn parse_state(word: &[u8]) -> Result<ControlState, RowFault>
    ensures { result ≡ state_in word.now }
{
    match parse_number(word, 2)? {
        0 => Ok(ControlState::Disconnected),
        1 => Ok(ControlState::Connected),
        _ => Ok(ControlState::ReadyForReconnection),
    }
}

// Reads the line of the control state.
pub(crate) fn read_state(words: &mut Words) -> Result<ControlState, RowFault>
    ensures { Gives Memory (λ state. state) result
        (labelled_value (codes "state") state_in words.old) }
{
    read_labelled(b"state", words, parse_state)
}

// Reads a control mode (class 70, attribute 4) as a number, 0 to 6. Errors: `Wrong` also if the
// mode does not fit `state`.
#[tactic(auto, unfolding(crate::specs::OpeningFields::mode_in, disconnect_control::specs::Control::is_mode_fit))]
fn parse_mode(state: ControlState, word: &[u8]) -> Result<ControlMode, RowFault>
    ensures mode { result ≡ mode_in state word.now }
    ensures fit { IfOk result (λ mode. mode ≡ Mode0 → state ≡ Connected) }
{
    let Ok(mode) = ControlMode::try_from(parse_number(word, 6)? as u8) else {
        return Err(RowFault::Wrong);
    };
    match (mode, state) {
        (ControlMode::Mode0, ControlState::Connected) => Ok(mode),
        (ControlMode::Mode0, _) => Err(RowFault::Wrong),
        _ => Ok(mode),
    }
}

// Reads the line of the control mode of a switch in `state`.
pub(crate) fn read_mode(state: ControlState, words: &mut Words) -> Result<ControlMode, RowFault>
    ensures mode { Gives Memory (λ mode. mode) result
        (labelled_value (codes "mode") (mode_in state) words.old) }
    ensures fit { IfOk result (λ mode. mode ≡ Mode0 → state ≡ Connected) }
{
    read_labelled(b"mode", words, |word| parse_mode(state, word))
}

// Reads a moment, in seconds, or `-` for `None`.
fn parse_moment(word: &[u8]) -> Result<Option<u32>, RowFault>
    ensures { result ≡ moment_in word.now }
{
    if word == b"-".as_slice() {
        return Ok(None);
    }
    Ok(Some(parse_number(word, u32::MAX)?))
}

// Reads the line of the clock's last moment.
pub(crate) fn read_moment(words: &mut Words) -> Result<Option<u32>, RowFault>
    ensures { Gives Memory (λ moment. moment) result
        (labelled_value (codes "now") moment_in words.old) }
{
    read_labelled(b"now", words, parse_moment)
}

// Reads a script table, a Data in hexadecimal.
#[tactic(auto, unfolding(crate::specs::OpeningFields::table_in))]
fn parse_table(alloc: Global, word: &[u8]) -> Result<ScriptTable, RowFault>
    ensures { Gives Memory (λ table. table) result (table_in word.now) }
{
    let value = parse_data(alloc, word)?;
    let table = ScriptTable::from_data(alloc, &value);
    drop(value);
    match table {
        Ok(table) => Ok(table),
        Err(ScriptFault::Memory) => Err(RowFault::Memory),
        Err(ScriptFault::Unmatched) => Err(RowFault::Wrong),
        Err(ScriptFault::Value) => Err(RowFault::Wrong),
    }
}

// Reads the line of the script table.
pub(crate) fn read_table(alloc: Global, words: &mut Words) -> Result<ScriptTable, RowFault>
    ensures { Gives Memory (λ table. table) result
        (labelled_value (codes "scripts") table_in words.old) }
{
    read_labelled(b"scripts", words, |word| parse_table(alloc, word))
}

// Reads the type of a schedule.
fn parse_type(word: &[u8]) -> Result<ScheduleType, RowFault>
    ensures { result ≡ type_in word.now }
{
    match ScheduleType::try_from(parse_number(word, 5)? as u8) {
        Ok(kind) => Ok(kind),
        Err(_) => Err(RowFault::Wrong),
    }
}

// Returns a schedule with the entries that `word` holds.
#[tactic(auto, unfolding(crate::specs::OpeningFields::entries_in))]
fn with_entries(
    alloc: Global,
    selector: u16,
    kind: ScheduleType,
    word: &[u8],
) -> Result<ActionSchedule, RowFault>
    ensures entries { Gives Memory (λ schedule. schedule.entries) result (entries_in word.now) }
    ensures selector { IfOk result (λ schedule. schedule.selector ≡ selector) }
    ensures kind { IfOk result (λ schedule. schedule.kind ≡ kind) }
{
    let value = parse_data(alloc, word)?;
    let mut schedule = ActionSchedule::without_entries(alloc, selector, kind);
    let set = schedule.set_entries(alloc, &value);
    drop(value);
    match set {
        Ok(()) => Ok(schedule),
        Err(fault) => {
            drop(schedule);
            Err(match fault {
                ScheduleFault::Memory => RowFault::Memory,
                ScheduleFault::Unmatched => RowFault::Wrong,
                ScheduleFault::Value => RowFault::Wrong,
            })
        }
    }
}

// Reads the line of the schedule with this number.
#[tactic(auto, unfolding(crate::specs::OpeningFields::schedule_from))]
pub(crate) fn read_schedule_words(
    alloc: Global,
    which: u32,
    words: &mut Words,
) -> Result<ActionSchedule, RowFault>
    ensures { Gives Memory (λ schedule. schedule) result (schedule_from which words.old) }
{
    read_label(b"schedule", words)?;
    if parse_number(next_word(words)?, 3)? != which {
        return Err(RowFault::Wrong);
    }
    let selector = next_long(words)?;
    let kind = parse_type(next_word(words)?)?;
    with_entries(alloc, selector, kind, last_word(words)?)
}
