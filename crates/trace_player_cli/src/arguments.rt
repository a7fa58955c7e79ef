//! The command line and its help.
use clap::{Arg, ArgAction, Command};
use program::options::{
    FORMATS, NumberRange, OptionText, OptionValue, Presence, VERBOSE, with_options,
};
use program::with_argument;
use std::alloc::{AllocError, Global};

// The last lines of `--help`.
const LIMITS_AND_STATUSES: &str = "\
Limits: a trace has at most 33,554,432 bytes and 65,536 events, a journal any number of events.
A fault is the line `fault: WORD` on standard error; \
a line before it says what was expected and what was found.
Exit status: 0 success; 2 the command line or the input is wrong; \
3 reading or writing failed; 4 out of memory.
Example: trace_player run.trace";

// `--events`.
const EVENTS: OptionText = OptionText {
    name: "events",
    value: OptionValue::Nothing,
    presence: Presence::Optional,
    help: "End each line with its event, as the trace has it, after `; event `",
};

// `--from`.
const FROM: OptionText = OptionText {
    name: "from",
    value: OptionValue::Number("N", NumberRange::U32(1, u32::MAX)),
    presence: Presence::Optional,
    help: "Print the lines of the events from number N on, counted from 1",
};

// `--to`.
const TO: OptionText = OptionText {
    name: "to",
    value: OptionValue::Number("N", NumberRange::U32(1, u32::MAX)),
    presence: Presence::Optional,
    help: "Print the lines of the events up to number N; at least that of --from",
};

// `--changes`.
const CHANGES: OptionText = OptionText {
    name: "changes",
    value: OptionValue::Nothing,
    presence: Presence::Optional,
    help: "Print only lines in which the control state or the supply differs from the line before",
};

// `--format`.
const FORMAT: OptionText = OptionText {
    name: "format",
    value: OptionValue::Word("FORMAT", FORMATS),
    presence: Presence::Optional,
    help: "Print each event as a record: csv, comma-separated; json, one JSON object a line",
};

// `--partial`.
const PARTIAL: OptionText = OptionText {
    name: "partial",
    value: OptionValue::Nothing,
    presence: Presence::Optional,
    help: "Play a damaged trace up to its first wrong line",
};

// The options, in the order of the help.
static OPTIONS: [OptionText; 7] = [EVENTS, FROM, TO, CHANGES, FORMAT, PARTIAL, VERBOSE];

// Returns the operand FILE.
fn file<'a>(alloc: Global) -> Arg<'a> {
    Arg::new(alloc, "file")
        .value_name("FILE")
        .help("Trace to play; default or -: standard input")
        .action(ArgAction::Set)
}

// Returns the program without its options.
fn program<'a>(alloc: Global) -> Result<Command<'a>, AllocError> {
    let program = Command::new(alloc, "trace_player")
        .bin_name("trace_player")?
        .version("0.1.0")
        .about("Plays a trace and prints a line for each of its events")
        .after_help(LIMITS_AND_STATUSES);
    Ok(program)
}

// Returns the program with its operand and its options.
pub(crate) fn command_line<'a>(alloc: Global) -> Result<Command<'a>, AllocError> {
    let program = with_argument(program(alloc), file(alloc))?;
    with_options(alloc, program, &OPTIONS, true)
}
