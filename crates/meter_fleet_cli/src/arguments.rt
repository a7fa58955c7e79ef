//! The command line and its help.
use clap::Command;
use program::options::{
    NumberRange, OptionText, OptionValue, PASSWORD, PASSWORD_FILE, Presence, with_options,
};
use program::with_subcommand;
use std::alloc::{AllocError, Global};

// The end of `--help`.
const STATUSES: &str = "\
A fault is the line `fault: WORD` on standard error; \
a line before it says what was expected and what was found.
Exit status: 2 the command line or the trace is wrong; 3 reading or listening failed; \
4 out of memory.
Example: meter_fleet serve --meters 1000 --password 12345678 --mode 1 --listen 0.0.0.0";

// The end of `serve --help`: the meters, their faults, and the lines that standard input may have.
const ADDRESSES: &str = "\
The address that a client names is its meter: 127.0.0.1 is meter 1, 127.0.1.0 is meter 256. \
A connection to any other address, or to a meter that the fleet does not have, is closed at once. \
So is the ninth connection to one meter.
Faults, each in every connection of a meter that has it, at most 100 percent together:
  silent          the client receives no byte; its requests are carried out
  slow            every answer is sent 2 seconds after the last bytes of the client
  vanishes        only half of the second frame is sent, then the connection is closed
  closes          the connection is closed before a byte is sent
  wrong-password  the first byte of the meter's password is another
  refuses         the meter starts in control mode 0; not with --resume
Lines of standard input, where METERS is N, N-M or all:
  METERS button                 press the buttons of these meters
  METERS samples WATTS ..       at most 256 samples of imported power, ten a second
  METERS pairs WATTS WATTS ..   at most 256 pairs of imported and exported power, ten a second
  METERS moment SECONDS         set the clocks to this many seconds after 2000-01-01 00:00:00
  METERS state                  show the control states
  N trace FILE                  write the trace of meter N to FILE
  count STATE                   count the meters that are disconnected, connected or ready";

// `--meters`.
const METERS: OptionText = OptionText {
    name: "meters",
    value: OptionValue::Number("N", NumberRange::U32(1, 16_777_215)),
    presence: Presence::Required,
    help: "Number of meters, 1 to 16777215",
};

// `--listen`.
const LISTEN: OptionText = OptionText {
    name: "listen",
    value: OptionValue::Text("ADDRESS"),
    presence: Presence::Default("127.0.0.1"),
    help: "Address to listen on; 0.0.0.0 reaches every meter",
};

// `--port`.
const PORT: OptionText = OptionText {
    name: "port",
    value: OptionValue::Number("N", NumberRange::U16(0, u16::MAX)),
    presence: Presence::Default("4059"),
    help: "Port of every meter",
};

// `--mode`.
const MODE: OptionText = OptionText {
    name: "mode",
    value: OptionValue::Number("N", NumberRange::U8(0, 6)),
    presence: Presence::Default("0"),
    help: "Control mode of a new meter, 0 to 6 (class 70, attribute 4)",
};

// `--depth`.
const DEPTH: OptionText = OptionText {
    name: "depth",
    value: OptionValue::Number("N", NumberRange::U16(1, 1024)),
    presence: Presence::Default("1"),
    help: "Number of events that each meter keeps, the latest ones, 1 to 1024",
};

// `--resume`.
const RESUME: OptionText = OptionText {
    name: "resume",
    value: OptionValue::Text("FILE"),
    presence: Presence::Optional,
    help: "Each meter resumes from the trace in FILE; --mode is not used",
};

// `--inactivity`.
const INACTIVITY: OptionText = OptionText {
    name: "inactivity",
    value: OptionValue::Number("SECONDS", NumberRange::U32(0, u32::MAX)),
    presence: Presence::Default("180"),
    help: "Close a connection that is idle for this time, 0 to 4294967295; 0: never",
};

// `--session`.
const SESSION: OptionText = OptionText {
    name: "session",
    value: OptionValue::Number("SECONDS", NumberRange::U32(0, u32::MAX)),
    presence: Presence::Default("3600"),
    help: "Close a connection that lasts longer, 0 to 4294967295; 0: never",
};

// `--fault`.
const FAULT: OptionText = OptionText {
    name: "fault",
    value: OptionValue::Texts("NAME=PERCENT"),
    presence: Presence::Optional,
    help: "Inject this fault into this share of the meters; may be given for each fault",
};

// `--seed`.
const SEED: OptionText = OptionText {
    name: "seed",
    value: OptionValue::Number("N", NumberRange::U32(0, u32::MAX)),
    presence: Presence::Default("0"),
    help: "Seed that chooses the meters that have a fault, 0 to 4294967295",
};

// `--verbose`.
const VERBOSE: OptionText = OptionText {
    name: "verbose",
    value: OptionValue::Nothing,
    presence: Presence::Optional,
    help: "Report the address on standard error",
};

// The options of `serve`, in the order of its help.
static SERVE: [OptionText; 13] = [
    METERS,
    PASSWORD,
    PASSWORD_FILE,
    LISTEN,
    PORT,
    MODE,
    DEPTH,
    RESUME,
    INACTIVITY,
    SESSION,
    FAULT,
    SEED,
    VERBOSE,
];

// Returns the command `serve`. A missing password is reported once the command line is parsed.
fn serve_command<'a>(alloc: Global) -> Result<Command<'a>, AllocError> {
    let command = Command::new(alloc, "serve")
        .about("Serves the clients of many meters, each at its own loopback address")
        .after_help(ADDRESSES);
    with_options(alloc, command, &SERVE, true)
}

// Returns the program without its command.
fn program<'a>(alloc: Global) -> Result<Command<'a>, AllocError> {
    let program = Command::new(alloc, "meter_fleet")
        .bin_name("meter_fleet")?
        .version("0.1.0")
        .about("Many DLMS/COSEM supply meters in one process, for tests of head ends")
        .after_help(STATUSES)
        .subcommand_required(true);
    Ok(program)
}

// Returns the command line of the program.
pub(crate) fn command_line<'a>(alloc: Global) -> Result<Command<'a>, AllocError> {
    with_subcommand(program(alloc), serve_command(alloc))
}
