//! The command line and its help.
ghost use Rattle.std.specs.Prelude.{◌≡◌, [], codes, true, IfOk};
ghost use Rattle.server_commands.specs.CommandLine.{IsCommandLine, IsCommandOf, defaults_of};
ghost use Rattle.server_commands.specs.CommandLine.{hex_defaults, serve_defaults};

use clap::Command;
use program::options::{
    NumberRange, OptionText, OptionValue, PASSWORD, PASSWORD_FILE, Presence, VERBOSE, with_options,
};
use program::with_subcommand;
use std::alloc::{AllocError, Global};

// The end of the text of `--help`.
const LIMITS_AND_STATUSES: &str = "\
Limits: apdu and hex read at most 1,048,576 bytes; \
serve has at most eight sessions at a time and closes a ninth connection.
A fault is the line `fault: WORD` on standard error; \
a line before it says what was expected and what was found.
Exit status: 0 success; 2 the command line or the input is wrong; \
3 reading, writing or listening failed; 4 out of memory, or the lock has no turn left.
Example: echo C001C10046000060030AFF0300 | meter_server apdu";

// The end of the text of `serve --help`: the lines that standard input may have.
const CONSOLE: &str = "\
Lines of standard input; any other line is skipped:
  button                  press the button of the meter
  samples WATTS ..        at most 256 samples of imported power, ten a second
  pairs WATTS WATTS ..    at most 256 pairs of imported and exported power, ten a second
  moment SECONDS          set the clock to this many seconds after 2000-01-01 00:00:00";

// `--device`.
const DEVICE: OptionText = OptionText {
    name: "device",
    value: OptionValue::Text("TEXT"),
    presence: Presence::Default("RELAY1"),
    help: "Name of the meter, 1 to 16 bytes",
};

// `--listen`.
const LISTEN: OptionText = OptionText {
    name: "listen",
    value: OptionValue::Text("ADDRESS"),
    presence: Presence::Default("127.0.0.1:4059"),
    help: "Address to listen on, HOST:PORT",
};

// `--journal`.
const JOURNAL: OptionText = OptionText {
    name: "journal",
    value: OptionValue::Text("FILE"),
    presence: Presence::Optional,
    help: "Journal: events are on disk before they are answered; the meter resumes from FILE",
};

// `--relay`.
const RELAY: OptionText = OptionText {
    name: "relay",
    value: OptionValue::Text("FILE"),
    presence: Presence::Optional,
    help: "Write the supply output to FILE at the start and at each change: 1 or 0, a line each",
};

// `--depth`.
const DEPTH: OptionText = OptionText {
    name: "depth",
    value: OptionValue::Number("N", NumberRange::U16(1, 1024)),
    presence: Presence::Default("256"),
    help: "Number of events that the trace keeps, the latest ones, 1 to 1024",
};

// `--journal-limit`.
const JOURNAL_LIMIT: OptionText = OptionText {
    name: "journal-limit",
    value: OptionValue::Number("BYTES", NumberRange::U32(4096, 16777216)),
    presence: Presence::Default("1048576"),
    help: "Number of bytes after which the journal is renewed, 4096 to 16777216",
};

// `--keep-journals`.
const KEEP_JOURNALS: OptionText = OptionText {
    name: "keep-journals",
    value: OptionValue::Number("N", NumberRange::U16(0, 99)),
    presence: Presence::Default("0"),
    help: "Number of journals before a renewal to keep, as FILE.1, FILE.2 and so on, 0 to 99",
};

// `--connections`.
const CONNECTIONS: OptionText = OptionText {
    name: "connections",
    value: OptionValue::Number("N", NumberRange::U64),
    presence: Presence::Default("0"),
    help: "Number of connections to accept; 0 means no limit",
};

// `--inactivity`.
const INACTIVITY: OptionText = OptionText {
    name: "inactivity",
    value: OptionValue::Number("SECONDS", NumberRange::U32(0, u32::MAX)),
    presence: Presence::Default("180"),
    help: "Time limit for each read or write of a client, else its session ends; 0 means no limit",
};

// `--session`.
const SESSION: OptionText = OptionText {
    name: "session",
    value: OptionValue::Number("SECONDS", NumberRange::U32(0, u32::MAX)),
    presence: Presence::Default("3600"),
    help: "Time limit for a client's session; 0 means no limit",
};

// `--stop-with-input`.
const STOP_WITH_INPUT: OptionText = OptionText {
    name: "stop-with-input",
    value: OptionValue::Nothing,
    presence: Presence::Optional,
    help: "Accept no more connections once standard input has ended",
};

// `--resume`.
const RESUME: OptionText = OptionText {
    name: "resume",
    value: OptionValue::Nothing,
    presence: Presence::Optional,
    help: "Resume from the trace at the head of standard input",
};

// `--accept-clock-step`.
const ACCEPT_CLOCK_STEP: OptionText = OptionText {
    name: "accept-clock-step",
    value: OptionValue::Nothing,
    presence: Presence::Optional,
    help: "Let moments pass that are more than a day ahead of the last one or of this machine",
};

// `--group-readable`.
const GROUP_READABLE: OptionText = OptionText {
    name: "group-readable",
    value: OptionValue::Nothing,
    presence: Presence::Optional,
    help: "Let the group read the journal and the relay's file that are made (mode 0640)",
};

// `--verbose` of `serve`.
const VERBOSE_SESSIONS: OptionText = OptionText {
    name: "verbose",
    value: OptionValue::Nothing,
    presence: Presence::Optional,
    help: "Report connections and how sessions end on standard error",
};

// The options of `apdu`.
static APDU: [OptionText; 1] = [VERBOSE];

// The options of `hex`, in the order of its help.
static HEX: [OptionText; 4] = [PASSWORD, PASSWORD_FILE, DEVICE, VERBOSE];

// The options of `serve`, in the order of its help.
static SERVE: [OptionText; 17] = [
    PASSWORD,
    PASSWORD_FILE,
    DEVICE,
    LISTEN,
    JOURNAL,
    RELAY,
    DEPTH,
    JOURNAL_LIMIT,
    KEEP_JOURNALS,
    CONNECTIONS,
    INACTIVITY,
    SESSION,
    STOP_WITH_INPUT,
    RESUME,
    ACCEPT_CLOCK_STEP,
    GROUP_READABLE,
    VERBOSE_SESSIONS,
];

// Returns the options of `apdu`.
fn table_of_apdu() -> &'static [OptionText]
    ensures { defaults_of result.now ≡ [] }
{
    &APDU
}

// Returns the options of `hex`.
fn table_of_hex() -> &'static [OptionText]
    ensures { defaults_of result.now ≡ hex_defaults }
{
    &HEX
}

// Returns the options of `serve`.
fn table_of_serve() -> &'static [OptionText]
    ensures { defaults_of result.now ≡ serve_defaults }
{
    &SERVE
}

// Returns the command `apdu`.
fn apdu<'a>(alloc: Global) -> Result<Command<'a>, AllocError>
    ensures { IfOk result (IsCommandOf true (codes "apdu") []) }
{
    let command = Command::new(alloc, "apdu").about(
        "Answers the xDLMS requests on standard input: a line each, in hexadecimal",
    );
    with_options(alloc, command, table_of_apdu(), true)
}

// Returns the command `hex`. Its option `--password` is required unless `has_password`.
fn hex<'a>(alloc: Global, has_password: bool) -> Result<Command<'a>, AllocError>
    ensures { IfOk result (IsCommandOf has_password (codes "hex") hex_defaults) }
{
    let command = Command::new(alloc, "hex").about(
        "Serves one client: standard input is its stream in hexadecimal; each frame sent is a line",
    );
    with_options(alloc, command, table_of_hex(), has_password)
}

// Returns the command `serve`. Its option `--password` is required unless `has_password`.
fn serve<'a>(alloc: Global, has_password: bool) -> Result<Command<'a>, AllocError>
    ensures { IfOk result (IsCommandOf has_password (codes "serve") serve_defaults) }
{
    let command = Command::new(alloc, "serve")
        .about("Serves clients over TCP and prints the trace of the meter when it ends")
        .after_help(CONSOLE);
    with_options(alloc, command, table_of_serve(), has_password)
}

// Returns the program's command without its subcommands.
fn program<'a>(alloc: Global) -> Result<Command<'a>, AllocError> {
    let program = Command::new(alloc, "meter_server")
        .bin_name("meter_server")?
        .version("0.1.0")
        .about("Supply control of a DLMS/COSEM electricity meter")
        .after_help(LIMITS_AND_STATUSES)
        .subcommand_required(true);
    Ok(program)
}

// Returns the program's command with its subcommands. `has_password`: the password of `serve` and
// `hex` is in the environment or in a file that the command line names.
pub(crate) fn command_line<'a>(alloc: Global, has_password: bool) -> Result<Command<'a>, AllocError>
    ensures { IfOk result (IsCommandLine has_password) }
{
    let program = with_subcommand(program(alloc), apdu(alloc));
    let program = with_subcommand(program, hex(alloc, has_password));
    with_subcommand(program, serve(alloc, has_password))
}
