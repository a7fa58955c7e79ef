//! The options of the commands.
use program::options::{
    FORMATS, NumberRange, OptionText, OptionValue, PASSWORD, PASSWORD_FILE, Presence, VERBOSE,
};

// `--passwords`.
const PASSWORDS: OptionText = OptionText {
    name: "passwords",
    value: OptionValue::Text("FILE"),
    presence: Presence::Optional,
    help: "File of lines `NAME PASSWORD`; only its owner may have access to it",
};

// `--workers`.
const WORKERS: OptionText = OptionText {
    name: "workers",
    value: OptionValue::Number("N", NumberRange::U8(1, 16)),
    presence: Presence::Default("4"),
    help: "Number of meters to contact in parallel, 1 to 16",
};

// `--timeout`.
const TIMEOUT: OptionText = OptionText {
    name: "timeout",
    value: OptionValue::Number("SECONDS", NumberRange::U32(0, u32::MAX)),
    presence: Presence::Default("60"),
    help: "Time limit for an open connection; 0 means no limit",
};

// `--connect-timeout`.
const CONNECT_TIMEOUT: OptionText = OptionText {
    name: "connect-timeout",
    value: OptionValue::Number("SECONDS", NumberRange::U32(0, u32::MAX)),
    presence: Presence::Default("10"),
    help: "Time limit for connecting to a meter; 0 means no limit",
};

// `--progress`.
const PROGRESS: OptionText = OptionText {
    name: "progress",
    value: OptionValue::Nothing,
    presence: Presence::Optional,
    help: "Report progress on standard error; default if that is a terminal",
};

// `--ledger` of `run`.
const LEDGER: OptionText = OptionText {
    name: "ledger",
    value: OptionValue::Text("FILE"),
    presence: Presence::Optional,
    help: "Ledger of the campaign; run the list again with it, and no command is sent twice",
};

// `--ledger` of `ask`.
const LEDGER_TO_ASK_BY: OptionText = OptionText {
    name: "ledger",
    value: OptionValue::Text("FILE"),
    presence: Presence::Required,
    help: "Ledger of the campaign, which no run has open; answers are added to FILE.answers",
};

// `--ledger` of `status`.
const LEDGER_TO_READ: OptionText = OptionText {
    name: "ledger",
    value: OptionValue::Text("FILE"),
    presence: Presence::Required,
    help: "Ledger of the campaign, which no run has open; nothing in it is changed",
};

// `--format` of `status`.
const FORMAT: OptionText = OptionText {
    name: "format",
    value: OptionValue::Word("FORMAT", FORMATS),
    presence: Presence::Optional,
    help: "Print each job as a record: csv, comma-separated; json, one JSON object a line",
};

// `--verbose` of `check`.
const VERBOSE_FINDINGS: OptionText = OptionText {
    name: "verbose",
    value: OptionValue::Nothing,
    presence: Presence::Optional,
    help: "If the list is wrong, report all findings on standard error",
};

// The options of `run`, in the order of its help.
pub(crate) static RUN: [OptionText; 9] = [
    PASSWORD,
    PASSWORD_FILE,
    PASSWORDS,
    WORKERS,
    TIMEOUT,
    CONNECT_TIMEOUT,
    LEDGER,
    PROGRESS,
    VERBOSE,
];

// The options of `ask`, in the order of its help.
pub(crate) static ASK: [OptionText; 9] = [
    LEDGER_TO_ASK_BY,
    PASSWORD,
    PASSWORD_FILE,
    PASSWORDS,
    WORKERS,
    TIMEOUT,
    CONNECT_TIMEOUT,
    PROGRESS,
    VERBOSE,
];

// The options of `check`.
pub(crate) static CHECK: [OptionText; 1] = [VERBOSE_FINDINGS];

// The options of `status`, in the order of its help.
pub(crate) static STATUS: [OptionText; 2] = [LEDGER_TO_READ, FORMAT];
