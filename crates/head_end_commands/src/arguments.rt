//! The commands, their help and the command line of the program.
use crate::options::{ASK, CHECK, RUN, STATUS};
use clap::Command;
use program::options::with_options;
use program::with_subcommand;
use std::alloc::{AllocError, Global};

// The end of `--help`.
static LIMITS_AND_STATUSES: &str = "\
Limits: a list has at most 1,000 jobs and 1,048,576 bytes.
A fault is the line `fault: WORD` on standard error; \
a line before it says what was expected and what was found.
Exit status: 0 success, whatever the rows of the report say; \
2 the command line or the input is wrong; 3 reading or writing failed; 4 out of memory.
Example: echo m1 127.0.0.1:4059 state | head_end check";

// The end of `run --help`: the rows of the report.
static REPORT: &str = "\
Rows of the report, one for each job:
  NAME done N        success: N is 0, or the control state (0 disconnected, 1 connected, \
2 ready for reconnection)
  NAME refused N     the meter answered the request with result N of IEC 62056-5-3
  NAME rejected N    the meter opened no association, so no request was sent; \
N is the diagnostic of its AARE
  NAME unknown       no valid answer came; the meter may have carried out the request
  NAME memory        out of memory; the request may have been sent";

// The end of `ask --help`: the rows of the report.
static ANSWERS: &str = "\
Rows of the report, one for each meter that was asked:
  NAME done N        the control state (0 disconnected, 1 connected, 2 ready for reconnection)
  NAME refused N     the meter answered the question with result N of IEC 62056-5-3
  NAME rejected N    the meter opened no association, so it was not asked; \
N is the diagnostic of its AARE
  NAME unknown       no valid answer came
  NAME memory        out of memory";

// Returns the usage of `run`, whose option `--password` is required unless `has_password`.
fn usage_of_run(has_password: bool) -> &'static str {
    if has_password {
        "head_end run [OPTIONS] < FILE"
    } else {
        "head_end run [OPTIONS] --password <TEXT> < FILE"
    }
}

// Returns the command `run`. Its option `--password` is required unless `has_password`.
fn run_command<'a>(alloc: Global, has_password: bool) -> Result<Command<'a>, AllocError> {
    let command = Command::new(alloc, "run")
        .about("Runs the jobs on standard input and prints a report: a row for each job, in order")
        .override_usage(usage_of_run(has_password))
        .after_help(REPORT);
    with_options(alloc, command, &RUN, has_password)
}

// Returns the command `ask`. Its option `--password` is required unless `has_password`.
fn ask_command<'a>(alloc: Global, has_password: bool) -> Result<Command<'a>, AllocError> {
    let command = Command::new(alloc, "ask")
        .about(
            "Asks for the states of the meters whose command may have been sent and that gave no \
            valid answer, and stores the answers",
        )
        .after_help(ANSWERS);
    with_options(alloc, command, &ASK, has_password)
}

// Returns the command `check`.
fn check_command<'a>(alloc: Global) -> Result<Command<'a>, AllocError> {
    let command = Command::new(alloc, "check")
        .about(
            "Counts the jobs on standard input: NAME ADDRESS VERB (disconnect, reconnect or state)",
        )
        .override_usage("head_end check [OPTIONS] < FILE");
    with_options(alloc, command, &CHECK, true)
}

// Returns the command `status`.
fn status_command<'a>(alloc: Global) -> Result<Command<'a>, AllocError> {
    let command = Command::new(alloc, "status").about(
        "Prints the state of a ledger's campaign, and the jobs that need a second look",
    );
    with_options(alloc, command, &STATUS, true)
}

// Returns the program without its commands.
fn program<'a>(alloc: Global) -> Result<Command<'a>, AllocError> {
    Command::new(alloc, "head_end")
        .version("0.1.0")
        .about("Runs switching campaigns over DLMS/COSEM electricity meters")
        .after_help(LIMITS_AND_STATUSES)
        .subcommand_required(true)
        .bin_name("head_end")
}

/// Returns the program with its commands. `has_password` says whether the password of `run` and of
/// `ask` is in the environment or in a file that the command line names.
pub fn command_line<'a>(alloc: Global, has_password: bool) -> Result<Command<'a>, AllocError> {
    let program = with_subcommand(program(alloc), check_command(alloc));
    let program = with_subcommand(program, run_command(alloc, has_password));
    let program = with_subcommand(program, status_command(alloc));
    with_subcommand(program, ask_command(alloc, has_password))
}
