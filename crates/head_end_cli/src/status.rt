//! The command `head_end status`: the state of the campaign of a ledger, or its jobs as records.
ghost use Rattle.std.specs.Prelude.{◌≡◌, map, IfOk, OnOk};
ghost use Rattle.clap.specs.Matches.{found_of};
ghost use Rattle.head_end_cli.specs.Ledgered.{HaveAnswers, PrintsStatus};
ghost use Rattle.ledger_reports.specs.Answers.{with_answer};

use crate::presence::present_ledger;
use crate::private_copy::{copy_ledger, is_read_only};
use clap::ArgMatches;
use head_end_commands::print_output;
use ledger_files::{LedgerPresence, read_answers_of, read_ledger};
use ledger_records::{LedgerFormat, ledger_text};
use ledger_reports::{LedgerLine, StateAnswer, enter_answers};
use program::Fault;
use sqlite_ledger::LedgerOpenFault;
use std::io::Write;

// Prints the ledger that the option `--ledger` names, with the answers in the file next to it, in
// the format of `--format`. If one of the files can't be read, writes a line on standard error.
// Errors: `Input` if one of them is something else; `Read` if the ledger is missing, or one of them
// can't be read or is open in another process; `Write`; `Memory`.
pub(crate) fn print_status<W: Write>(
    rt: &HostRuntime,
    matches: &ArgMatches<'_>,
    output: &mut W,
) -> Result<(), Fault>
    ensures { OnOk result (PrintsStatus (found_of matches.now) (W.contents output.old)
        (W.contents output.new)) }
{
    let format = LedgerFormat::named(matches.get_str("format"));
    match load_lines(rt, matches.get_str("ledger").unwrap_or("")) {
        Ok(lines) => {
            let text = ledger_text(rt.alloc(), format, lines.as_slice());
            drop(lines);
            match text {
                Ok(text) => print_output(rt, output, text.as_slice()),
                Err(_) => Err(Fault::Memory),
            }
        }
        Err(fault) => Err(fault),
    }
}

// Returns the lines of the ledger at a path, as `read_lines` does; an empty file, which no run has
// begun, has none. If one of the files can't be read, writes a line on standard error.
#[tactic(auto, using(crate::proofs::Entered::no_lines))]
fn load_lines(rt: &HostRuntime, path: &str) -> Result<Vec<LedgerLine>, Fault>
    ensures { IfOk result (λ lines. HaveAnswers lines.items) }
{
    match present_ledger(rt, path) {
        Ok(LedgerPresence::Empty) => Ok(Vec::new(rt.alloc())),
        Ok(_) if is_read_only(rt, path) => read_copied_lines(rt, path),
        Ok(_) => read_lines(rt, path),
        Err(fault) => Err(read_fault(fault)),
    }
}

// Returns the lines of a ledger that may only be read, as `read_lines` does: those of a copy, which
// is then removed. Nothing is written next to the ledger.
fn read_copied_lines(rt: &HostRuntime, path: &str) -> Result<Vec<LedgerLine>, Fault>
    ensures { IfOk result (λ lines. HaveAnswers lines.items) }
{
    match copy_ledger(rt, path) {
        Ok(copy) => {
            let lines = read_lines(rt, copy.path.as_str());
            drop(copy);
            lines
        }
        Err(error) => {
            let _ = eprintln!(rt; "{path}: the ledger may only be read, and not copied: {error}");
            Err(Fault::Read)
        }
    }
}

// Returns the lines of the ledger at a path, each with its answer in the file next to it. If one of
// the files can't be read, writes a line on standard error.
fn read_lines(rt: &HostRuntime, path: &str) -> Result<Vec<LedgerLine>, Fault>
    ensures { IfOk result (λ lines. HaveAnswers lines.items) }
{
    match read_ledger(rt, path) {
        Ok(lines) => match load_answers(rt, path) {
            Ok(answers) => {
                let lines = enter(lines, answers.as_slice());
                drop(answers);
                Ok(lines)
            }
            Err(fault) => {
                drop(lines);
                Err(fault)
            }
        },
        Err(fault) => {
            let _ = eprintln!(rt; "ledger: {fault}");
            Err(read_fault(fault))
        }
    }
}

// Returns the lines with their answers.
fn enter(lines: Vec<LedgerLine>, answers: &[StateAnswer]) -> Vec<LedgerLine>
    ensures { result.items ≡ map (with_answer answers.now) lines.items }
{
    let mut lines = lines;
    enter_answers(lines.as_mut_slice(), answers);
    lines
}

// Returns the answers in the file next to the ledger at a path. If it can't be read, writes a line
// on standard error. Errors: `Input` if it is something else; `Read` if it can't be read or is open
// in another process; `Memory`.
pub(crate) fn load_answers(rt: &HostRuntime, path: &str) -> Result<Vec<StateAnswer>, Fault> {
    match read_answers_of(rt, path) {
        Ok(answers) => Ok(answers),
        Err(fault) => {
            let _ = eprintln!(rt; "answers: {fault}");
            Err(read_fault(fault))
        }
    }
}

// Returns the program's fault if a ledger, or the file of answers next to it, is not read.
pub(crate) fn read_fault(fault: LedgerOpenFault) -> Fault {
    match fault {
        LedgerOpenFault::NotALedger | LedgerOpenFault::OtherList | LedgerOpenFault::Answers => {
            Fault::Input
        }
        LedgerOpenFault::Busy | LedgerOpenFault::File => Fault::Read,
        LedgerOpenFault::Memory => Fault::Memory,
    }
}
