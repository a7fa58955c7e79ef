//! `check`, and the list of jobs on standard input.
ghost use Rattle.std.specs.Prelude.{◌≡◌, true, IfErr, IfOk, OnOk};
ghost use Rattle.program.specs.Passwords.{is_of_files};
ghost use Rattle.head_end_commands.specs.Counted.{PrintsCount};
ghost use Rattle.head_end_commands.specs.Faults.{jobs_fault};
ghost use Rattle.head_end_commands.specs.Lists.{AreJobsOf, HasNoList, IsTextOf};

use crate::findings::report_findings;
use crate::messages::{ListFault, input_fault, jobs_fault};
use crate::printing::print_output;
use crate::warnings::warn;
use counted_io::{Counted, read_to_end_within};
use head_end::{Jobs, JobsFault, count_jobs, read_jobs};
use program::Fault;
use std::io::{Read, Write};

// The maximum number of bytes of a list of jobs.
const MAX_INPUT: usize = 1_048_576;

// Reads the whole text of an input. On an error, writes a line on standard error that says where
// and why.
#[tactic(auto, using(crate::proofs::Inputs::whole_text, crate::proofs::Inputs::too_long, crate::proofs::Inputs::input_kind))]
fn text_of<I: Read + Drop>(rt: &HostRuntime, input: I) -> Result<Vec<u8>, Fault>
    ensures text { IfOk result (λ text. IsTextOf (I.remaining input) text.items) }
    ensures err { IfErr result (λ fault. fault ≡ Fault.Input → HasNoList (I.remaining input)) }
    ensures kind { IfErr result (λ fault. is_of_files fault ≡ true) }
{
    let mut reader = Counted::new(input);
    match read_to_end_within(rt.alloc(), &mut reader, MAX_INPUT) {
        Ok(text) => Ok(text),
        Err(fault) => {
            let _ = eprintln!(rt; "{}", ListFault::from_input(fault));
            Err(input_fault(fault))
        }
    }
}

// Returns the fault of a text that is not a list of jobs, and writes a line on standard error that
// says where and why.
fn report_list_fault(rt: &HostRuntime, text: &[u8], fault: JobsFault) -> Fault
    ensures { result ≡ jobs_fault fault }
{
    let _ = eprintln!(rt; "{}", ListFault::from_jobs(text, fault));
    jobs_fault(fault)
}

// Reads the jobs of the list in an input, and writes the warnings about them. Errors: `Input` if it
// is no list of jobs, `Read`, `Memory`.
#[tactic(auto, using(crate::proofs::Inputs::no_list, crate::proofs::Inputs::jobs_kind))]
pub(crate) fn load_jobs<I: Read + Drop>(rt: &HostRuntime, input: I) -> Result<Jobs, Fault>
    ensures jobs { IfOk result (AreJobsOf (I.remaining input)) }
    ensures err { IfErr result (λ fault. fault ≡ Fault.Input → HasNoList (I.remaining input)) }
    ensures kind { IfErr result (λ fault. is_of_files fault ≡ true) }
{
    let text = text_of(rt, input)?;
    match read_jobs(rt.alloc(), text.as_slice()) {
        Ok(jobs) => {
            warn(rt, text.as_slice(), &jobs);
            Ok(jobs)
        }
        Err(fault) => Err(report_list_fault(rt, text.as_slice(), fault)),
    }
}

// Writes the warnings about the jobs of a text, if it is a list of jobs.
fn warn_of_text(rt: &HostRuntime, text: &[u8]) {
    if let Ok(jobs) = read_jobs(rt.alloc(), text) {
        warn(rt, text, &jobs);
        drop(jobs);
    }
}

// Returns the fault of a text that `check` read and that is not a list of jobs. Writes a line on
// standard error or, if `is_verbose`, all findings in its lines.
fn report_check_fault(rt: &HostRuntime, text: &[u8], fault: JobsFault, is_verbose: bool) -> Fault
    ensures { result ≡ jobs_fault fault }
{
    if is_verbose && matches!(fault, JobsFault::Line(_)) {
        report_findings(rt, text);
        return jobs_fault(fault);
    }
    report_list_fault(rt, text, fault)
}

/// Runs `check`: prints the number of jobs of the list in an input, and writes the warnings about
/// them on standard error. If `is_verbose`, a list that is wrong has all its findings reported
/// there.
/// Errors: `Input` if it is no list of jobs, `Read`, `Write`, `Memory`.
#[tactic(auto, using(crate::proofs::Inputs::no_list))]
pub fn check<I: Read + Drop, W: Write>(
    rt: &HostRuntime,
    input: I,
    is_verbose: bool,
    output: &mut W,
) -> Result<(), Fault>
    ensures printed { OnOk result (PrintsCount (I.remaining input) (W.contents output.old)
        (W.contents output.new)) }
    ensures err { IfErr result (λ fault. fault ≡ Fault.Input → HasNoList (I.remaining input)) }
{
    let text = text_of(rt, input)?;
    warn_of_text(rt, text.as_slice());
    match count_jobs(rt.alloc(), text.as_slice()) {
        Ok(line) => print_output(rt, output, line.as_slice()),
        Err(fault) => Err(report_check_fault(rt, text.as_slice(), fault, is_verbose)),
    }
}
