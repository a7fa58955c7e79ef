//! The end of `serve`: prints the trace, and decides which fault is reported.
ghost use Rattle.std.specs.Prelude.{◌≡◌, false, true, Ok, Err, OnOk};
ghost use Rattle.program.specs.Ends.{first_of};
ghost use Rattle.meter_server_cli.specs.Endings.{HasEnded, Prints, end_of_console};

use cosem_axdr::Octets;
use meter_console::ConsoleEnd;
use meter_server::{ServeFault, Served};
use program::{Fault, first_fault, print_text};
use std::io::Write;

// Returns the fault of a run, by the result of its connections and whether the listener failed.
// `ServeFault::Listen` is a fault only if the listener failed; else the server itself stopped it,
// because standard input had ended.
pub(crate) fn run_fault(served: Result<Served, ServeFault>, has_failed: bool) -> Result<(), Fault>
    ensures has_ended { OnOk result (HasEnded served) }
    ensures served { OnOk served (result ≡ Ok tt) }
    ensures ended { served ≡ Err ServeFault.Listen → has_failed ≡ false → result ≡ Ok tt }
    ensures listen { served ≡ Err ServeFault.Listen → has_failed ≡ true
        → result ≡ Err Fault.Listen }
    ensures memory { served ≡ Err ServeFault.Memory → result ≡ Err Fault.Memory }
    ensures turns { served ≡ Err ServeFault.Exhausted → result ≡ Err Fault.Turns }
    ensures read { served ≡ Err ServeFault.Read → result ≡ Err Fault.Read }
    ensures write { served ≡ Err ServeFault.Write → result ≡ Err Fault.Write }
    ensures journal { served ≡ Err ServeFault.Journal → result ≡ Err Fault.Write }
{
    match served {
        Ok(_) => Ok(()),
        Err(ServeFault::Listen) => {
            if has_failed {
                Err(Fault::Listen)
            } else {
                Ok(())
            }
        }
        Err(ServeFault::Memory) => Err(Fault::Memory),
        Err(ServeFault::Exhausted) => Err(Fault::Turns),
        Err(ServeFault::Read) => Err(Fault::Read),
        Err(ServeFault::Write | ServeFault::Journal) => Err(Fault::Write),
    }
}

// Returns the fault of the console, if its end is known: `Memory` if lines were lost, else `Read`
// if a read failed.
fn console_fault(end: Option<ConsoleEnd>) -> Result<(), Fault>
    ensures { result ≡ end_of_console end }
{
    match end {
        Some(end) if end.lost() > 0 => Err(Fault::Memory),
        Some(end) if end.has_failed() => Err(Fault::Read),
        _ => Ok(()),
    }
}

// The results of the parts of `serve`.
#[derive(Drop)]
pub(crate) struct Ends {
    // The result of serving clients.
    pub(crate) served: Result<(), Fault>,
    // The result of the journal, `Ok` if there is none.
    pub(crate) journal: Result<(), Fault>,
    // The end of the console, if its thread was waited for.
    pub(crate) console: Option<ConsoleEnd>,
    // The result of printing the trace.
    pub(crate) printed: Result<(), Fault>,
}

impl Ends {
    // Returns the first fault: that of serving, then that of the journal, then that of the console,
    // then that of printing.
    pub(crate) fn first_fault(self) -> Result<(), Fault>
        ensures { result ≡ first_of self.served
            (first_of self.journal (first_of (end_of_console self.console) self.printed)) }
    {
        let later = first_fault(console_fault(self.console), self.printed);
        first_fault(self.served, first_fault(self.journal, later))
    }
}

// Prints the text of a trace, if there is one.
pub(crate) fn print_trace<W: Write>(
    output: &mut W,
    trace: Result<Octets, Fault>,
) -> Result<(), Fault>
    ensures { Prints trace (W.contents output.old) result (W.contents output.new) }
{
    match trace {
        Ok(text) => print_text(output, text.as_slice()),
        Err(fault) => Err(fault),
    }
}
