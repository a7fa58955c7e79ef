//! A journal that is renewed by a save, as the worker of a journal calls it.
ghost use Rattle.std.specs.Prelude.{IfOk};
ghost use Rattle.durable_lines.specs.Lines.{IsReady};

use crate::meters::asked_port;
use durable_lines::{DurableFile, FileFault, MemoryPlace, recover};
use journal_files::{RenewalTerms, RenewedFile};
use meter_journal::save;
use std::alloc::Global;
use std::test::Fail;

/// The journal of a new meter with the name RELAY1, written by hand as docs/TRACE.md has it.
static BEGUN: &[u8] = b"RELAYTRACE 2\ndevice 52454C415931\nstate 1\nmode 0\nvalue 0\nnow -\n\
normal 4294967295\nemergency 4294967295\nminover 0\nminunder 0\n\
profile 0 FFFFFFFFFFFFFFFFFF8000FF 0\ngroups\nactions 0 0\nover 0 0\nunder 0 0\nxvalue 0\n\
xnormal 4294967295\nxemergency 4294967295\nxminover 0\nxminunder 0\n\
xprofile 0 FFFFFFFFFFFFFFFFFF8000FF 0\nxgroups\nxactions 0 0\nxover 0 0\nxunder 0 0\n\
scripts 0100\nschedule 0 0 5 0100\nschedule 1 0 5 0100\nschedule 2 0 5 0100\n\
schedule 3 0 5 0100\nevents -\n";

/// The head of the renewed journal: the press has opened the switch, which was in mode 1 then.
static RENEWED: &[u8] = b"RELAYTRACE 2\ndevice 52454C415931\nstate 2\nmode 1\n";

/// Returns the file of a journal that is renewed by each save, and then has the last event.
fn make_renewed_file(alloc: Global) -> Result<RenewedFile<MemoryPlace>, FileFault>
    ensures { IfOk result (IsReady ⟦<RenewedFile<MemoryPlace> as DurableFile>⟧.model) }
{
    let place = MemoryPlace::new(alloc, BEGUN.to_vec(alloc)?);
    let terms = RenewalTerms {
        limit: 16,
        depth: 1,
    };
    let mut file = RenewedFile::new(alloc, place, terms);
    recover(alloc, &mut file)?;
    Ok(file)
}

#[test]
fn a_save_renews_a_journal_that_has_grown(rt: HostRuntime) -> Result<(), Fail> {
    let alloc = rt.alloc();
    let mut file = make_renewed_file(alloc)?;
    let mut port = asked_port(&rt, alloc)?.ok_or("an event got no reply")?;
    let saved = save(&rt, alloc, &mut port, &mut file, 0, Vec::new(alloc));
    drop(port);
    assert!(rt; saved?.count == 3);
    let text = file.place().bytes()?;
    let left = file.place().after_crash(file.place().moment(), false, &[])?;
    assert!(rt; text.as_slice().starts_with(RENEWED));
    assert!(rt; text.as_slice().ends_with(b"\nevents -\nmoment 5\n"));
    assert!(rt; left.as_slice() == text.as_slice());
    Ok(())
}
