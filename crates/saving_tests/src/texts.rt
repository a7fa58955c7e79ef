//! The texts of journals, written by hand as docs/TRACE.md has them.
use std::alloc::{AllocError, Global};

/// The journal of a new meter with the name METER7.
pub(crate) static BEGUN: &[u8] =
    b"RELAYTRACE 2\ndevice 4D4554455237\nstate 1\nmode 0\nvalue 0\nnow -\n\
normal 4294967295\nemergency 4294967295\nminover 0\nminunder 0\n\
profile 0 FFFFFFFFFFFFFFFFFF8000FF 0\ngroups\nactions 0 0\nover 0 0\nunder 0 0\nxvalue 0\n\
xnormal 4294967295\nxemergency 4294967295\nxminover 0\nxminunder 0\n\
xprofile 0 FFFFFFFFFFFFFFFFFF8000FF 0\nxgroups\nxactions 0 0\nxover 0 0\nxunder 0 0\n\
scripts 0100\nschedule 0 0 5 0100\nschedule 1 0 5 0100\nschedule 2 0 5 0100\n\
schedule 3 0 5 0100\nevents -\n";

/// The journal that begins when this meter is in mode 1 and disconnected.
pub(crate) static DISCONNECTED: &[u8] =
    b"RELAYTRACE 2\ndevice 4D4554455237\nstate 0\nmode 1\nvalue 0\nnow -\n\
normal 4294967295\nemergency 4294967295\nminover 0\nminunder 0\n\
profile 0 FFFFFFFFFFFFFFFFFF8000FF 0\ngroups\nactions 0 0\nover 0 0\nunder 0 0\nxvalue 0\n\
xnormal 4294967295\nxemergency 4294967295\nxminover 0\nxminunder 0\n\
xprofile 0 FFFFFFFFFFFFFFFFFF8000FF 0\nxgroups\nxactions 0 0\nxover 0 0\nxunder 0 0\n\
scripts 0100\nschedule 0 0 5 0100\nschedule 1 0 5 0100\nschedule 2 0 5 0100\n\
schedule 3 0 5 0100\nevents -\n";

/// Returns a text followed by another.
pub(crate) fn join_texts(
    alloc: Global,
    first: &[u8],
    second: &[u8],
) -> Result<Vec<u8>, AllocError> {
    let mut all = first.to_vec(alloc)?;
    all.extend_from_slice(second)?;
    Ok(all)
}
