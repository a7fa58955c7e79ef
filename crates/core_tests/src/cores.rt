//! The parts of an event, which the core moves in. tests/unproved/long_tests has events, runs,
//! scans and recorders, since few crates should drop a core, whose proof is long.
//! tests/core_rows.py plays many more events over the proved executable.
use cosem_axdr::{Data, read};
use cosem_names::{AttrRef, ClassId, Level, Obis};
use relay_core::{Event, Parts, RelayCore};
use std::alloc::{AllocError, Global};

/// The attribute scripts of the script table.
const SCRIPTS: AttrRef = AttrRef {
    class: ClassId(9),
    name: Obis([0, 0, 10, 0, 106, 255]),
    number: 2,
};

/// Script 3: writes mode 0 and disconnects the supply.
const MODE_0_AND_DISCONNECT: &[u8] = b"\x01\x01\x02\x02\x12\x00\x03\x01\x02\
    \x02\x05\x16\x01\x12\x00\x46\x09\x06\x00\x00\x60\x03\x0A\xFF\x0F\x04\x16\x00\
    \x02\x05\x16\x02\x12\x00\x46\x09\x06\x00\x00\x60\x03\x0A\xFF\x0F\x01\x0F\x00";

/// Decodes bytes to the Data that they encode.
fn data(alloc: Global, bytes: &[u8]) -> Result<Data, AllocError> {
    match read(alloc, bytes) {
        Ok((value, _)) => Ok(value),
        Err(_) => Err(AllocError),
    }
}

/// Returns a management client's write of encoded scripts.
fn write_event(alloc: Global, bytes: &[u8]) -> Result<Event, AllocError> {
    Ok(Event::Set {
        level: Level::Management,
        attr: SCRIPTS,
        selected: false,
        value: data(alloc, bytes)?,
    })
}

/// Returns the number of steps of the script with this identifier, if the parts are scripts.
fn steps_of(parts: &Parts, identifier: u16) -> Option<u8> {
    match parts {
        Parts::Scripts(scripts) => scripts.step_count(identifier),
        _ => None,
    }
}

// Returns whether the parts of a write of `scripts` are script 3 with its two steps, and no script
// 1.
fn is_moved(alloc: Global) -> Result<bool, AllocError> {
    let event = write_event(alloc, MODE_0_AND_DISCONNECT)?;
    let parts = RelayCore::parts(alloc, &event);
    drop(event);
    let parts = parts?;
    let moves = steps_of(&parts, 3) == Some(2) && steps_of(&parts, 1) == None;
    drop(parts);
    Ok(moves)
}

#[test]
fn written_scripts_are_moved_in(rt: HostRuntime) {
    assert!(rt; is_moved(rt.alloc()) == Ok(true));
}
