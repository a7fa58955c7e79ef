//! A call that runs out of memory is not a call: it is in no history, and the same call succeeds
//! afterwards.
ghost use Rattle.std.specs.Prelude.{◌≡◌, ◌<◌, ◌≤◌, [], IfOk};

use super::RefusedAndStood;
use super::recorders::event_of;
use crate::meters::new_lock;
use cosem_axdr::Data;
use relay_core::Reply;
use shared_meter::Kept;
use std::alloc::{AllocError, Global};
use std::process::Abort;
use std::sync::Wait;
use std::test::Fail;
use turn_lock::{CallFault, Port, Shared, Turned};

/// The management client's GET of the device name.
const READ_NAME: &[u8] = b"get 1 1 00002A0000FF 2 0";

/// Returns whether a reply is the device name.
fn is_name(reply: &Reply) -> bool {
    match reply {
        Reply::Value(Data::OctetString(name)) => name.as_slice() == b"RELAY1".as_slice(),
        _ => false,
    }
}

/// Reads the device name, and returns whether the reply is the name. The outer error means that an
/// allocation outside the call was refused.
fn ask<W: Wait>(
    rt: &W,
    alloc: Global,
    port: &mut Port<Kept>,
) -> Result<Result<bool, CallFault>, AllocError>
    ensures { port.new.lock ≡ port.old.lock }
{
    let event = event_of(alloc, READ_NAME)?;
    match port.call(rt, alloc, event) {
        Ok(reply) => {
            let is_name = is_name(&reply);
            drop(reply);
            Ok(Ok(is_name))
        }
        Err(fault) => Ok(Err(fault)),
    }
}

/// Closes a lock and returns the number of events that its meter kept, or `None` if the lock is
/// busy.
pub(crate) fn kept_count(shared: Shared<Kept>, port: Port<Kept>) -> Option<u16>
    requires { port.lock ≡ shared }
{
    match shared.close(port) {
        Ok(kept) => {
            let count = kept.recorder().count();
            drop(kept);
            Some(count)
        }
        Err((_, shared, port)) => {
            drop(shared);
            drop(port);
            None
        }
    }
}

#[test]
fn call_reads_the_name(rt: HostRuntime) -> Result<(), Fail> {
    let alloc = rt.alloc();
    let (shared, mut port) = new_lock(&rt, alloc, 2)?;
    let first = ask(&rt, alloc, &mut port);
    let second = ask(&rt, alloc, &mut port);
    let calls = kept_count(shared, port);
    let (first, second) = (first?, second?);
    if (first, second, calls) == (Ok(true), Ok(true), Some(2)) {
        return Ok(());
    }
    // (memory is refused only once)
    let is_first = first == Err(CallFault::Memory) && second == Ok(true);
    let is_second = second == Err(CallFault::Memory) && first == Ok(true);
    assert!(rt; (is_first || is_second) && calls == Some(1));
    Err(RefusedAndStood)?
}
