//! The sessions of a meter.
ghost use Rattle.std.specs.Prelude.{◌≡◌, ◌≢◌, ◌≤◌, ℕ, IfOk, Some};
ghost use Rattle.meter.specs.Exports.{OnOpen, MeterOpenSession, MeterFeed, MeterFinish, MeterNext, MeterCloseSession, next_outcome, next_length};
ghost use Rattle.meter.specs.Outcomes.{code_of, outcome_of_call, of_end};
ghost use Rattle.meter.specs.declared.outcome.CallResult.TheVariants.{NoMemory};
ghost use Rattle.embedded_meter.specs.Memory.{HasSureNext};
ghost use Rattle.embedded_meter.specs.MeterStates.{MeterState};
ghost use Rattle.embedded_meter.specs.Progress.{GivesAtMost};
ghost use Rattle.session_core.specs.Standard.{greatest_frame};

use crate::handle::MeterHandle;
use crate::outcome::CallResult;
use embedded_meter::{Given, MeterFault};
use session_core::SessionEnd;
use std::alloc::Global;

/// Opens a session with a number of 0 to 7. Results, in this order: `NotOpen`, `NoSession` if the
/// number is above 7, `SessionTaken`, `NoMemory`, `Done`.
#[unsafe(no_mangle)]
pub extern "C" fn meter_open_session(alloc: Global, meter: &mut MeterHandle, session: u8) -> u32
    ensures { OnOpen Unit (MeterOpenSession session) meter.old.slot.held result
        meter.new.slot.held }
{
    let Some(mut held) = meter.take(alloc) else {
        return CallResult::NotOpen.code();
    };
    let done = held.open_session(alloc, session);
    meter.put(held);
    done_code(done)
}

/// Passes the next bytes to a session, split at any place. Results, in this order: `NotOpen`,
/// `NoSession`, `NoMemory` (none of the bytes were copied), `Done`.
#[unsafe(no_mangle)]
pub extern "C" fn meter_feed(
    alloc: Global,
    meter: &mut MeterHandle,
    session: u8,
    bytes: &[u8],
) -> u32
    ensures { OnOpen Unit (MeterFeed session bytes.now) meter.old.slot.held result
        meter.new.slot.held }
{
    let Some(mut held) = meter.take(alloc) else {
        return CallResult::NotOpen.code();
    };
    let done = held.feed(session, bytes);
    meter.put(held);
    done_code(done)
}

/// Ends the input of a session. Results, in this order: `NotOpen`, `NoSession`, `Done`.
#[unsafe(no_mangle)]
pub extern "C" fn meter_finish(alloc: Global, meter: &mut MeterHandle, session: u8) -> u32
    ensures { OnOpen Unit (MeterFinish session) meter.old.slot.held result meter.new.slot.held }
{
    let Some(mut held) = meter.take(alloc) else {
        return CallResult::NotOpen.code();
    };
    let done = held.finish(session);
    meter.put(held);
    done_code(done)
}

/// Applies the requests of a session to the meter, up to the next frame, and copies the frame to
/// the buffer. `length` is the frame's length in bytes for `Done` and `NoRoom`, at most 1,032,
/// otherwise 0.
///
/// Results: `NotOpen`; `NoSession`; `Done`; `NoRoom`, and the frame stays pending; `Wait`;
/// `Closed`, `Cut`, `BadVersion` or `TooLong` if the session is over; `NoMemory`, after which the
/// effects so far remain, and the same call continues from there. A short request whose event is
/// sure, as of `SupplyMeter::next`, never gives `NoMemory` if the buffer has 14 bytes.
#[unsafe(no_mangle)]
pub extern "C" fn meter_next(
    alloc: Global,
    meter: &mut MeterHandle,
    session: u8,
    frame: &mut [u8],
    length: &mut usize,
) -> u32
    ensures next { OnOpen ((frame.new ≡ frame.old)
        × (length.new ≡ 0)) (MeterNext session frame.old frame.new length.new) meter.old.slot.held
        result meter.new.slot.held }
    ensures sure { (m : MeterState) → meter.old.slot.held ≡ Some m → HasSureNext m session frame.old
        → result ≢ code_of NoMemory }
    ensures within_max { length.new ≤ greatest_frame }
{
    *length = 0;
    let Some(mut held) = meter.take(alloc) else {
        return CallResult::NotOpen.code();
    };
    let given = held.next(alloc, session, frame);
    meter.put(held);
    *length = given_length(given);
    given_outcome(given).code()
}

/// Closes a session, whatever its state. Results, in this order: `NotOpen`, `NoSession`, `Done`.
#[unsafe(no_mangle)]
pub extern "C" fn meter_close_session(alloc: Global, meter: &mut MeterHandle, session: u8) -> u32
    ensures { OnOpen Unit (MeterCloseSession session) meter.old.slot.held result
        meter.new.slot.held }
{
    let Some(mut held) = meter.take(alloc) else {
        return CallResult::NotOpen.code();
    };
    let done = held.close_session(session);
    meter.put(held);
    done_code(done)
}

// Returns the number in `meter.h` of the result of a call without a value.
fn done_code(done: Result<(), MeterFault>) -> u32
    ensures { result ≡ code_of (outcome_of_call done) }
{
    match done {
        Ok(()) => CallResult::Done.code(),
        Err(fault) => CallResult::from_fault(fault).code(),
    }
}

// Returns the result for C of a call of `SupplyMeter::next`.
fn given_outcome(given: Result<Given, MeterFault>) -> CallResult
    ensures { result ≡ next_outcome given }
{
    match given {
        Ok(Given::Frame(_)) => CallResult::Done,
        Ok(Given::NoRoom(_)) => CallResult::NoRoom,
        Ok(Given::Wait) => CallResult::Wait,
        Ok(Given::End(end)) => end_outcome(end),
        Err(fault) => CallResult::from_fault(fault),
    }
}

// Returns the length for C of a call of `SupplyMeter::next`: that of the frame, or 0 if there is
// none.
fn given_length(given: Result<Given, MeterFault>) -> usize
    requires { IfOk given (GivesAtMost greatest_frame) }
    ensures length { result ≡ next_length given }
    ensures within_max { result ≤ greatest_frame }
{
    match given {
        Ok(Given::Frame(count)) => count,
        Ok(Given::NoRoom(count)) => count,
        Ok(Given::Wait) => 0,
        Ok(Given::End(_)) => 0,
        Err(_) => 0,
    }
}

// Returns the result for C of the end of a session.
fn end_outcome(end: SessionEnd) -> CallResult
    ensures { result ≡ of_end end }
{
    match end {
        SessionEnd::Closed => CallResult::Closed,
        SessionEnd::Cut => CallResult::Cut,
        SessionEnd::BadVersion => CallResult::BadVersion,
        SessionEnd::TooLong => CallResult::TooLong,
    }
}
