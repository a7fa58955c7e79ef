//! Serves the connections of a board: each function continues the history of the campaign.
ghost use Rattle.std.specs.Prelude.{◌≡◌, ◌<◌, length};
ghost use Rattle.acse_ber.specs.Password.{IsPassword};
ghost use Rattle.campaign_loop.specs.Driving.{Drives, DrivesJob};

use crate::course::Course;
use crate::wires::{WireRead, Wires};
use campaign_board::Board;
use campaign_ledger::Book;
use client_core::Job;
use cosem_axdr::Octets;
use head_end::Watcher;
use std::alloc::{AllocError, Global};

// The number of messages of a job: the AARQ, the request and the release.
const MAX_TEXTS: u32 = 3;

// The maximum number of reads of a connection in a turn of the loop, so that no meter holds up the
// others.
const MAX_READS: u32 = 64;

// Sends the messages of a place that may be sent now.
fn send_all<B: Book, W: Wires>(board: &mut Board<B>, wires: &mut W, at: u32)
    ensures { Drives B.is_honest B.is_marked board.old (W.log wires.old) board.new
        (W.log wires.new) }
{
    'texts: for _ in 0..MAX_TEXTS {
        match board.next_text(at) {
            Some(text) => wires.send(at, text),
            None => return,
        }
    }
}

// Ends the conversation of a place, if it is open, closes its connection, and notes that the next
// job of its address may begin.
pub(crate) fn finish<B: Book, W: Wires, V: Watcher>(
    board: &mut Board<B>,
    wires: &mut W,
    course: &mut Course<'_, V>,
    at: u32,
)
    ensures { Drives B.is_honest B.is_marked board.old (W.log wires.old) board.new
        (W.log wires.new) }
{
    match board.end(at) {
        Some(outcome) => {
            wires.close(at);
            course.end(at, outcome);
        }
        None => {}
    }
}

// Sends the messages of a place that may be sent now, and ends its conversation if the outcome is
// settled. Returns whether it goes on.
fn answer<B: Book, W: Wires, V: Watcher>(
    board: &mut Board<B>,
    wires: &mut W,
    course: &mut Course<'_, V>,
    at: u32,
) -> bool
    ensures { Drives B.is_honest B.is_marked board.old (W.log wires.old) board.new
        (W.log wires.new) }
{
    send_all(board, wires, at);
    if board.is_decided(at) {
        finish(board, wires, course, at);
        false
    } else {
        true
    }
}

// Reads once from the connection of a place. Returns whether it must be read again.
fn hear<B: Book, W: Wires, V: Watcher>(
    alloc: Global,
    board: &mut Board<B>,
    wires: &mut W,
    course: &mut Course<'_, V>,
    at: u32,
    buffer: &mut [u8],
) -> bool
    requires { 0 < length buffer.now }
    ensures { Drives B.is_honest B.is_marked board.old (W.log wires.old) board.new
        (W.log wires.new) }
{
    if !board.is_open(at) {
        return false;
    }
    match wires.read(at, buffer) {
        WireRead::Bytes(count) => match board.receive(alloc, at, &buffer[..count]) {
            Ok(()) => answer(board, wires, course, at),
            Err(_) => {
                finish(board, wires, course, at);
                false
            }
        },
        WireRead::Blocked => false,
        WireRead::Ended => {
            finish(board, wires, course, at);
            false
        }
    }
}

// Serves the connection of a place that can be read. Returns whether it must be served again, since
// it may have further bytes.
fn serve<B: Book, W: Wires, V: Watcher>(
    alloc: Global,
    board: &mut Board<B>,
    wires: &mut W,
    course: &mut Course<'_, V>,
    at: u32,
    buffer: &mut [u8],
) -> bool
    requires { 0 < length buffer.now }
    ensures { Drives B.is_honest B.is_marked board.old (W.log wires.old) board.new
        (W.log wires.new) }
{
    'reads: for _ in 0..MAX_READS {
        if !hear(alloc, board, wires, course, at, buffer) {
            return false;
        }
    }
    true
}

// Serves the connections of these places, and keeps those that must be served again.
pub(crate) fn serve_ready<B: Book, W: Wires, V: Watcher>(
    alloc: Global,
    board: &mut Board<B>,
    wires: &mut W,
    course: &mut Course<'_, V>,
    ready: &mut Vec<u32>,
    buffer: &mut [u8],
)
    requires { 0 < length buffer.now }
    ensures { Drives B.is_honest B.is_marked board.old (W.log wires.old) board.new
        (W.log wires.new) }
{
    let mut kept = 0;
    'ready: for index in 0..ready.len() {
        let at = ready[index];
        if serve(alloc, board, wires, course, at, buffer) {
            ready[kept] = at;
            kept += 1;
        }
    }
    ready.truncate(kept);
}

// Sends the requests of places whose marks were committed.
pub(crate) fn answer_all<B: Book, W: Wires, V: Watcher>(
    board: &mut Board<B>,
    wires: &mut W,
    course: &mut Course<'_, V>,
    marked: &[u32],
)
    ensures { Drives B.is_honest B.is_marked board.old (W.log wires.old) board.new
        (W.log wires.new) }
{
    'marked: for at in marked {
        answer(board, wires, course, *at);
    }
}

// Ends the conversations of places whose marks could not be committed: their requests are not sent.
pub(crate) fn finish_all<B: Book, W: Wires, V: Watcher>(
    board: &mut Board<B>,
    wires: &mut W,
    course: &mut Course<'_, V>,
    places: &[u32],
)
    ensures { Drives B.is_honest B.is_marked board.old (W.log wires.old) board.new
        (W.log wires.new) }
{
    'places: for at in places {
        finish(board, wires, course, *at);
    }
}

// Ends all open conversations.
pub(crate) fn finish_open<B: Book, W: Wires, V: Watcher>(
    board: &mut Board<B>,
    wires: &mut W,
    course: &mut Course<'_, V>,
)
    ensures { Drives B.is_honest B.is_marked board.old (W.log wires.old) board.new
        (W.log wires.new) }
{
    'places: for at in 0..board.len() {
        if let Ok(at) = u32::try_from(at) {
            finish(board, wires, course, at);
        }
    }
}

// Begins the job of a place, if it may begin, and sends its first message. Returns whether it
// began. If out of memory, nothing changes.
pub(crate) fn begin<B: Book, W: Wires>(
    alloc: Global,
    board: &mut Board<B>,
    wires: &mut W,
    at: u32,
    job: &Job,
    password: &Octets,
) -> Result<bool, AllocError>
    requires { IsPassword password.now }
    ensures { DrivesJob B.is_honest B.is_marked at job.now password.now board.old
        (W.log wires.old) board.new (W.log wires.new) }
{
    match board.begin(alloc, at, job, password) {
        Ok(true) => {
            wires.open(at, &job.address);
            send_all(board, wires, at);
            Ok(true)
        }
        Ok(false) => Ok(false),
        Err(fault) => Err(fault),
    }
}
