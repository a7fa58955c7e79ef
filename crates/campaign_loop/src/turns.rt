//! The turns of a campaign's loop.
ghost use Rattle.std.specs.Prelude.{◌≡◌, ◌<◌, length, false, vec_len, OnOk};
ghost use Rattle.campaign_board.specs.Boards.{IsSettled};
ghost use Rattle.campaign_loop.specs.Driving.{Drives, DrivesJobs, Runs};

use crate::course::Course;
use crate::driving::{answer_all, begin, finish_all, finish_open, serve_ready};
use crate::jobs::CampaignJobs;
use crate::wires::{Waited, Wires};
use campaign_board::Board;
use campaign_ledger::Book;
use head_end::Watcher;
use std::alloc::{AllocError, Global};
use std::sync::Wait;

// The length of the buffer for the bytes of a read: a meter's longest message is about 1,050 bytes.
const BUFFER_LEN: usize = 2_048;

/// Why the loop of a campaign ended before each job was run. No connection is open then, and the
/// jobs that began have their outcomes.
#[derive(Clone, Copy, Debug, PartialEq, Eq)]
pub enum LoopFault {
    /// The connections could not be waited for. All were closed.
    Wires,
    /// The ledger failed. Nothing began after that, no request went out that needed a mark, and the
    /// other conversations were ended in order; some outcomes may not be in the ledger.
    Ledger,
    /// Out of memory: some jobs could not begin.
    Memory,
    /// The connections said that no further job may begin, and some had not begun.
    Stopped,
}

/// The memory of a loop: the connections to be served, the places that were marked, and why nothing
/// further begins.
#[derive(Drop)]
pub struct LoopMemory {
    ready: Vec<u32>,
    marked: Vec<u32>,
    buffer: Vec<u8>,
    fault: Option<LoopFault>,
    ghost has_buffer: { 0 < vec_len buffer },
}

impl LoopMemory {
    /// Allocates the memory for a loop.
    pub fn new(alloc: Global) -> Result<LoopMemory, AllocError> {
        let mut buffer = Vec::new(alloc);
        buffer.resize(BUFFER_LEN, 0)?;
        Ok(LoopMemory {
            ready: Vec::new(alloc),
            marked: Vec::new(alloc),
            buffer,
            fault: None,
        })
    }
}

// Begins the job of a place, if it may begin. Returns whether it began.
fn begin_at<B: Book, W: Wires>(
    alloc: Global,
    board: &mut Board<B>,
    wires: &mut W,
    list: &CampaignJobs<'_>,
    at: u32,
) -> Result<bool, AllocError>
    ensures { DrivesJobs B.is_honest B.is_marked list.now.jobs.now list.now.passwords.now
        list.now.choices.now board.old (W.log wires.old) board.new (W.log wires.new) }
{
    let index = at as usize;
    if index >= list.jobs.len() {
        return Ok(false);
    }
    let password = list.password(index);
    begin(alloc, board, wires, at, &list.jobs[index], password)
}

// Tries the jobs in the order of their schedule, up to the first for which no connection is free.
// Ends early if out of memory.
fn begin_jobs<B: Book, W: Wires, V: Watcher>(
    alloc: Global,
    board: &mut Board<B>,
    wires: &mut W,
    list: &CampaignJobs<'_>,
    course: &mut Course<'_, V>,
) -> Result<(), AllocError>
    ensures { DrivesJobs B.is_honest B.is_marked list.now.jobs.now list.now.passwords.now
        list.now.choices.now board.old (W.log wires.old) board.new (W.log wires.new) }
{
    'jobs: for _ in 0..list.jobs.len() {
        let Some(at) = course.schedule.candidate() else {
            return Ok(());
        };
        if !board.has_room() || !wires.has_room() {
            return Ok(());
        }
        match begin_at(alloc, board, wires, list, at) {
            Ok(_) => course.schedule.advance(),
            Err(fault) => return Err(fault),
        }
    }
    Ok(())
}

// Begins what may begin, unless a fault has ended that. Out of memory is a fault if no connection
// is open: else a job is tried again once another one is over.
fn begin_more<B: Book, W: Wires, V: Watcher>(
    alloc: Global,
    board: &mut Board<B>,
    wires: &mut W,
    list: &CampaignJobs<'_>,
    course: &mut Course<'_, V>,
    memory: &mut LoopMemory,
)
    ensures { DrivesJobs B.is_honest B.is_marked list.now.jobs.now list.now.passwords.now
        list.now.choices.now board.old (W.log wires.old) board.new (W.log wires.new) }
{
    if memory.fault.is_some() {
        return;
    }
    let begun = begin_jobs(alloc, board, wires, list, course);
    if begun.is_err() && board.is_idle() {
        memory.fault = Some(LoopFault::Memory);
    }
}

// Waits for the connections, and serves those that can be read. If they cannot be waited for, ends
// all conversations.
fn serve_some<B: Book, W: Wires, V: Watcher>(
    alloc: Global,
    board: &mut Board<B>,
    wires: &mut W,
    course: &mut Course<'_, V>,
    memory: &mut LoopMemory,
)
    ensures { Drives B.is_honest B.is_marked board.old (W.log wires.old) board.new
        (W.log wires.new) }
{
    let may_wait = memory.ready.is_empty();
    match wires.wait(may_wait, &mut memory.ready) {
        Ok(waited) => {
            if waited == Waited::Stop && memory.fault.is_none() {
                memory.fault = Some(LoopFault::Stopped);
            }
            let ready = &mut memory.ready;
            serve_ready(
                alloc,
                board,
                wires,
                course,
                ready,
                memory.buffer.as_mut_slice(),
            );
        }
        Err(_) => {
            memory.fault = Some(LoopFault::Wires);
            finish_open(board, wires, course);
        }
    }
}

// Commits the marks and outcomes that wait, and then sends the requests of the marked places. If
// the ledger failed, ends the conversations that wait for their marks.
fn commit<B: Book, W: Wires, V: Watcher>(
    board: &mut Board<B>,
    wires: &mut W,
    course: &mut Course<'_, V>,
    memory: &mut LoopMemory,
)
    ensures { Drives B.is_honest B.is_marked board.old (W.log wires.old) board.new
        (W.log wires.new) }
{
    if !board.has_uncommitted() {
        return;
    }
    match board.commit(&mut memory.marked) {
        Ok(()) => answer_all(board, wires, course, memory.marked.as_slice()),
        Err(_) => {
            memory.fault = Some(LoopFault::Ledger);
            finish_all(board, wires, course, memory.marked.as_slice());
        }
    }
}

// Returns whether nothing can begin any more once no connection is open.
fn is_exhausted<W: Wires, V: Watcher>(
    wires: &W,
    course: &Course<'_, V>,
    memory: &LoopMemory,
) -> bool {
    memory.fault.is_some() || course.schedule.candidate().is_none() || wires.has_room()
}

// Does one turn of the loop: begins jobs, waits for the connections, serves those that can be read,
// and commits. Returns whether the loop goes on.
fn turn<B: Book, W: Wires, V: Watcher>(
    alloc: Global,
    board: &mut Board<B>,
    wires: &mut W,
    list: &CampaignJobs<'_>,
    course: &mut Course<'_, V>,
    memory: &mut LoopMemory,
) -> bool
    ensures driven { DrivesJobs B.is_honest B.is_marked list.now.jobs.now list.now.passwords.now
        list.now.choices.now board.old (W.log wires.old) board.new (W.log wires.new) }
    ensures idle { result ≡ false → board.new.busy ≡ 0 }
{
    begin_more(alloc, board, wires, list, course, memory);
    if board.is_idle() && is_exhausted(wires, course, memory) {
        commit(board, wires, course, memory);
        return !board.is_idle();
    }
    serve_some(alloc, board, wires, course, memory);
    commit(board, wires, course, memory);
    true
}

// Returns whether each job was run, or why not.
fn end_of<B: Book>(board: &Board<B>, memory: &LoopMemory) -> Result<(), LoopFault>
    ensures { OnOk result (IsSettled B.is_honest B.is_marked board.now) }
{
    match memory.fault {
        None | Some(LoopFault::Stopped) if board.is_settled() => Ok(()),
        Some(fault) => Err(fault),
        None => Err(LoopFault::Memory),
    }
}

/// Runs the jobs of a board until no connection is open and no job can begin: see [`LoopFault`] for
/// what a fault leaves. The jobs are those that the board was made for, and `course` and `memory`
/// are new.
///
/// Jobs begin in the order of the list, except that those of one address run one after the other.
/// Each turn commits the marks of all requests that are due, in one step with the outcomes, and
/// sends these requests then.
pub fn run<R: Wait, B: Book, W: Wires, V: Watcher>(
    rt: &R,
    alloc: Global,
    board: &mut Board<B>,
    wires: &mut W,
    list: &CampaignJobs<'_>,
    course: &mut Course<'_, V>,
    memory: &mut LoopMemory,
) -> Result<(), LoopFault>
    ensures { Runs B.is_honest B.is_marked list.now.jobs.now list.now.passwords.now
        list.now.choices.now result board.old (W.log wires.old) board.new (W.log wires.new) }
{
    'turns: for _ in rt.forever() {
        if !turn(alloc, board, wires, list, course, memory) {
            return end_of(board, memory);
        }
    }
    unreachable!()
}
