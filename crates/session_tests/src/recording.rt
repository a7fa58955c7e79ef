//! A connection that records its log.
ghost use Rattle.std.specs.Prelude.{◌≡◌, ◌==◌, ◌++◌, ◌∷◌, [], length, map, Some, if◌then◌else◌};
ghost use Rattle.std.specs.Prelude.{IfOk, IsTrue};
ghost use Rattle.acse_ber.specs.Password.{IsPassword};
ghost use Rattle.head_end.specs.Attempts.{unused, IsTried};
ghost use Rattle.client_core.specs.Texts.{aarq_frame, request_frame, release_frame};
ghost use Rattle.head_end.specs.Logs.{heard, heard_nothing, sent, bytes_sent, IsFront};
ghost use Rattle.head_end.specs.Wires.{HasConversed};

use crate::meters::{DONE, REJECTED, SENT, job, password};
use client_core::{Client, Job, Outcome};
use cosem_axdr::Octets;
use counted_io::StreamFault;
use head_end::{Attempt, ConnectFault, Connection, Connector, Row, converse, run_job};
use std::alloc::{AllocError, Global};
use std::process::Abort;
use std::test::Fail;

/// A read or a write. A read that received nothing has no bytes.
#[derive(Drop)]
struct Entry {
    is_read: bool,
    bytes: Octets,
}

/// Returns its bytes at once and then ends, and records what is read and written.
#[derive(Drop)]
struct Recording<'a, R: Abort> {
    rt: &'a R,
    alloc: Global,
    bytes: &'static [u8],
    entries: Vec<Entry>,
}

impl<'a, R: Abort> Recording<'a, R> {
    /// Records one more read or write.
    fn keep(&mut self, is_read: bool, bytes: &[u8])
        ensures entries { self.new.entries.items ≡ self.old.entries.items ++ (record
            { is_read = is_read; bytes = bytes.now }) ∷ [] }
    {
        let bytes = Octets::from_slice(self.alloc, bytes).expect(self.rt, "no memory");
        self.entries
            .push(Entry { is_read, bytes })
            .expect(self.rt, "no memory");
    }
}

impl<'a, R: Abort> Connection for Recording<'a, R> {
    ghost log = { λ r. Some (map (λ e. if e.is_read then
        (if length e.bytes == 0 then heard_nothing else heard e.bytes) else sent e.bytes)
        r.entries.items) };

    fn read(&mut self, buffer: &mut [u8]) -> Result<usize, StreamFault> {
        let count = self.bytes.len().min(buffer.len());
        buffer[..count].copy_from_slice(&self.bytes[..count]);
        self.bytes = &self.bytes[count..];
        self.keep(true, &buffer[..count]);
        Ok(count)
    }

    fn write_all(&mut self, bytes: &[u8]) -> Result<(), StreamFault> {
        self.keep(false, bytes);
        Ok(())
    }
}

/// Meters that send the same bytes, at each address.
#[derive(Drop)]
struct Recorder<'a, R: Abort> {
    rt: &'a R,
    alloc: Global,
    bytes: &'static [u8],
}

impl<'a, R: Abort + Sync> Connector for Recorder<'a, R> {
    type Connection = Recording<'a, R>;

    fn connect(&self, _address: &Octets) -> Result<Recording<'a, R>, ConnectFault> {
        Ok(Recording {
            rt: self.rt,
            alloc: self.alloc,
            bytes: self.bytes,
            entries: Vec::new(self.alloc),
        })
    }
}

/// Runs the exchange of a new client over an unused connection, and returns its outcome. Whatever
/// the meter answers, no more is sent than the AARQ, the request and the release, in this order and
/// each at most once. If there is an outcome, each read and each write was in its turn, and the
/// outcome is that of the bytes received.
#[tactic(auto, using(crate::proofs::SentLemmas::in_order))]
fn talk<R: Abort>(
    alloc: Global,
    job: &Job,
    password: &Octets,
    connection: &mut Recording<'_, R>,
) -> Result<Outcome, AllocError>
    requires new { connection.old.entries.items ≡ [] }
    requires password { IsPassword password.now }
    ensures order { let log = map (λ e. if e.is_read then
        (if length e.bytes == 0 then heard_nothing else heard e.bytes) else sent e.bytes)
        connection.new.entries.items in
        IsFront (bytes_sent log)
        (aarq_frame password.now ++ (request_frame job.now.verb ++ release_frame)) }
    ensures outcome { let log = map (λ e. if e.is_read then
        (if length e.bytes == 0 then heard_nothing else heard e.bytes) else sent e.bytes)
        connection.new.entries.items in
        IfOk result (λ outcome. HasConversed job.now.verb password.now (Some outcome) (Some log)) }
{
    let mut client = Client::start(alloc, job, password)?;
    converse(alloc, &mut client, connection)
}

/// Returns whether a job is done. If it is, its attempt is closed, after an exchange with that
/// outcome.
fn is_done<C: Connector>(
    alloc: Global,
    job: &Job,
    attempt: &mut Attempt<C>,
    password: &Octets,
) -> bool
    requires unused { attempt.old.stage ≡ unused }
    requires password { IsPassword password.now }
    ensures { IsTrue result → IsTried job.now password.now (Row.Came
        (Outcome.Done 0)) attempt.new.stage }
{
    matches!(
        run_job(alloc, job, attempt, password),
        Row::Came(Outcome::Done(0))
    )
}

/// Returns whether a disconnect job is done at meters that send these bytes.
fn is_done_at<R: Abort + Sync>(
    rt: &R,
    alloc: Global,
    bytes: &'static [u8],
) -> Result<bool, AllocError> {
    let job = job(alloc, b"m1", b"anywhere")?;
    let password = password(alloc)?;
    let recorder = Recorder { rt, alloc, bytes };
    let mut attempt = Attempt::new(&recorder);
    let is_done = is_done(alloc, &job, &mut attempt, &password);
    drop(attempt);
    drop(recorder);
    drop(password);
    drop(job);
    Ok(is_done)
}

#[test]
fn a_connection_that_keeps_its_log_is_closed(rt: HostRuntime) -> Result<(), Fail> {
    let alloc = rt.alloc();
    assert!(rt; is_done_at(&rt, alloc, &DONE)? && !is_done_at(&rt, alloc, &REJECTED)?);
    Ok(())
}

/// Returns a new connection that returns these bytes.
fn new_recording<'a, R: Abort>(rt: &'a R, alloc: Global, bytes: &'static [u8]) -> Recording<'a, R>
    ensures { result.entries.items ≡ [] }
{
    Recording {
        rt,
        alloc,
        bytes,
        entries: Vec::new(alloc),
    }
}

/// Returns the outcome of a disconnect job over an unused connection.
fn outcome_over<R: Abort>(
    alloc: Global,
    recording: &mut Recording<'_, R>,
) -> Result<Outcome, AllocError>
    requires { recording.old.entries.items ≡ [] }
{
    let job = job(alloc, b"m1", b"anywhere")?;
    let password = password(alloc)?;
    let outcome = talk(alloc, &job, &password, recording);
    drop(password);
    drop(job);
    outcome
}

/// Returns whether the AARQ, the request and the release were sent, in three writes.
fn has_sent_all<R: Abort>(alloc: Global, recording: &Recording<'_, R>) -> Result<bool, AllocError> {
    let mut sent = Vec::new(alloc);
    let mut count: usize = 0;
    for entry in recording.entries.iter() {
        if !entry.is_read {
            sent.extend_from_slice(entry.bytes.as_slice())?;
            count = count.saturating_add(1);
        }
    }
    let is_all = sent.as_slice() == SENT.as_slice() && count == 3;
    drop(sent);
    Ok(is_all)
}

#[test]
fn what_is_sent_is_kept_in_order(rt: HostRuntime) {
    let alloc = rt.alloc();
    let mut recording = new_recording(&rt, alloc, &DONE);
    let outcome = outcome_over(alloc, &mut recording);
    let is_sent = has_sent_all(alloc, &recording);
    drop(recording);
    assert!(rt; outcome == Ok(Outcome::Done(0)) && is_sent == Ok(true));
}
