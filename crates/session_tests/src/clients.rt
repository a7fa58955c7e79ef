//! The client's side of one connection. tests/campaigns.py plays the answers of many meters to
//! requests of each verb.
use crate::meters::{DONE, SENT, job, password};
use client_core::{Client, Job, Outcome};
use std::alloc::{AllocError, Global};
use std::test::Fail;

// Starts the client of a job with the meter's password.
fn client_for(alloc: Global, job: &Job) -> Result<Client, AllocError> {
    let password = password(alloc)?;
    let client = Client::start(alloc, job, &password);
    drop(password);
    client
}

// Returns a client that disconnects, with the password 12345678.
fn new_client(alloc: Global) -> Result<Client, AllocError> {
    let job = job(alloc, b"m1", b"127.0.0.1:4059")?;
    let client = client_for(alloc, &job);
    drop(job);
    client
}

// Passes bytes to a client. Returns whether it then sends exactly these bytes, once, and has this
// outcome.
fn takes_step(
    alloc: Global,
    client: &mut Client,
    received: &[u8],
    sent: &[u8],
    outcome: Option<Outcome>,
) -> Result<bool, AllocError> {
    client.feed(alloc, received)?;
    let next = client.to_send();
    let is_sent = match &next {
        Some(text) => text.as_slice() == sent,
        None => false,
    };
    drop(next);
    let next = client.to_send();
    let is_sent_once = is_sent && next.is_none();
    drop(next);
    Ok(is_sent_once && client.outcome() == outcome)
}

// Returns whether a client sends its AARQ, request and release in their turns, and keeps its
// outcome when the connection ends.
fn follows_steps(alloc: Global, client: &mut Client) -> Result<bool, AllocError> {
    let done = Some(Outcome::Done(0));
    let opens = takes_step(alloc, client, &[], &SENT[..64], None)?;
    let asks = takes_step(alloc, client, &DONE[..51], &SENT[64..87], None)?;
    let releases = takes_step(alloc, client, &DONE[51..], &SENT[87..], done)?;
    client.ended();
    Ok(opens && asks && releases && client.outcome() == done)
}

#[test]
fn each_talk_follows_its_steps(rt: HostRuntime) -> Result<(), Fail> {
    let mut client = new_client(rt.alloc())?;
    let follows = follows_steps(rt.alloc(), &mut client);
    drop(client);
    assert!(rt; follows == Ok(true));
    Ok(())
}

/// Returns whether `Debug` shows only the verb of a client and whether its connection has ended,
/// and none of its texts: one contains a password.
fn is_shown_by_its_verb(alloc: Global, client: &Client) -> Result<bool, AllocError> {
    let text = format!(in alloc; "{client:?}")?;
    let is_same = text.as_str() == "Client { verb: Disconnect, is_ended: false, .. }";
    drop(text);
    Ok(is_same)
}

#[test]
fn a_client_does_not_show_its_password(rt: HostRuntime) -> Result<(), Fail> {
    let client = new_client(rt.alloc())?;
    let is_shown = is_shown_by_its_verb(rt.alloc(), &client);
    drop(client);
    assert!(rt; is_shown == Ok(true));
    Ok(())
}
