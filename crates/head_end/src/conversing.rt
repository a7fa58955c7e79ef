//! The conversation of a client with the meter over a connection.
ghost use Rattle.std.specs.Prelude.{IfOk};
ghost use Rattle.head_end.specs.Conversations.{GivesUp, SendsAll, Turns, Converses, Sends, TakesTurn, Speaks};

use crate::connection::Connection;
use client_core::{Client, Outcome};
use std::alloc::{AllocError, Global};

// The size of the read buffer in bytes.
const MAX_READ: usize = 1_024;
// The maximum number of reads of one connection. If they do not settle the outcome, it is unknown.
const MAX_READS: u32 = 65_536;
// The number of messages of a job: the AARQ, the request and the release.
const MAX_TEXTS: u32 = 3;

/// Sends the client's messages and reads until the outcome is settled, the connection ends or
/// fails, or 65,536 reads have not settled it.
///
/// Whatever the meter responds, only the AARQ, the client's one request and the release are sent,
/// in this order and each at most once. Fails only if out of memory.
pub fn converse<K: Connection>(
    alloc: Global,
    client: &mut Client,
    connection: &mut K,
) -> Result<Outcome, AllocError>
    ensures forecast { IfOk result (Converses client.old (K.forecast connection.old)) }
    ensures log { Speaks client.old (K.log connection.old) result (K.log connection.new) }
{
    if !send_due(client, connection) {
        return Ok(give_up(client));
    }
    let mut buffer = [0; MAX_READ];
    'turns: for _ in 0..MAX_READS {
        if let Some(outcome) = take_turn(alloc, client, connection, &mut buffer)? {
            return Ok(outcome);
        }
    }
    Ok(give_up(client))
}

// Reads once and sends the messages that may then be sent. Returns the outcome, if it is settled
// or nothing more can be read.
fn take_turn<K: Connection>(
    alloc: Global,
    client: &mut Client,
    connection: &mut K,
    buffer: &mut [u8; MAX_READ],
) -> Result<Option<Outcome>, AllocError>
    ensures forecast { IfOk result
        (λ outcome. Turns client.old (K.forecast connection.old) outcome client.new
        (K.forecast connection.new)) }
    ensures log { TakesTurn client.old (K.log connection.old) result client.new
        (K.log connection.new) }
{
    let count = match connection.read(buffer) {
        Ok(0) => return Ok(Some(give_up(client))),
        Ok(count) => count,
        Err(_) => return Ok(Some(give_up(client))),
    };
    client.feed(alloc, &buffer[..count])?;
    if !send_due(client, connection) {
        return Ok(Some(give_up(client)));
    }
    Ok(client.outcome())
}

// Writes all messages that may be sent. Returns false if a write fails.
fn send_due<K: Connection>(client: &mut Client, connection: &mut K) -> bool
    ensures forecast { SendsAll client.old (K.forecast connection.old) result client.new
        (K.forecast connection.new) }
    ensures log { Sends client.old (K.log connection.old) result client.new (K.log connection.new) }
{
    'texts: for _ in 0..MAX_TEXTS {
        let text = match client.to_send() {
            Some(text) => text,
            None => return true,
        };
        match connection.write_all(text.as_slice()) {
            Ok(()) => {}
            Err(_) => return false,
        }
    }
    true
}

/// Ends the client's connection and returns the outcome.
pub fn give_up(client: &mut Client) -> Outcome
    ensures { GivesUp client.old result }
{
    client.ended();
    client.outcome().unwrap_or(Outcome::Unknown)
}
