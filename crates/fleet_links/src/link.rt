//! `FleetLink`: one connection of a client, between its stream and its session of a meter.
ghost use Rattle.std.specs.Prelude.{◌≡◌, ◌≢◌, ◌<◌, [], None, length};
ghost use Rattle.embedded_meter.specs.MeterStates.{dialogue_at};
ghost use Rattle.fleet_links.specs.Turns.{Turns, max_steps};
ghost use Rattle.fleet_links.specs.Steps.{WritesBy, QueuesBy, FeedsBy};

use crate::stream::{Received, Sent, Stream};
use bytes::BytesMut;
use embedded_meter::{Given, SupplyMeter};
use session_core::SessionEnd;
use std::alloc::Global;

/// The maximum number of steps in a turn. A step writes, takes a frame, or reads.
pub const MAX_STEPS: u32 = 1_024;

/// Why a connection is over.
#[derive(Clone, Copy, Debug, PartialEq, Eq)]
pub enum LinkEnd {
    /// The client closed its side, or the stream failed.
    Closed,
    /// The session is over.
    Ended(SessionEnd),
    /// A frame is longer than the caller's buffer.
    TooLong,
    /// Out of memory.
    Memory,
}

/// The result of a turn.
#[derive(Clone, Copy, Debug, PartialEq, Eq)]
pub enum Turn {
    /// The stream blocked. It can go on once it is readable or writable.
    Waits,
    /// There may be more to do at once.
    Again,
    /// The connection is over and must be closed.
    Over(LinkEnd),
}

/// A connection: its stream, the number of its session, and the bytes that are still to be written.
#[derive(Drop)]
pub struct FleetLink<S: Stream + Drop> {
    /// The stream to the client.
    pub stream: S,
    /// The number of the session in its meter, 0 to 7.
    pub number: u8,
    /// The bytes that are still to be written.
    pub pending: BytesMut,
}

impl<S: Stream + Drop> FleetLink<S> {
    /// Returns a connection of the session with this number that has written nothing.
    pub fn new(alloc: Global, stream: S, number: u8) -> FleetLink<S>
        ensures stream { result.stream ≡ stream }
        ensures number { result.number ≡ number }
        ensures pending { result.pending.items ≡ [] }
    {
        FleetLink {
            stream,
            number,
            pending: BytesMut::new(alloc),
        }
    }

    /// Returns the stream, and drops the bytes that were not written.
    pub fn into_stream(self) -> S
        ensures { result ≡ self.stream }
    {
        let FleetLink {
            stream,
            pending,
            ..
        } = self;
        drop(pending);
        stream
    }

    /// Runs the connection until its stream blocks, it is over, or `MAX_STEPS` steps are done: the
    /// session receives the bytes that arrive, and its frames are written, in order. `input` and
    /// `frame` are buffers, whose contents mean nothing between turns; `input` is not empty.
    pub fn turn(
        &mut self,
        alloc: Global,
        meter: &mut SupplyMeter,
        input: &mut [u8],
        frame: &mut [u8],
    ) -> Turn
        requires is_open { dialogue_at meter.now self.now.number ≢ None }
        requires has_room { 0 < length input.now }
        ensures number { self.new.number ≡ self.old.number }
        ensures turns { Turns self.old.number max_steps (length frame.old)
            (record {
              meter = meter.old;
              stream = S.state self.old.stream;
              pending = self.old.pending.items;
            }) result
            (record {
              meter = meter.new;
              stream = S.state self.new.stream;
              pending = self.new.pending.items;
            }) }
    {
        'steps: for _ in 0..MAX_STEPS {
            match self.step(alloc, meter, input, frame) {
                Turn::Again => {}
                Turn::Waits => return Turn::Waits,
                Turn::Over(end) => return Turn::Over(end),
            }
        }
        Turn::Again
    }

    // Does one step: writes pending bytes, takes a frame, or reads.
    fn step(
        &mut self,
        alloc: Global,
        meter: &mut SupplyMeter,
        input: &mut [u8],
        frame: &mut [u8],
    ) -> Turn
        requires is_open { dialogue_at meter.now self.now.number ≢ None }
        requires has_room { 0 < length input.now }
        ensures number { self.new.number ≡ self.old.number }
        ensures turns { Turns self.old.number 1 (length frame.old)
            (record {
              meter = meter.old;
              stream = S.state self.old.stream;
              pending = self.old.pending.items;
            }) result
            (record {
              meter = meter.new;
              stream = S.state self.new.stream;
              pending = self.new.pending.items;
            }) }
    {
        if !self.pending.is_empty() {
            return self.write_pending();
        }
        match meter.next(alloc, self.number, frame) {
            Ok(Given::Frame(count)) => self.queue(&frame[..count]),
            Ok(Given::Wait) => self.read(meter, input),
            Ok(Given::NoRoom(_)) => Turn::Over(LinkEnd::TooLong),
            Ok(Given::End(end)) => Turn::Over(LinkEnd::Ended(end)),
            Err(_) => Turn::Over(LinkEnd::Memory),
        }
    }

    // Writes the first of the pending bytes.
    fn write_pending(&mut self) -> Turn
        requires { 0 < length self.now.pending.items }
        ensures number { self.new.number ≡ self.old.number }
        ensures writes { WritesBy (S.state self.old.stream) self.old.pending.items result
            (S.state self.new.stream) self.new.pending.items }
    {
        match self.stream.write(self.pending.as_slice()) {
            Sent::Bytes(count) => {
                self.pending.advance(count);
                Turn::Again
            }
            Sent::Blocked => Turn::Waits,
            Sent::Failed => Turn::Over(LinkEnd::Closed),
        }
    }

    // Appends a frame to the pending bytes.
    fn queue(&mut self, frame: &[u8]) -> Turn
        ensures number { self.new.number ≡ self.old.number }
        ensures stream { self.new.stream ≡ self.old.stream }
        ensures queues { QueuesBy self.old.pending.items frame.now result self.new.pending.items }
    {
        match self.pending.extend_from_slice(frame) {
            Ok(()) => Turn::Again,
            Err(_) => Turn::Over(LinkEnd::Memory),
        }
    }

    // Reads bytes and feeds them to the session.
    fn read(&mut self, meter: &mut SupplyMeter, input: &mut [u8]) -> Turn
        requires is_open { dialogue_at meter.now self.now.number ≢ None }
        requires has_room { 0 < length input.now }
        ensures number { self.new.number ≡ self.old.number }
        ensures pending { self.new.pending ≡ self.old.pending }
        ensures feeds { FeedsBy self.old.number meter.old (S.state self.old.stream) result meter.new
            (S.state self.new.stream) }
    {
        match self.stream.read(input) {
            Received::Bytes(count) => match meter.feed(self.number, &input[..count]) {
                Ok(()) => Turn::Again,
                Err(_) => Turn::Over(LinkEnd::Memory),
            },
            Received::Blocked => Turn::Waits,
            Received::Ended => Turn::Over(LinkEnd::Closed),
        }
    }
}
