//! Streams with each fault, above a stream that is written by hand.
ghost use Rattle.std.specs.Prelude.{None, if◌then◌else◌};

use fleet_faults::{FaultCourse, FaultyStream, InjectedFault};
use fleet_links::{Received, Sent, Stream};
use std::alloc::Global;
use std::process::Abort;
use std::test::Fail;

/// A stream on which one byte arrives at each read. It takes `room` bytes at each write, and keeps
/// them.
#[derive(Drop)]
struct Line {
    written: Vec<u8>,
    room: usize,
    has_blocked: bool,
    has_ended: bool,
}

impl Stream for Line {
    ghost state = { λ s. record {
      arrived = None;
      written = None;
      blocks = if s.has_blocked then 1 else 0;
      ends = if s.has_ended then 1 else 0;
    } };

    fn read(&mut self, buffer: &mut [u8]) -> Received {
        buffer[0] = 42;
        Received::Bytes(1)
    }

    fn write(&mut self, bytes: &[u8]) -> Sent {
        let count = self.room.min(bytes.len());
        if count == 0 {
            self.has_blocked = !self.has_blocked;
            return Sent::Blocked;
        }
        match self.written.extend_from_slice(&bytes[..count]) {
            Ok(()) => Sent::Bytes(count),
            Err(_) => {
                self.has_ended = !self.has_ended;
                Sent::Failed
            }
        }
    }
}

/// Returns a stream with this fault, above one that takes `room` bytes at each write.
fn new_stream(alloc: Global, fault: Option<InjectedFault>, room: usize) -> FaultyStream<Line> {
    let line = Line {
        written: Vec::new(alloc),
        room,
        has_blocked: false,
        has_ended: false,
    };
    FaultyStream::new(line, fault)
}

/// Reads once, and writes two frames of ten bytes, as a connection does: until all bytes are taken
/// or the stream blocks or fails. Returns the result of the read and of the last write.
fn exchange(stream: &mut FaultyStream<Line>) -> (Received, Sent) {
    let mut buffer = [0; 4];
    let received = stream.read(&mut buffer);
    let mut sent = Sent::Blocked;
    for frame in [b"0123456789", b"abcdefghij"] {
        let mut from = 0;
        for _ in 0..10 {
            if from < 10 {
                sent = stream.write(&frame[from..]);
                match sent {
                    Sent::Bytes(count) => from = from.saturating_add(count),
                    _ => return (received, sent),
                }
            }
        }
    }
    (received, sent)
}

/// Returns the result of the read and of the last write over a stream with this fault, if the
/// client was then sent exactly these bytes.
fn result_of(
    rt: &impl Abort,
    alloc: Global,
    fault: Option<InjectedFault>,
    room: usize,
    client: &[u8],
) -> (Received, Sent) {
    let mut stream = new_stream(alloc, fault, room);
    let results = exchange(&mut stream);
    let is_so = stream.stream.written.as_slice() == client;
    drop(stream);
    assert!(rt; is_so);
    results
}

#[test]
fn a_stream_without_a_fault_passes_all_on(rt: HostRuntime) -> Result<(), Fail> {
    let all = b"0123456789abcdefghij".as_slice();
    for fault in [None, Some(InjectedFault::Slow)] {
        for (room, last) in [(10, 10), (3, 1), (1, 1)] {
            let results = result_of(&rt, rt.alloc(), fault, room, all);
            assert!(rt; results == (Received::Bytes(1), Sent::Bytes(last)));
        }
    }
    Ok(())
}

#[test]
fn a_silent_stream_drops_all(rt: HostRuntime) -> Result<(), Fail> {
    let results = result_of(&rt, rt.alloc(), Some(InjectedFault::Silent), 3, b"");
    assert!(rt; results == (Received::Bytes(1), Sent::Bytes(10)));
    Ok(())
}

#[test]
fn a_stream_vanishes_in_the_second_frame(rt: HostRuntime) -> Result<(), Fail> {
    for room in [10, 4, 3, 1] {
        let fault = Some(InjectedFault::Vanishes);
        let results = result_of(&rt, rt.alloc(), fault, room, b"0123456789abcde");
        assert!(rt; results == (Received::Bytes(1), Sent::Failed));
    }
    Ok(())
}

#[test]
fn a_stream_that_closes_sends_nothing(rt: HostRuntime) -> Result<(), Fail> {
    let results = result_of(&rt, rt.alloc(), Some(InjectedFault::Closes), 10, b"");
    assert!(rt; results == (Received::Ended, Sent::Failed));
    Ok(())
}

#[test]
fn a_blocked_write_is_tried_again(rt: HostRuntime) -> Result<(), Fail> {
    let mut stream = new_stream(rt.alloc(), Some(InjectedFault::Vanishes), 10);
    let first = stream.write(b"AARE");
    stream.stream.room = 0;
    let blocked = stream.write(b"answer");
    let course = stream.course;
    stream.stream.room = 10;
    let half = stream.write(b"answer");
    let last = stream.write(b"wer");
    let is_so = stream.stream.written.as_slice() == b"AAREans".as_slice();
    drop(stream);
    assert!(rt;
        first == Sent::Bytes(4)
            && blocked == Sent::Blocked
            && course == FaultCourse::CutsNext
            && half == Sent::Bytes(3)
            && last == Sent::Failed
            && is_so
    );
    Ok(())
}
