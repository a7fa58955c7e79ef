//! `FaultyStream`: a stream that has a fault.
ghost use Rattle.std.specs.Prelude.{◌≡◌, ◌≢◌, ◌<◌, length, take};
ghost use Rattle.fleet_links.specs.Streams.{ReadBy, WrittenBy};
ghost use Rattle.fleet_links.specs.declared.stream.Sent.TheVariants.{Failed};
ghost use Rattle.fleet_faults.specs.FaultyStreams.{ReadsBy, WritesBy, GivesBelow, course_cut};
ghost use Rattle.fleet_faults.specs.FaultyStreams.{course_of, has_ended, own_ends, state_of};
ghost use Rattle.fleet_faults.specs.declared.stream.FaultCourse.TheVariants.{Drops, SendsFirst};

use crate::fault::InjectedFault;
use fleet_links::{Received, Sent, Stream};

/// What a stream does with the bytes that are written.
#[derive(Clone, Copy, Debug, PartialEq, Eq)]
pub enum FaultCourse {
    /// It passes all bytes on.
    Passes,
    /// It drops all bytes.
    Drops,
    /// It passes on all bytes of the first frame.
    SendsFirst,
    /// It passes on the first half of the next frame, and then ends.
    CutsNext,
    /// It passes on this number of bytes, and then ends.
    Ends(usize),
}

/// A stream with a fault, above the stream to the client. A frame is what is written until a write
/// takes all its bytes.
#[derive(Drop)]
pub struct FaultyStream<S: Stream + Drop> {
    /// The stream to the client.
    pub stream: S,
    /// What it does with the bytes that are written.
    pub course: FaultCourse,
    /// Changes with each read and each write that finds it ended by itself.
    pub has_ended: bool,
}

// Returns the first of the bytes, at most `left`.
#[tactic(auto, using(std::proofs::lemmas::List::take_all))]
fn first_bytes(bytes: &[u8], left: usize) -> &[u8]
    ensures { result.now ≡ take left bytes.now }
{
    if left < bytes.len() {
        &bytes[..left]
    } else {
        bytes
    }
}

impl<S: Stream + Drop> FaultyStream<S> {
    /// Returns a stream to the client of a meter that has this fault, or none. `Slow` has no effect
    /// here: see `Delays`. Nor have `WrongPassword` and `Refuses`, which are faults of the meter
    /// itself.
    pub fn new(stream: S, fault: Option<InjectedFault>) -> FaultyStream<S>
        ensures stream { result.stream ≡ stream }
        ensures course { result.course ≡ course_of fault }
    {
        let course = match fault {
            None => FaultCourse::Passes,
            Some(InjectedFault::Slow | InjectedFault::WrongPassword | InjectedFault::Refuses) => {
                FaultCourse::Passes
            }
            Some(InjectedFault::Silent) => FaultCourse::Drops,
            Some(InjectedFault::Vanishes) => FaultCourse::SendsFirst,
            Some(InjectedFault::Closes) => FaultCourse::Ends(0),
        };
        FaultyStream {
            stream,
            course,
            has_ended: false,
        }
    }

    // Writes bytes of the first frame. Once all are taken, the next frame follows.
    fn write_first(&mut self, bytes: &[u8]) -> Sent
        requires has_bytes { 0 < length bytes.now }
        requires course { self.old.course ≡ SendsFirst }
        ensures known { WrittenBy
            (state_of self.old.course (own_ends self.old.has_ended) (S.state self.old.stream))
            bytes.now result
            (state_of self.new.course (own_ends self.new.has_ended) (S.state self.new.stream)) }
        ensures below { WritesBy self.old.course (S.state self.old.stream) bytes.now result
            self.new.course (S.state self.new.stream) }
    {
        let sent = self.stream.write(bytes);
        if let Sent::Bytes(count) = sent {
            if count == bytes.len() {
                self.course = FaultCourse::CutsNext;
            }
        }
        sent
    }

    // Writes at most `left` of the bytes, and ends if there are none.
    fn write_within(&mut self, bytes: &[u8], left: usize) -> Sent
        requires has_bytes { 0 < length bytes.now }
        requires course { self.old.course ≢ Drops }
        ensures known { WrittenBy
            (state_of self.old.course (own_ends self.old.has_ended) (S.state self.old.stream))
            bytes.now result
            (state_of self.new.course (own_ends self.new.has_ended) (S.state self.new.stream)) }
        ensures below { GivesBelow (take left bytes.now) Failed (S.state self.old.stream) result
            (S.state self.new.stream) }
        ensures course { self.new.course ≡ course_cut self.old.course left result }
    {
        let given = first_bytes(bytes, left);
        if given.is_empty() {
            self.has_ended = !self.has_ended;
            return Sent::Failed;
        }
        let sent = self.stream.write(given);
        if let Sent::Bytes(count) = sent {
            self.course = FaultCourse::Ends(left.saturating_sub(count));
        }
        sent
    }
}

impl<S: Stream + Drop> Stream for FaultyStream<S> {
    ghost state = { λ s. state_of s.course (own_ends s.has_ended) (S.state s.stream) };

    /// Reads from the stream to the client, unless it has ended.
    fn read(&mut self, buffer: &mut [u8]) -> Received
        requires { 0 < length buffer.now }
        ensures known { ReadBy
            (state_of self.old.course (own_ends self.old.has_ended) (S.state self.old.stream))
            buffer.new result
            (state_of self.new.course (own_ends self.new.has_ended) (S.state self.new.stream)) }
        ensures course { self.new.course ≡ self.old.course }
        ensures below { ReadsBy (has_ended self.old.course) (S.state self.old.stream) buffer.new
            result (S.state self.new.stream) }
    {
        if self.course == FaultCourse::Ends(0) {
            self.has_ended = !self.has_ended;
            return Received::Ended;
        }
        self.stream.read(buffer)
    }

    /// Passes bytes on to the stream to the client as the course says.
    fn write(&mut self, bytes: &[u8]) -> Sent
        requires { 0 < length bytes.now }
        ensures known { WrittenBy
            (state_of self.old.course (own_ends self.old.has_ended) (S.state self.old.stream))
            bytes.now result
            (state_of self.new.course (own_ends self.new.has_ended) (S.state self.new.stream)) }
        ensures below { WritesBy self.old.course (S.state self.old.stream) bytes.now result
            self.new.course (S.state self.new.stream) }
    {
        match self.course {
            FaultCourse::Passes => self.stream.write(bytes),
            FaultCourse::Drops => Sent::Bytes(bytes.len()),
            FaultCourse::SendsFirst => self.write_first(bytes),
            FaultCourse::CutsNext => self.write_within(bytes, bytes.len() / 2),
            FaultCourse::Ends(left) => self.write_within(bytes, left),
        }
    }
}
