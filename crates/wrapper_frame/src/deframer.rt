//! `Deframer`: buffers the bytes of a stream and returns its frames, wherever the stream is split
//! (IEC 62056-4-7).
ghost use Rattle.std.specs.Prelude.{◌≡◌, ◌≤◌, ◌+◌, ◌↔◌, [], ◌++◌, length, take, drop, Some, IsTrue, IfOk, IfErr, OnOk, OnErr, IsErrOf};
ghost use Rattle.wrapper_frame.specs.Header.{header_size, src_of, dst_of, head_of};
ghost use Rattle.wrapper_frame.specs.Messages.{first_frame, after_first};
ghost use Rattle.wrapper_frame.specs.Stream.{Fronts, TakesFirst, KeepsFrames, StopsBy};
ghost use Rattle.wrapper_frame.specs.declared.header.Head.TheVariants.{BadVersion, TooLong, Whole};

use crate::fault::WrapperFault;
use crate::header::{DST_AT, HEADER_SIZE, Head, SRC_AT, judge};
use crate::parts::Frame;
use byteorder::{BigEndian, ByteOrder};
use bytes::BytesMut;
use std::alloc::{AllocError, Global};
use std::marker::Model;
use wire_bytes::Octets;

/// A buffer of the bytes of a stream that were fed and not yet removed as frames. Contracts refer
/// to it as the list of these bytes.
///
/// Bytes from a wrong header on are never removed, so every later call returns the fault of that
/// header. The frames before it are returned first.
#[derive(Debug, Drop)]
pub struct Deframer {
    pending: BytesMut,
    // The result of `judge` for the pending bytes.
    front: Head,
}

impl Model for Deframer {
    ghost use Rattle.std.specs.Prelude.{◌≡◌, List, ℕ};
    ghost use Rattle.wrapper_frame.specs.Header.{head_of};

    ghost Value = { List ℕ };

    ghost view = { λ deframer. deframer.pending.items };

    ghost invariant = { λ deframer. deframer.front ≡ head_of deframer.pending.items };
}

impl Deframer {
    /// Creates an empty deframer. Does not allocate.
    #[tactic(auto, unfolding(crate::specs::Header::head_of))]
    pub fn new(alloc: Global) -> Self
        ensures { result ≡ [] }
    {
        Deframer {
            pending: BytesMut::new(alloc),
            front: Head::Part,
        }
    }

    /// Returns a copy of the deframer in a newly allocated buffer.
    pub fn try_clone(&self, alloc: Global) -> Result<Deframer, AllocError>
        ensures { IfOk result (λ deframer. deframer ≡ self.now) }
    {
        let mut pending = BytesMut::new(alloc);
        pending.extend_from_slice(self.pending.as_slice())?;
        Ok(Deframer {
            pending,
            front: self.front,
        })
    }

    /// Returns whether no bytes are pending.
    pub fn is_empty(&self) -> bool
        ensures { IsTrue result ↔ (self.now ≡ []) }
    {
        self.pending.is_empty()
    }

    /// Appends the next bytes of the stream to the pending ones; a frame may be split at any byte.
    /// After an error the deframer is unchanged.
    #[tactic(auto, using(crate::proofs::CutLemmas::stops_version, crate::proofs::CutLemmas::stops_long))]
    pub fn feed(&mut self, bytes: &[u8]) -> Result<(), WrapperFault>
        ensures ok { OnOk result (self.new ≡ self.old ++ bytes.now) }
        ensures err { OnErr result (self.new ≡ self.old) }

        // A wrong header at the front is reported again by each call.
        ensures version { IsErrOf result WrapperFault.Version ↔ (head_of self.old ≡ BadVersion) }
        ensures too_long { IsErrOf result WrapperFault.TooLong ↔ (head_of self.old ≡ TooLong) }
        ensures stops { IfErr result (λ fault. StopsBy fault self.old) }
    {
        match self.front {
            Head::BadVersion => return Err(WrapperFault::Version),
            Head::TooLong => return Err(WrapperFault::TooLong),
            Head::Part | Head::Whole(_) => {}
        }
        self.pending.extend_from_slice(bytes)?;
        let pending = self.pending.as_slice();
        self.front = judge(pending);
        Ok(())
    }

    /// Returns the judgement of the front of the pending bytes. They are judged when they come, and
    /// again when a frame is removed.
    #[tactic(auto, using(crate::proofs::CutLemmas::fronts))]
    pub fn front(&self) -> Head
        ensures head { result ≡ head_of self.now }
        ensures means { Fronts self.now result }
    {
        self.front
    }

    /// Returns the ports in the header at the front: source and destination.
    pub fn ports(&self) -> (u16, u16)
        requires { header_size ≤ length self.now }
        ensures src { result.0 ≡ src_of self.now }
        ensures dst { result.1 ≡ dst_of self.now }
    {
        let header = self.pending.as_slice();
        (
            BigEndian::read_u16(&header[SRC_AT..]),
            BigEndian::read_u16(&header[DST_AT..]),
        )
    }

    /// Returns the payload of `size` bytes after the header at the front, without copying it.
    pub fn payload(&self, size: usize) -> &[u8]
        requires { header_size + size ≤ length self.now }
        ensures { result.now ≡ take size (drop header_size self.now) }
    {
        &self.pending.as_slice()[HEADER_SIZE..HEADER_SIZE + size]
    }

    /// Removes the frame at the front, whose payload has `size` bytes.
    #[tactic(auto, using(crate::proofs::CutLemmas::whole_there))]
    pub fn pass(&mut self, size: usize)
        requires { head_of self.old ≡ Whole size }
        ensures new_state { self.new ≡ after_first size self.old }
        ensures keeps_frames { KeepsFrames self.old (Some (first_frame size self.old)) self.new }
    {
        self.pending.advance(HEADER_SIZE + size);
        self.front = judge(self.pending.as_slice());
    }

    /// Removes and returns the first frame, or returns `None` if only part of one is pending. After
    /// an error the deframer is unchanged.
    #[tactic(auto, using(crate::proofs::CutLemmas::is_part, crate::proofs::CutLemmas::stops_version, crate::proofs::CutLemmas::stops_long))]
    pub fn take(&mut self, alloc: Global) -> Result<Option<Frame>, WrapperFault>
        ensures taken { IfOk result (λ taken. TakesFirst self.old taken self.new) }
        ensures keeps_frames { IfOk result (λ taken. KeepsFrames self.old taken self.new) }
        ensures err { OnErr result (self.new ≡ self.old) }

        // A wrong header at the front is reported again by each call.
        ensures version { IsErrOf result WrapperFault.Version ↔ (head_of self.old ≡ BadVersion) }
        ensures too_long { IsErrOf result WrapperFault.TooLong ↔ (head_of self.old ≡ TooLong) }
        ensures stops { IfErr result (λ fault. StopsBy fault self.old) }
    {
        match self.front() {
            Head::Part => Ok(None),
            Head::BadVersion => Err(WrapperFault::Version),
            Head::TooLong => Err(WrapperFault::TooLong),
            Head::Whole(size) => {
                let bytes = self.pending.as_slice();
                let frame = Frame {
                    src: BigEndian::read_u16(&bytes[SRC_AT..]),
                    dst: BigEndian::read_u16(&bytes[DST_AT..]),
                    payload: Octets::from_slice(alloc, &bytes[HEADER_SIZE..HEADER_SIZE + size])?,
                };
                self.pass(size);
                Ok(Some(frame))
            }
        }
    }
}
