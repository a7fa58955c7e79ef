//! The trait `SessionWatch`, which performs a session's reads, writes and calls and may record
//! their order.
ghost use Rattle.std.specs.Prelude.{◌≡◌, ◌<◌, ◌+◌, List, Option, None, IfOk, OnOk, OnErr};
ghost use Rattle.std.specs.Io.{ReadsAtMost};
ghost use Rattle.std.specs.Io.KnownBytes.{ReadConsumes, Appends};
ghost use Rattle.session_io.specs.Order.{Happening, Passes, read_entry, write_entry, call_entry};
ghost use Rattle.relay_events.specs.Kinds.{Fits};

use crate::meter::Meter;
use counted_io::{Reader, StreamFault, Writer};
use relay_events::{Event, Reply};
use std::alloc::Global;
use turn_lock::CallFault;

/// Performs the reads, the writes and the calls of a session, and may record their order.
///
/// Reader, writer and meter are three values without a common history. A watch has one: a list of
/// all reads, writes and calls, so that the contract of `watch_session` can state their order.
pub trait SessionWatch {
    // Ghost value: the reads, writes and calls so far, the last one first, if they are known.
    ghost passed: { Self → Option (List Happening) };

    /// Reads from the reader into the buffer, and returns the reader's result.
    fn read<R: Reader>(&mut self, reader: &mut R, buffer: &mut [u8]) -> Result<usize, StreamFault>
        requires { R.can_read reader.now }
        ensures bound { ReadsAtMost result buffer.new }
        ensures bytes { ReadConsumes (R.remaining reader.old) (R.remaining reader.new) result
            buffer.new }
        ensures ready { OnOk result (R.can_read reader.new) }
        ensures counted { OnOk result (R.reads reader.new ≡ R.reads reader.old + 1) }
        ensures uncounted { OnErr result (R.reads reader.new ≡ R.reads reader.old) }
        ensures failures_unchanged { OnOk result (R.failures reader.new ≡ R.failures reader.old) }
        ensures cause { OnErr result (R.failures reader.old < R.failures reader.new) }
        ensures passes { Passes (passed self.old) (read_entry result buffer.new)
            (passed self.new) };

    /// Writes all the bytes to the writer, and returns the writer's result.
    fn write_all<W: Writer>(&mut self, writer: &mut W, bytes: &[u8]) -> Result<(), StreamFault>
        requires { W.can_write writer.now }
        ensures bytes { OnOk result
            (Appends (W.contents writer.old) (W.contents writer.new) bytes.now) }
        ensures ready { OnOk result (W.can_write writer.new) }
        ensures failures_unchanged { OnOk result (W.failures writer.new ≡ W.failures writer.old) }
        ensures cause { OnErr result (W.failures writer.old < W.failures writer.new) }
        ensures passes { Passes (passed self.old) (write_entry result bytes.now)
            (passed self.new) };

    /// Calls the meter, and returns its result.
    fn call<M: Meter>(
        &mut self,
        meter: &mut M,
        alloc: Global,
        event: Event,
    ) -> Result<Reply, CallFault>
        ensures step { M.steps meter.old event result meter.new }
        ensures fits { IfOk result (Fits event) }
        ensures passes { Passes (passed self.old) (call_entry event result) (passed self.new) };
}

// Records nothing.
#[derive(Drop)]
pub(crate) struct UnwatchedSession;

impl SessionWatch for UnwatchedSession {
    ghost passed = { λ _. None };

    #[inline(always)]
    fn read<R: Reader>(&mut self, reader: &mut R, buffer: &mut [u8]) -> Result<usize, StreamFault> {
        reader.read(buffer)
    }

    #[inline(always)]
    fn write_all<W: Writer>(&mut self, writer: &mut W, bytes: &[u8]) -> Result<(), StreamFault> {
        writer.write_all(bytes)
    }

    #[inline(always)]
    fn call<M: Meter>(
        &mut self,
        meter: &mut M,
        alloc: Global,
        event: Event,
    ) -> Result<Reply, CallFault> {
        meter.call(alloc, event)
    }
}
