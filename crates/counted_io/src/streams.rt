//! The traits `Reader` and `Writer`, which contracts see by their bytes and their numbers of reads
//! and failures.
ghost use Rattle.std.specs.Prelude.{◌≡◌, ◌<◌, ◌+◌, ℕ, List, Option, None, ⊤, OnOk, OnErr};
ghost use Rattle.std.specs.Io.{ReadsAtMost};
ghost use Rattle.std.specs.Io.KnownBytes.{ReadConsumes, Appends};

use crate::fault::StreamFault;

/// A source of bytes.
pub trait Reader {
    // Ghost value: the bytes that further reads will return, if they are known.
    ghost remaining: { Self → Option (List ℕ) } = { λ _. None };

    // The number of successful reads.
    ghost reads: { Self → ℕ };

    // The number of failed reads.
    ghost failures: { Self → ℕ };

    // Ghost predicate: the reader can be read. It may become false at the first failure.
    ghost can_read: { Self → Type 0 } = { λ _. ⊤ };

    /// Reads into the buffer and returns the number of bytes read: 0 at the end of the bytes, or if
    /// the buffer is empty.
    fn read(&mut self, buffer: &mut [u8]) -> Result<usize, StreamFault>
        requires { can_read self.now }
        ensures bound { ReadsAtMost result buffer.new }
        ensures bytes { ReadConsumes (remaining self.old) (remaining self.new) result buffer.new }
        ensures ready { OnOk result (can_read self.new) }
        ensures counted { OnOk result (reads self.new ≡ reads self.old + 1) }
        ensures uncounted { OnErr result (reads self.new ≡ reads self.old) }
        ensures failures_unchanged { OnOk result (failures self.new ≡ failures self.old) }
        ensures cause { OnErr result (failures self.old < failures self.new) };
}

/// A destination of bytes.
pub trait Writer {
    // Ghost value: the bytes written so far, if they are known.
    ghost contents: { Self → Option (List ℕ) } = { λ _. None };

    // The number of failed writes.
    ghost failures: { Self → ℕ };

    // Ghost predicate: the writer can be written. It may become false at the first failure.
    ghost can_write: { Self → Type 0 } = { λ _. ⊤ };

    /// Writes all the bytes. If it fails, some of them may have been written.
    fn write_all(&mut self, bytes: &[u8]) -> Result<(), StreamFault>
        requires { can_write self.now }
        ensures bytes { OnOk result (Appends (contents self.old) (contents self.new) bytes.now) }
        ensures ready { OnOk result (can_write self.new) }
        ensures failures_unchanged { OnOk result (failures self.new ≡ failures self.old) }
        ensures cause { OnErr result (failures self.old < failures self.new) };
}
