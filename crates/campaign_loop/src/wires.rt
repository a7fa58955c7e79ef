//! `Wires`: the connections of a campaign's loop.
ghost use Rattle.std.specs.Prelude.{◌≡◌, ◌<◌, List, Option, None, length};
ghost use Rattle.campaign_loop.specs.Wires.{Wire, opened, sent, closed, Logs, ReadLogs, IsWithin};

use cosem_axdr::Octets;

/// The result of a read.
#[derive(Clone, Copy, Debug, PartialEq, Eq)]
pub enum WireRead {
    /// This many bytes, at least one, were copied to the start of the buffer.
    Bytes(usize),
    /// No bytes have arrived.
    Blocked,
    /// The connection has ended or failed, could not be opened, or its time limit is reached.
    Ended,
}

/// What a wait says of the campaign.
#[derive(Clone, Copy, Debug, PartialEq, Eq)]
pub enum Waited {
    /// It goes on.
    GoOn,
    /// No further job may begin: what began is finished.
    Stop,
}

/// The error if the connections cannot be waited for. The loop then closes all of them.
#[derive(Clone, Copy, Debug, PartialEq, Eq)]
pub struct WireFault;

/// The connections of a campaign's loop, each named by the place of its job. No name is used twice.
///
/// A connection that cannot be opened, and one whose time limit is reached, is reported by `wait`,
/// and `read` then returns `Ended`.
pub trait Wires {
    // Ghost value: what has happened on the connections, the newest first, if it is known. The
    // default claims nothing.
    ghost log: { Self → Option (List Wire) } = { λ _. None };

    /// Returns whether a further connection can be opened now. If not, `wait` returns once that may
    /// have changed.
    fn has_room(&self) -> bool;

    /// Begins to open the connection of a place, to an address.
    fn open(&mut self, at: u32, address: &Octets)
        ensures { Logs (log self.old) (opened at address.now) (log self.new) };

    /// Waits until connections can be read, or further ones opened, and appends the places of the
    /// former. Does not wait if `may_wait` is false. If out of memory, some are left out, and
    /// reported by a later call. Once it returned `Stop`, no further connection is opened.
    fn wait(&mut self, may_wait: bool, ready: &mut Vec<u32>) -> Result<Waited, WireFault>
        ensures { log self.new ≡ log self.old };

    /// Reads from the connection of a place into a buffer that is not empty. A connection that was
    /// reported once must be read until it returns `Blocked` or `Ended`.
    fn read(&mut self, at: u32, buffer: &mut [u8]) -> WireRead
        requires { 0 < length buffer.now }
        ensures bound { IsWithin result buffer.new }
        ensures log { ReadLogs (log self.old) at result buffer.new (log self.new) };

    /// Sends a message, after those before it, as soon as the connection takes it.
    fn send(&mut self, at: u32, text: Octets)
        ensures { Logs (log self.old) (sent at text) (log self.new) };

    /// Returns whether the connection of a place was opened, for a message about it.
    fn was_open(&self, at: u32) -> bool;

    /// Closes the connection of a place, once its messages are sent.
    fn close(&mut self, at: u32)
        ensures { Logs (log self.old) (closed at) (log self.new) };
}
