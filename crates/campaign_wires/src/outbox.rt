//! `Outbox`: the messages that wait to be written.
ghost use Rattle.std.specs.Prelude.{◌≡◌, ◌↔◌, ◌++◌, [], IsTrue, OnErr, OnOk};
ghost use Rattle.campaign_wires.specs.Outboxes.{WritesFront};

use std::alloc::{AllocError, Global};
use std::io::{ErrorKind, Write};
use std::marker::Model;

// The result of a write.
#[derive(Clone, Copy, Debug, PartialEq, Eq)]
pub(crate) enum Written {
    // All bytes are written.
    All,
    // The stream took some of the bytes.
    Some,
    // The stream takes no bytes now.
    Blocked,
    // The stream takes no bytes any more.
    Failed,
}

// The bytes that wait to be written. Contracts see the list of them.
#[derive(Drop)]
pub(crate) struct Outbox {
    // Of these bytes the first `written` are written.
    text: Vec<u8>,
    written: usize,
}

impl Model for Outbox {
    ghost use Rattle.std.specs.Prelude.{◌≤◌, ℕ, List, drop, length};

    ghost Value = { List ℕ };

    ghost view = { λ outbox. drop outbox.written outbox.text.items };

    ghost invariant = { λ outbox. outbox.written ≤ length outbox.text.items };
}

impl Outbox {
    // Returns an outbox without bytes.
    pub(crate) fn new(alloc: Global) -> Outbox
        ensures { result ≡ [] }
    {
        Outbox {
            text: Vec::new(alloc),
            written: 0,
        }
    }

    // Returns whether no bytes wait.
    #[tactic(auto, using(crate::proofs::OutboxLemmas::none_waits))]
    pub(crate) fn is_empty(&self) -> bool
        ensures { IsTrue result ↔ (self.now ≡ []) }
    {
        self.written == self.text.len()
    }

    // Adds bytes after those that wait. If out of memory, nothing changes.
    pub(crate) fn add(&mut self, bytes: &[u8]) -> Result<(), AllocError>
        ensures ok { OnOk result (self.new ≡ self.old ++ bytes.now) }
        ensures err { OnErr result (self.new ≡ self.old) }
    {
        self.text.extend_from_slice(bytes)
    }

    // Writes as many of the bytes as a stream takes at once.
    #[tactic(auto, using(crate::proofs::OutboxLemmas::wrote_none, crate::proofs::OutboxLemmas::wrote_some))]
    fn write_some<W: Write>(&mut self, stream: &mut W) -> Written
        ensures { WritesFront (W.contents stream.old) (W.contents stream.new) self.old self.new }
    {
        let (_, rest) = self.text.as_slice().split_at(self.written);
        match stream.write(rest) {
            Ok(count) if count > 0 => {
                self.written += count;
                Written::Some
            }
            Err(error) if error.kind() == ErrorKind::WouldBlock => Written::Blocked,
            _ => Written::Failed,
        }
    }

    // Drops the bytes that are written.
    fn forget(&mut self)
        requires { self.old ≡ [] }
        ensures { self.new ≡ [] }
    {
        self.written = 0;
        self.text.clear();
    }

    // Writes the bytes to a stream until it takes no more.
    #[tactic(auto, using(crate::proofs::OutboxLemmas::wrote_none, crate::proofs::OutboxLemmas::wrote_both))]
    pub(crate) fn write_to<W: Write>(&mut self, stream: &mut W) -> Written
        ensures front { WritesFront (W.contents stream.old) (W.contents stream.new) self.old
            self.new }
        ensures none_waits { result ≡ Written.All → self.new ≡ [] }
    {
        'writes: for _ in 0..self.text.len() {
            if self.is_empty() {
                break 'writes;
            }
            match self.write_some(stream) {
                Written::Some => {}
                Written::Blocked => return Written::Blocked,
                Written::All | Written::Failed => return Written::Failed,
            }
        }
        if !self.is_empty() {
            return Written::Blocked;
        }
        self.forget();
        Written::All
    }
}
