//! Tests of a relay: it is given the supply output and each change, by their number.
//! tests/relay.py plays the relay of a server, also one that cannot be written, and the order of
//! disk and relay.
use meter_journal::{JournalFault, Relay, SupplyOutput};
use std::alloc::Global;
use std::io;
use std::io::{ErrorKind, Write};
use std::test::Fail;

/// An output in memory that takes at most `left` bytes, three at a time.
#[derive(Drop)]
pub(crate) struct Given {
    text: Vec<u8>,
    left: usize,
}

impl Write for Given {
    fn write(&mut self, bytes: &[u8]) -> io::Result<usize> {
        let count = bytes.len().min(self.left).min(3);
        let (front, _) = bytes.split_at(count);
        match self.text.extend_from_slice(front) {
            Ok(()) => {
                self.left -= count;
                Ok(count)
            }
            Err(_) => Err(io::Error::from(ErrorKind::OutOfMemory)),
        }
    }

    fn flush(&mut self) -> io::Result<()> {
        Ok(())
    }
}

impl SupplyOutput for Given {
    fn report_change(&self, _is_on: bool) {}

    fn report_failure(&self) {}
}

// Returns the relay of a meter whose supply is on, with an output that takes `left` bytes.
fn new_relay(alloc: Global, left: usize) -> Result<Relay<Given>, JournalFault> {
    let output = Given {
        text: Vec::new(alloc),
        left,
    };
    Relay::start(true, output)
}

// The numbers of changes that a relay is given, one after the other, and its text after them: one
// change, three at once, none, and fewer than it was given before.
static STEPS: [(u64, &[u8]); 4] = [
    (1, b"1\n0\n"),
    (4, b"1\n0\n1\n0\n1\n"),
    (4, b"1\n0\n1\n0\n1\n"),
    (2, b"1\n0\n1\n0\n1\n"),
];

// Returns whether a relay was given this text.
fn is_given(relay: &Relay<Given>, text: &[u8]) -> bool {
    relay.output().text.as_slice() == text
}

// Returns whether a relay is given these changes.
fn follows_steps(relay: &mut Relay<Given>) -> bool {
    for (switches, text) in &STEPS {
        if relay.follow(*switches) != Ok(()) || !is_given(relay, text) {
            return false;
        }
    }
    true
}

#[test]
fn each_change_is_the_other_output(rt: HostRuntime) -> Result<(), Fail> {
    let Ok(mut relay) = new_relay(rt.alloc(), 64) else {
        return Err(Fail::from("no relay"));
    };
    let follows = follows_steps(&mut relay);
    drop(relay);
    assert!(rt; follows);
    Ok(())
}

#[test]
fn a_relay_stops_at_a_line_that_is_not_written_whole(rt: HostRuntime) -> Result<(), Fail> {
    let Ok(mut relay) = new_relay(rt.alloc(), 5) else {
        return Err(Fail::from("no relay"));
    };
    let stopped = relay.follow(3) == Err(JournalFault::Relay);
    let is_front = is_given(&relay, b"1\n0\n1");
    drop(relay);
    let refused = matches!(new_relay(rt.alloc(), 0), Err(JournalFault::Relay));
    assert!(rt; stopped && is_front && refused);
    Ok(())
}
