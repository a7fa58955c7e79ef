//! `Relay`: gives an output the state of a meter's supply, and each change of it.
ghost use Rattle.std.specs.Prelude.{◌≡◌, ◌<◌, ◌≤◌, ◌+◌, ℕ, not, IfErr, IfOk, OnErr, OnOk};
ghost use Rattle.std.specs.Io.KnownBytes.{Appends};
ghost use Rattle.meter_journal.specs.Relaying.{AppendsFront, Follows, OnRelay, StopsAt};
ghost use Rattle.meter_journal.specs.Relaying.{output_line};
ghost use Rattle.meter_journal.specs.declared.fault.JournalFault.TheVariants as fault;

use crate::fault::JournalFault;
use std::io::{ErrorKind, Write};

// The maximum number of writes for one line. Only an interrupted write is tried again with the same
// bytes.
const MAX_WRITES: usize = 1_024;

/// What is given the supply output of a meter, such as a file.
pub trait SupplyOutput: Write + Drop {
    /// Is called after a change was written.
    fn report_change(&self, is_on: bool);

    /// Is called once a write has failed. Nothing is written any more.
    fn report_failure(&self);
}

/// The relay of a meter: an output that is given the state of the supply at the start, as the line
/// `1` or `0`, and then such a line for each change. Each change is to the other value, so the
/// number of changes says which lines they are.
#[derive(Drop)]
pub struct Relay<W: SupplyOutput> {
    output: W,
    // The state that was given last.
    is_on: bool,
    // The number of changes that were given.
    given: u64,
}

// Writes bytes. After an error a front of them may have been written.
#[tactic(auto, using(crate::proofs::OutputLemmas::writes))]
fn write_bytes<W: Write>(output: &mut W, bytes: &[u8]) -> Result<(), JournalFault>
    ensures written { OnOk result
        (Appends (W.contents output.old) (W.contents output.new) bytes.now) }
    ensures front { OnErr result
        (AppendsFront (W.contents output.old) (W.contents output.new) bytes.now) }
    ensures fault { IfErr result (λ given. given ≡ fault.Relay) }
{
    let mut rest = bytes;
    'writes: for _ in 0..MAX_WRITES {
        if rest.is_empty() {
            return Ok(());
        }
        match output.write(rest) {
            Ok(0) => return Err(JournalFault::Relay),
            Ok(count) => {
                let (_, left) = rest.split_at(count);
                rest = left;
            }
            Err(error) if error.kind() == ErrorKind::Interrupted => {}
            Err(_) => return Err(JournalFault::Relay),
        }
    }
    Err(JournalFault::Relay)
}

// Writes the line for a state of the supply, and flushes the output. After an error a front of the
// line may have been written.
#[tactic(auto, using(crate::proofs::OutputLemmas::flushes))]
fn give<W: Write>(output: &mut W, is_on: bool) -> Result<(), JournalFault>
    ensures given { OnOk result
        (Appends (W.contents output.old) (W.contents output.new) (output_line is_on)) }
    ensures front { OnErr result
        (AppendsFront (W.contents output.old) (W.contents output.new) (output_line is_on)) }
    ensures fault { IfErr result (λ given. given ≡ fault.Relay) }
{
    write_bytes(output, line_for(is_on))?;
    match output.flush() {
        Ok(()) => Ok(()),
        Err(_) => Err(JournalFault::Relay),
    }
}

// Returns the line for a state of the supply.
fn line_for(is_on: bool) -> &'static [u8]
    ensures { result.now ≡ output_line is_on }
{
    if is_on { b"1\n" } else { b"0\n" }
}

impl<W: SupplyOutput> Relay<W> {
    /// Makes the relay of a meter whose supply is on or off, and writes that. The only error is
    /// `Relay`; then the line may have been written in part.
    pub fn start(is_on: bool, output: W) -> Result<Relay<W>, JournalFault>
        ensures given { IfOk result (λ relay.
            Appends (W.contents output) (W.contents relay.output) (output_line is_on)) }
        ensures state { IfOk result (λ relay. relay.is_on ≡ is_on) }
        ensures none { IfOk result (λ relay. relay.given ≡ 0) }
        ensures fault { IfErr result (λ given. given ≡ fault.Relay) }
    {
        let mut output = output;
        give(&mut output, is_on)?;
        Ok(Relay {
            output,
            is_on,
            given: 0,
        })
    }

    // Writes the line for one more change.
    fn give_change(&mut self) -> Result<(), JournalFault>
        requires { self.old.given < 18446744073709551615 }
        ensures given { OnOk result ((began : _) (n : ℕ) → Follows W.contents began n self.old
            → Follows W.contents began (n + 1) self.new) }
        ensures stopped { OnErr result ((began : _) (n : ℕ) → Follows W.contents began n self.old
            → StopsAt W.contents began self.new) }
        ensures count { OnOk result (self.new.given ≡ self.old.given + 1) }
        ensures same { OnErr result (self.new.given ≡ self.old.given) }
        ensures fault { IfErr result (λ given. given ≡ fault.Relay) }
    {
        let is_on = !self.is_on;
        if let Err(fault) = give(&mut self.output, is_on) {
            self.output.report_failure();
            return Err(fault);
        }
        self.is_on = is_on;
        self.given += 1;
        self.output.report_change(is_on);
        Ok(())
    }

    /// Writes the lines for the changes up to this number: the state of the supply after each, in
    /// order. The only error is `Relay`; then the changes that are counted were written, and also
    /// a front of the line for one more may have been.
    #[tactic(auto, using(crate::proofs::RelayLemmas::following))]
    pub fn follow(&mut self, switches: u64) -> Result<(), JournalFault>
        ensures followed { OnOk result ((began : _) (n : ℕ) → n ≤ switches
            → Follows W.contents began n self.old → Follows W.contents began switches self.new) }
        ensures stopped { OnErr result ((began : _) (n : ℕ) → Follows W.contents began n self.old
            → StopsAt W.contents began self.new × (self.new.given ≤ switches)) }
        ensures fault { IfErr result (λ given. given ≡ fault.Relay) }
    {
        'changes: while self.given < switches {
            self.give_change()?;
        }
        Ok(())
    }

    /// Returns the output.
    pub fn output(&self) -> &W
        ensures { result.now ≡ self.now.output }
    {
        &self.output
    }
}

// Writes the lines for the changes up to this number, if there is a relay.
pub(crate) fn follow_changes<W: SupplyOutput>(
    relay: &mut Option<Relay<W>>,
    switches: u64,
) -> Result<(), JournalFault>
    ensures followed { OnOk result (OnRelay (λ old new. (began : _) (n : ℕ) → n ≤ switches
        → Follows W.contents began n old → Follows W.contents began switches new)
        relay.old relay.new) }
    ensures stopped { OnErr result (OnRelay (λ old new. (began : _) (n : ℕ)
        → Follows W.contents began n old
        → StopsAt W.contents began new × (new.given ≤ switches)) relay.old relay.new) }
    ensures fault { IfErr result (λ given. given ≡ fault.Relay) }
{
    match relay {
        Some(relay) => relay.follow(switches),
        None => Ok(()),
    }
}
