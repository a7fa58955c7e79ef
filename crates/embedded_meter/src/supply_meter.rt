//! `SupplyMeter`: one meter with its last events and up to eight sessions, for a caller without
//! threads.
ghost use Rattle.std.specs.Prelude.{◌≡◌, ℕ, ◌<◌, ◌≤◌, false, Some, None, length, IfOk, IsOk, IsTrue, OnErr};
ghost use Rattle.acse_ber.specs.Password.{IsPassword};
ghost use Rattle.disconnect_control.specs.declared.state.ControlState.TheVariants.{Connected};
ghost use Rattle.disconnect_control.specs.Transitions.{is_state};
ghost use Rattle.lane_sampler.specs.Samples.{values_alone, pairs_of};
ghost use Rattle.relay_core.specs.Machine.{is_sure};
ghost use Rattle.relay_events.specs.Kinds.{Fits};
ghost use Rattle.relay_core.specs.Stands.{StandsFor};
ghost use Rattle.relay_core.specs.World.{World, IsDeviceName};
ghost use Rattle.relay_events.specs.declared.event.Event.TheVariants.{Button};
ghost use Rattle.relay_events.specs.declared.reply.Reply.TheVariants.{Code};
ghost use Rattle.embedded_meter.specs.Calls.{IsNew, OpensBy, FeedsBy, FinishesBy, NextBy, ClosesBy, SamplesBy, TakesMoment};
ghost use Rattle.embedded_meter.specs.Memory.{HasSureNext};
ghost use Rattle.embedded_meter.specs.MeterStates.{Takes, dialogue_at};
ghost use Rattle.embedded_meter.specs.Progress.{GivesAtMost};
ghost use Rattle.relay_recorder.specs.Recording.{IsCapacity};
ghost use Rattle.session_core.specs.Standard.{greatest_frame};

use crate::connection::ClientSession;
use crate::fault::MeterFault;
use crate::given::{Fired, Given, Tick};
use cosem_axdr::Octets;
use cosem_names::ResultCode;
use disconnect_control::{ControlMode, ControlState};
use lane_sampler::{Block, BlockMade};
use relay_events::{Event, Reply};
use relay_recorder::Recorder;
use std::alloc::{AllocError, Global};
use std::fmt::{self, Debug, Formatter};
use std::marker::Model;
use std::mem::replace;

/// The maximum number of open sessions. Sessions have the numbers below it.
pub const SESSIONS: usize = 8;

/// A meter with its last events, and the sessions of its clients, each with a number of 0 to 7.
#[derive(Drop)]
pub struct SupplyMeter {
    recorder: Recorder,
    password: Octets,
    places: [Option<ClientSession>; SESSIONS],
}

// Puts a session into a place.
fn put(place: &mut Option<ClientSession>, connection: ClientSession)
    ensures { place.new ≡ Some connection }
{
    *place = Some(connection);
}

impl Model for SupplyMeter {
    ghost use Rattle.std.specs.Coded.{codes};
    ghost use Rattle.relay_recorder.specs.contracts.recorder.Recorder as recorder_row;
    ghost use Rattle.embedded_meter.specs.contracts.connection.ClientSession as connection_row;
    ghost use Rattle.embedded_meter.specs.MeterStates.{MeterState, IsMeterState};

    ghost Value = { MeterState };

    ghost coded = { Prim.hlevel (codes, recorder_row.the_row.coded, connection_row.the_row.coded) };

    ghost view = { λ m. record {
      recorder = m.recorder;
      password = m.password;
      places = m.places;
    } };

    ghost invariant = { λ m.
        IsMeterState (record { recorder = m.recorder; password = m.password; places = m.places }) };
}

// Formats the meter without the password and without the sessions, whose bytes may contain one.
impl Debug for SupplyMeter {
    fn fmt<W: fmt::Write>(&self, f: &mut Formatter<W>) -> fmt::Result {
        f.debug_struct("SupplyMeter")
            .field("recorder", &self.recorder)
            .finish_non_exhaustive()
    }
}

impl SupplyMeter {
    /// Returns a new meter without open sessions. `device` is its name, 1 to 16 bytes; the meter
    /// keeps the last `kept_events` events, 1 to 1,024; `password`, 1 to 32 bytes, is that of the
    /// management client.
    pub fn new(
        alloc: Global,
        device: &Octets,
        password: &Octets,
        kept_events: u16,
    ) -> Result<SupplyMeter, AllocError>
        requires device { IsDeviceName device.now }
        requires password { IsPassword password.now }
        requires kept_events { IsCapacity kept_events }
        ensures { IfOk result (IsNew device.now password.now kept_events) }
    {
        let password = password.try_clone(alloc)?;
        let recorder = Recorder::new(alloc, device, kept_events)?;
        Ok(SupplyMeter::from_recorder(recorder, password))
    }

    // Returns a meter with this recorder and without open sessions.
    pub(crate) fn from_recorder(recorder: Recorder, password: Octets) -> SupplyMeter
        requires { IsPassword password }
        ensures recorder { result.recorder ≡ recorder }
        ensures password { result.password ≡ password }
        ensures sessions { (number : ℕ) → dialogue_at result number ≡ None }
    {
        SupplyMeter {
            recorder,
            password,
            places: [None, None, None, None, None, None, None, None],
        }
    }

    // Returns the core with its last events.
    pub(crate) fn recorder(&self) -> &Recorder
        ensures { result.now ≡ self.now.recorder }
    {
        &self.recorder
    }

    /// Opens a session with a number of 0 to 7. Errors, in this order: `NoSession` if the number is
    /// above 7, `SessionTaken`, `Memory`.
    pub fn open_session(&mut self, alloc: Global, number: u8) -> Result<(), MeterFault>
        ensures { OpensBy self.old number result self.new }
    {
        if usize::from(number) >= SESSIONS {
            return Err(MeterFault::NoSession);
        }
        let place = &mut self.places[usize::from(number)];
        if place.is_some() {
            return Err(MeterFault::SessionTaken);
        }
        match ClientSession::new(alloc, &self.password) {
            Ok(connection) => {
                put(place, connection);
                Ok(())
            }
            Err(_) => Err(MeterFault::Memory),
        }
    }

    /// Passes the next bytes to a session, split at any place. A session that is over, or whose
    /// input has ended, ignores them. Errors: `NoSession`, `Memory`.
    pub fn feed(&mut self, number: u8, bytes: &[u8]) -> Result<(), MeterFault>
        ensures { FeedsBy self.old number bytes.now result self.new }
    {
        if !self.has_place(number) {
            return Err(MeterFault::NoSession);
        }
        let fed = &mut self.places[usize::from(number)];
        match fed {
            Some(connection) => match connection.feed(bytes) {
                Ok(()) => Ok(()),
                Err(_) => Err(MeterFault::Memory),
            },
            None => Err(MeterFault::NoSession),
        }
    }

    /// Ends the input of a session. Errors: `NoSession`.
    pub fn finish(&mut self, number: u8) -> Result<(), MeterFault>
        ensures { FinishesBy self.old number result self.new }
    {
        if !self.has_place(number) {
            return Err(MeterFault::NoSession);
        }
        let ended = &mut self.places[usize::from(number)];
        match ended {
            Some(connection) => {
                connection.finish();
                Ok(())
            }
            None => Err(MeterFault::NoSession),
        }
    }

    /// Applies the requests of a session to the meter, up to the next frame, copies the frame to
    /// `buffer`, and returns what the caller must do. A frame has at most 1,032 bytes; one that is
    /// longer than the buffer stays pending. Errors: `NoSession`; `Memory`, after which the effects
    /// so far remain, and the same call continues from there.
    ///
    /// Never runs out of memory for a short request (a SET of one attribute to an enum, an ACTION
    /// with an integer, a GET of a boolean or an enum) whose event is sure, such as each for the
    /// disconnect control, if the buffer has 14 bytes.
    pub fn next(
        &mut self,
        alloc: Global,
        number: u8,
        buffer: &mut [u8],
    ) -> Result<Given, MeterFault>
        ensures next { NextBy self.old number buffer.old result self.new buffer.new }
        ensures sure { HasSureNext self.old number buffer.old → IsOk result }
        // A frame has at most 1,032 bytes, so a buffer of this length never gives `NoRoom`.
        ensures within_max { IfOk result (GivesAtMost greatest_frame) }
    {
        if !self.has_place(number) {
            return Err(MeterFault::NoSession);
        }
        let served = &mut self.places[usize::from(number)];
        match served {
            Some(connection) => match connection.next(alloc, &mut self.recorder, buffer) {
                Ok(given) => Ok(given),
                Err(_) => Err(MeterFault::Memory),
            },
            None => Err(MeterFault::NoSession),
        }
    }

    /// Closes a session, in whatever state it is, and drops it. Errors: `NoSession`.
    pub fn close_session(&mut self, number: u8) -> Result<(), MeterFault>
        ensures { ClosesBy self.old number result self.new }
    {
        if !self.has_place(number) {
            return Err(MeterFault::NoSession);
        }
        match replace(&mut self.places[usize::from(number)], None) {
            Some(connection) => {
                drop(connection);
                Ok(())
            }
            None => Err(MeterFault::NoSession),
        }
    }

    // Returns whether a session can have this number.
    #[tactic(auto, using(std::proofs::lemmas::List::get_or_past))]
    fn has_place(&self, number: u8) -> bool
        ensures within { IsTrue result → number < 8 }
        ensures none { result ≡ false → (8 ≤ number) × (dialogue_at self.now number ≡ None) }
    {
        let _places = &self.places;
        usize::from(number) < SESSIONS
    }

    /// Applies a press of the meter's button, and returns its result. It does not allocate.
    #[tactic(auto, unfolding(relay_core::specs::Machine::is_sure))]
    pub fn press(&mut self, alloc: Global) -> ResultCode
        ensures { Takes self.old Button (Code result) self.new }
    {
        match self.apply(alloc, Event::Button) {
            Ok(Reply::Code(code)) => code,
            Ok(_) | Err(_) => unreachable!(),
        }
    }

    /// Applies at most 256 samples of the imported power, in watts, and returns the number of
    /// firings of each threshold. Errors, in this order: `TooManySamples`, `Memory`.
    pub fn sample(&mut self, alloc: Global, watts: &[u32]) -> Result<Fired, MeterFault>
        ensures { SamplesBy self.old (values_alone watts.now) result self.new }
    {
        match Block::from_slice(alloc, watts) {
            Ok(block) => self.take_block(alloc, block),
            Err(BlockMade::TooLong) => Err(MeterFault::TooManySamples),
            Err(BlockMade::Memory) => Err(MeterFault::Memory),
            Err(BlockMade::Uneven) => unreachable!(),
        }
    }

    /// Applies at most 256 pairs of samples of the imported and the exported power, in watts, and
    /// returns the number of firings of each threshold. Errors, in this order: `Uneven`,
    /// `TooManySamples`, `Memory`.
    pub fn sample_pairs(
        &mut self,
        alloc: Global,
        imported: &[u32],
        exported: &[u32],
    ) -> Result<Fired, MeterFault>
        ensures { SamplesBy self.old (pairs_of imported.now exported.now) result self.new }
    {
        match Block::from_pairs(alloc, imported, exported) {
            Ok(block) => self.take_block(alloc, block),
            Err(BlockMade::Uneven) => Err(MeterFault::Uneven),
            Err(BlockMade::TooLong) => Err(MeterFault::TooManySamples),
            Err(BlockMade::Memory) => Err(MeterFault::Memory),
        }
    }

    /// Applies a moment of the clock, in seconds since 2000-01-01 00:00:00 of the meter's time. It
    /// does not allocate.
    #[tactic(auto, unfolding(relay_core::specs::Machine::is_sure))]
    pub fn tick(&mut self, alloc: Global, now: u32) -> Tick
        ensures { TakesMoment self.old now result self.new }
    {
        match self.apply(alloc, Event::Moment(now)) {
            Ok(Reply::Ran(count)) => Tick::Ran(count),
            Ok(Reply::Stale { last }) => Tick::Stale(last),
            Ok(_) | Err(_) => unreachable!(),
        }
    }

    // Applies a block of samples, and returns the number of firings of each threshold.
    fn take_block(&mut self, alloc: Global, block: Block) -> Result<Fired, MeterFault>
        ensures { SamplesBy self.old block result self.new }
    {
        match self.apply(alloc, Event::Samples(block)) {
            Ok(Reply::Sampled { over, under }) => Ok(Fired {
                over,
                under,
                export_over: 0,
                export_under: 0,
            }),
            Ok(
                Reply::SampledBoth {
                    over,
                    under,
                    export_over,
                    export_under,
                },
            ) => Ok(Fired {
                over,
                under,
                export_over,
                export_under,
            }),
            Ok(_) => unreachable!(),
            Err(_) => Err(MeterFault::Memory),
        }
    }

    /// Applies an event, and returns the reply. If out of memory, nothing has changed, as if the
    /// event had not arrived. A press of the button and a moment do not allocate.
    pub fn apply(&mut self, alloc: Global, event: Event) -> Result<Reply, AllocError>
        ensures takes { IfOk result (λ reply. Takes self.old event reply self.new) }
        ensures fits { IfOk result (Fits event) }
        ensures sure { IsTrue (is_sure event) → IsOk result }
        ensures err { OnErr result (self.new ≡ self.old) }
    {
        self.recorder.apply(alloc, event)
    }

    /// Returns the control state (class 70, attribute 3).
    pub fn state(&self) -> ControlState
        ensures { (w : World) → StandsFor self.now.recorder.core w → result ≡ w.control.state }
    {
        self.recorder.core().state()
    }

    /// Returns the control mode (class 70, attribute 4).
    pub fn mode(&self) -> ControlMode
        ensures { (w : World) → StandsFor self.now.recorder.core w → result ≡ w.control.mode }
    {
        self.recorder.core().mode()
    }

    /// Returns whether the supply is on, which it is exactly in Connected.
    pub fn output(&self) -> bool
        ensures { (w : World) → StandsFor self.now.recorder.core w
            → result ≡ is_state w.control.state Connected }
    {
        self.recorder.core().output()
    }

    /// Returns the last moment of the clock, in seconds since 2000-01-01 00:00:00 of the meter's
    /// time, or `None` before the first.
    pub fn last_moment(&self) -> Option<u32>
        ensures { (w : World) → StandsFor self.now.recorder.core w → result ≡ w.moment }
    {
        self.recorder.core().last_moment()
    }
}
