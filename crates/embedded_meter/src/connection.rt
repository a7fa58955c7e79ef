//! A client's session at a meter without threads. If out of memory, what is pending stays pending.
ghost use Rattle.std.specs.Prelude.{◌≡◌, ◌≤◌, length, true, false, IfOk, IfSome, IsOk, IsOkAnd, IsSome, OnOk, OnErr};
ghost use Rattle.acse_ber.specs.Password.{IsPassword};
ghost use Rattle.session_core.specs.Calls.{short_event};
ghost use Rattle.session_core.specs.Standard.{greatest_frame};
ghost use Rattle.embedded_meter.specs.Dialogues.{PendsAtMost, awaits_reply};
ghost use Rattle.embedded_meter.specs.Progress.{GivesAtMost};
ghost use Rattle.embedded_meter.specs.Working.{PlacesFrame};
ghost use Rattle.embedded_meter.specs.declared.pending.Pending.TheVariants.{Nothing, Asked, Answered, Due};

use crate::given::Given;
use crate::pending::Pending;
use cosem_axdr::Octets;
use cosem_names::Level;
use relay_events::Reply;
use relay_recorder::Recorder;
use session_core::{Next, Session, SessionEnd, ShortRequest};
use std::alloc::{AllocError, Global};
use std::marker::Model;
use std::mem::replace;

// What a session needs from its caller after the meter has applied its requests.
#[derive(Clone, Copy)]
pub(crate) enum NextNeed {
    // A frame must be sent.
    Due,
    // The session needs more input.
    Wait,
    // The session is over and needs nothing.
    End(SessionEnd),
}

// A session of a client, with its pending event, reply or frame (`pending`).
#[derive(Drop)]
pub(crate) struct ClientSession {
    session: Session,
    pending: Pending,
}

// Replaces the pending item, and drops the old one.
fn put(pending: &mut Pending, next: Pending)
    ensures { pending.new ≡ next }
{
    *pending = next;
}

// Makes the event of a short request pending.
#[inline(never)]
fn put_asked(pending: &mut Pending, level: Level, request: ShortRequest)
    ensures { pending.new ≡ Asked (short_event level request) }
{
    *pending = Pending::Asked(request.event(level));
}

// Makes a reply pending.
#[inline(never)]
fn put_answered(pending: &mut Pending, reply: Reply)
    ensures { pending.new ≡ Answered reply }
{
    *pending = Pending::Answered(reply);
}

// Makes a frame pending.
#[inline(never)]
fn put_due(pending: &mut Pending, frame: Octets)
    ensures { pending.new ≡ Due frame }
{
    *pending = Pending::Due(frame);
}

// Copies a frame to the buffer, and returns its length. If the buffer is too short, the frame
// becomes pending, and the result is the length that it needs.
#[inline(always)]
fn give_frame(pending: &mut Pending, frame: Octets, buffer: &mut [u8]) -> Given
    requires nothing { pending.now ≡ Nothing }
    requires within_max { length frame ≤ greatest_frame }
    ensures gives { PlacesFrame frame buffer.old result pending.new buffer.new }
    ensures no_reply_awaited { awaits_reply pending.new ≡ false }
    ensures due_within_max { PendsAtMost greatest_frame pending.new }
    ensures within_max { GivesAtMost greatest_frame result }
{
    let count = frame.len();
    if buffer.len() < count {
        put_due(pending, frame);
        return Given::NoRoom(count);
    }
    buffer[..count].copy_from_slice(frame.as_slice());
    drop(frame);
    Given::Frame(count)
}

impl Model for ClientSession {
    ghost use Rattle.std.specs.Coded.{codes};
    ghost use Rattle.session_core.specs.contracts.session.Session as session_row;
    ghost use Rattle.embedded_meter.specs.contracts.pending.Pending as pending_row;
    ghost use Rattle.embedded_meter.specs.Dialogues.{Dialogue, IsDialogue};

    ghost Value = { Dialogue };

    ghost coded = { Prim.hlevel (codes, session_row.the_row.coded, pending_row.the_row.coded) };

    ghost view = { λ c. record { session = c.session; pending = c.pending } };

    ghost invariant = { λ c. IsDialogue (record { session = c.session; pending = c.pending }) };
}

impl ClientSession {
    ghost use Rattle.embedded_meter.specs.Memory.{NeedsNoMemory};
    ghost use Rattle.embedded_meter.specs.Progress.{Owes, Feeds, Finishes, IsIdle, GivesNextBy};
    ghost use Rattle.embedded_meter.specs.Working.{AsksBy, GivesShortBy, WorksBy, SettlesBy, AppliesBy, AnswersBy, IsAsked, IsAnswered, HasFrameDue, GivesDue};

    // Returns a new session that has received no byte. `password`, 1 to 32 bytes, is that of the
    // management client.
    pub(crate) fn new(alloc: Global, password: &Octets) -> Result<ClientSession, AllocError>
        requires { IsPassword password.now }
        ensures { IfOk result (Owes password.now) }
    {
        Ok(ClientSession {
            session: Session::new(alloc, password)?,
            pending: Pending::Nothing,
        })
    }

    // Passes the next bytes to the session, split at any place. A session that is over, or whose
    // input has ended, ignores them.
    pub(crate) fn feed(&mut self, bytes: &[u8]) -> Result<(), AllocError>
        ensures ok { OnOk result (Feeds self.old bytes.now self.new) }
        ensures err { OnErr result (self.new ≡ self.old) }
    {
        self.session.feed(bytes)
    }

    // Ends the input of the session.
    pub(crate) fn finish(&mut self)
        ensures { Finishes self.old self.new }
    {
        self.session.finish();
    }

    // Applies the requests of the session to the meter, up to the next frame, copies the frame to
    // the buffer, and returns what the caller must do.
    #[inline(always)]
    pub(crate) fn next(
        &mut self,
        alloc: Global,
        recorder: &mut Recorder,
        buffer: &mut [u8],
    ) -> Result<Given, AllocError>
        ensures gives { GivesNextBy self.old recorder.old buffer.old result self.new recorder.new
            buffer.new }
        ensures sure { NeedsNoMemory self.old recorder.old buffer.old → IsOk result }
        ensures within_max { IfOk result (GivesAtMost greatest_frame) }
    {
        if self.is_idle() {
            return Ok(Given::Wait);
        }
        self.serve(alloc, recorder, buffer)
    }

    // Returns whether no item is pending, and the session needs more input.
    #[inline(always)]
    fn is_idle(&self) -> bool
        ensures { result ≡ true → IsIdle self.now }
    {
        match &self.pending {
            Pending::Nothing => self.session.is_idle(),
            Pending::Asked(_) | Pending::Answered(_) | Pending::Due(_) => false,
        }
    }

    // Does what `next` does, if the session is not idle. A short request at the front is served at
    // once. The function is not inlined, so that a call of `next` that only waits stays small.
    #[inline(never)]
    fn serve(
        &mut self,
        alloc: Global,
        recorder: &mut Recorder,
        buffer: &mut [u8],
    ) -> Result<Given, AllocError>
        ensures gives { GivesNextBy self.old recorder.old buffer.old result self.new recorder.new
            buffer.new }
        ensures sure { NeedsNoMemory self.old recorder.old buffer.old → IsOk result }
        ensures within_max { IfOk result (GivesAtMost greatest_frame) }
    {
        match &self.pending {
            Pending::Nothing => match self.give_short(alloc, recorder, buffer)? {
                Some(given) => Ok(given),
                None => self.settle_and_give(alloc, recorder, buffer),
            },
            Pending::Asked(_) | Pending::Answered(_) | Pending::Due(_) => {
                self.settle_and_give(alloc, recorder, buffer)
            }
        }
    }

    // Serves a short request at the front, and puts the frame with its answer into the buffer. A
    // short answer for which the buffer has room is written there without allocating. Returns
    // `None` if there is no short request; nothing has changed then. On an error the event or the
    // reply stays pending.
    #[inline(always)]
    fn give_short(
        &mut self,
        alloc: Global,
        recorder: &mut Recorder,
        buffer: &mut [u8],
    ) -> Result<Option<Given>, AllocError>
        requires { self.now.pending ≡ Nothing }
        ensures gives { GivesShortBy self.old recorder.old buffer.old result self.new recorder.new
            buffer.new }
        ensures sure { NeedsNoMemory self.old recorder.old buffer.old → IsOkAnd result IsSome }
        ensures within_max { IfOk result (λ given. IfSome given (GivesAtMost greatest_frame)) }
    {
        let Some((level, request)) = self.session.next_short() else {
            return Ok(None);
        };
        let reply = match recorder.apply(alloc, request.event(level)) {
            Ok(reply) => reply,
            Err(fault) => {
                put_asked(&mut self.pending, level, request);
                return Err(fault);
            }
        };
        match self.session.put_short_answer(&reply, buffer) {
            Some(count) => {
                drop(reply);
                Ok(Some(Given::Frame(count)))
            }
            None => match self.session.answer_short(alloc, &reply) {
                Ok(frame) => {
                    drop(reply);
                    Ok(Some(give_frame(&mut self.pending, frame, buffer)))
                }
                Err(fault) => {
                    put_answered(&mut self.pending, reply);
                    Err(fault)
                }
            },
        }
    }

    // Applies the requests of the session to the meter, up to the next frame, and copies the frame
    // to the buffer.
    #[inline(never)]
    fn settle_and_give(
        &mut self,
        alloc: Global,
        recorder: &mut Recorder,
        buffer: &mut [u8],
    ) -> Result<Given, AllocError>
        ensures gives { GivesNextBy self.old recorder.old buffer.old result self.new recorder.new
            buffer.new }
        ensures within_max { IfOk result (GivesAtMost greatest_frame) }
    {
        match self.settle(alloc, recorder)? {
            NextNeed::Due => Ok(self.give(buffer)),
            NextNeed::Wait => Ok(Given::Wait),
            NextNeed::End(end) => Ok(Given::End(end)),
        }
    }

    // Applies the requests of the session to the meter, up to the next frame.
    fn settle(&mut self, alloc: Global, recorder: &mut Recorder) -> Result<NextNeed, AllocError>
        ensures { SettlesBy self.old recorder.old result self.new recorder.new }
    {
        'work: loop {
            if let Some(rest) = self.work(alloc, recorder)? {
                return Ok(rest);
            }
        }
    }

    // Does one step: from the session to the meter, from the meter to the session, or to a frame.
    // Returns `None` if there may be a further step.
    fn work(
        &mut self,
        alloc: Global,
        recorder: &mut Recorder,
    ) -> Result<Option<NextNeed>, AllocError>
        ensures { WorksBy self.old recorder.old result self.new recorder.new }
    {
        match &self.pending {
            Pending::Nothing => self.ask(alloc),
            Pending::Asked(_) => {
                self.apply(alloc, recorder)?;
                Ok(None)
            }
            Pending::Answered(_) => {
                self.answer(alloc)?;
                Ok(None)
            }
            Pending::Due(_) => Ok(Some(NextNeed::Due)),
        }
    }

    // Asks the session for its next event, frame or end. Returns `None` if it is an event.
    fn ask(&mut self, alloc: Global) -> Result<Option<NextNeed>, AllocError>
        requires { self.now.pending ≡ Nothing }
        ensures { AsksBy self.old result self.new }
    {
        match self.session.next(alloc)? {
            Next::Ask(event) => {
                put(&mut self.pending, Pending::Asked(event));
                Ok(None)
            }
            Next::Send(frame) => {
                put(&mut self.pending, Pending::Due(frame));
                Ok(Some(NextNeed::Due))
            }
            Next::Wait => Ok(Some(NextNeed::Wait)),
            Next::End(end) => Ok(Some(NextNeed::End(end))),
        }
    }

    // Applies the pending event to the meter. On an error the event stays pending.
    fn apply(&mut self, alloc: Global, recorder: &mut Recorder) -> Result<(), AllocError>
        requires { IsAsked self.now }
        ensures { AppliesBy self.old recorder.old result self.new recorder.new }
    {
        let Pending::Asked(event) = &self.pending else {
            unreachable!()
        };
        let event = event.try_copy(alloc)?;
        let reply = recorder.apply(alloc, event)?;
        let asked = replace(&mut self.pending, Pending::Answered(reply));
        drop(asked);
        Ok(())
    }

    // Passes the pending reply to the session. On an error the reply stays pending.
    fn answer(&mut self, alloc: Global) -> Result<(), AllocError>
        requires { IsAnswered self.now }
        ensures { AnswersBy self.old result self.new }
    {
        let Pending::Answered(reply) = replace(&mut self.pending, Pending::Nothing) else {
            unreachable!()
        };
        match self.session.answer(alloc, reply) {
            Ok(()) => Ok(()),
            Err((fault, reply)) => {
                put(&mut self.pending, Pending::Answered(reply));
                Err(fault)
            }
        }
    }

    // Copies the pending frame to the buffer, and returns its length. If the buffer is too short,
    // the frame stays pending, and the result is the length that it needs.
    fn give(&mut self, buffer: &mut [u8]) -> Given
        requires { HasFrameDue self.now }
        ensures gives { GivesDue self.old buffer.old result self.new buffer.new }
        ensures within_max { GivesAtMost greatest_frame result }
    {
        let Pending::Due(frame) = replace(&mut self.pending, Pending::Nothing) else {
            unreachable!()
        };
        give_frame(&mut self.pending, frame, buffer)
    }
}
