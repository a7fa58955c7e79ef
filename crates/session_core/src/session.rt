//! `Session`: the bytes of a client in, events for the meter and frames for the client out.
ghost use Rattle.std.specs.Prelude.{◌≡◌, ◌≢◌, ◌≤◌, ◌↔◌, ◌+◌, ℕ, List, length, None, true, false, Some, IfSome, IfNone, IfOk, IfErr, IsOk, OnOk, OnErr, Ok};
ghost use Rattle.acse_ber.specs.Password.{IsPassword};
ghost use Rattle.session_core.specs.ShortAnswers.{short_frame};
ghost use Rattle.session_core.specs.Standard.{greatest_frame};
ghost use Rattle.session_core.specs.declared.task.SessionTask.TheVariants.{Listen, Over};
ghost use Rattle.wrapper_frame.specs.Header.{header_size, head_of};
ghost use Rattle.wrapper_frame.specs.declared.header.Head.TheVariants.{Whole};

use crate::answer::{SERVER_PORT, Way};
use crate::asked::{Asked, ReplyForm};
use crate::end::SessionEnd;
use crate::framed_answer::FramedAnswer;
use crate::next::Next;
use crate::password::Password;
use crate::replying::{Answered, answer_get, answer_reply};
use crate::short_answer::{action_answer, put_answer, set_answer};
use crate::short_request::{ShortRequest, read_short_request};
use crate::state::State;
use crate::step::TurnStep;
use crate::task::SessionTask;
use cosem_axdr::Octets;
use cosem_names::Level;
use relay_events::Reply;
use std::alloc::{AllocError, Global};
use std::fmt::{self, Debug, Formatter};
use std::mem::replace;
use wrapper_frame::{Deframer, Head, WrapperFault, frame};

/// A client's session with the server, from the received bytes to the frames that are sent.
///
/// The caller feeds it the bytes of the stream, in pieces of any length, and asks it what is next:
/// an event for the meter, whose reply the caller then passes in, a frame for the client, or more
/// input.
#[derive(Drop)]
pub struct Session {
    password: Password,
    deframer: Deframer,
    is_finished: bool,
    state: State,
    task: SessionTask,
}

// Shows neither the password nor bytes that may contain one.
impl Debug for Session {
    fn fmt<W: fmt::Write>(&self, f: &mut Formatter<W>) -> fmt::Result {
        f.debug_struct("Session").finish_non_exhaustive()
    }
}

impl Session {
    ghost use Rattle.session_core.specs.Remaining.{is_asking, is_asking_short, reported_end, is_finished, is_idle, load_of};
    ghost use Rattle.session_core.specs.Progress.{Owes, IsQuiet, Feeds, Finishes, StepsBy};
    ghost use Rattle.session_core.specs.Progress.{Leaves, SendsAtMost, Takes};
    ghost use Rattle.relay_events.specs.declared.reply.Reply.{Reply};
    ghost use Rattle.session_core.specs.Calls.{short_event};
    ghost use Rattle.session_core.specs.ShortRequests.{HasShort};
    ghost use Rattle.session_core.specs.ShortAnswers.{PutsAnswer, AnswersIn, is_short_reply};
    ghost use Rattle.session_core.specs.Progress.{AnswersBy, AsksShort, WorksBy};
    ghost use Rattle.session_core.specs.Progress.{task_by, next_by};

    /// Makes a session before its first byte. `password` is the management client's, 1 to 32 bytes.
    /// Fails if out of memory.
    pub fn new(alloc: Global, password: &Octets) -> Result<Session, AllocError>
        requires { IsPassword password.now }
        ensures { IfOk result (Owes password.now) }
    {
        Ok(Session {
            password: Password::new(alloc, password)?,
            deframer: Deframer::new(alloc),
            is_finished: false,
            state: State::new(),
            task: SessionTask::Listen,
        })
    }

    /// Appends the next bytes of the stream, in pieces of any length. Once the session is over or
    /// its input has ended, the call succeeds and changes nothing. If out of memory, nothing has
    /// changed.
    #[tactic(auto, unfolding(crate::specs::Remaining::is_finished))]
    pub fn feed(&mut self, bytes: &[u8]) -> Result<(), AllocError>
        ensures ok { OnOk result (Feeds self.old bytes.now self.new) }
        ensures err { OnErr result (self.new ≡ self.old) }
        ensures finished { is_finished self.old ≡ true → IsOk result × (self.new ≡ self.old) }
        ensures over { IfSome (reported_end self.old) (λ end. IsOk result × (self.new ≡ self.old)) }
    {
        if self.is_finished {
            return Ok(());
        }
        if let SessionTask::Over(_) = &self.task {
            return Ok(());
        }
        match self.deframer.feed(bytes) {
            Ok(()) => Ok(()),
            Err(WrapperFault::Version) => Ok(()),
            Err(WrapperFault::TooLong) => Ok(()),
            Err(WrapperFault::Memory) => Err(AllocError),
        }
    }

    /// Ends the input.
    pub fn finish(&mut self)
        ensures { Finishes self.old self.new }
    {
        self.is_finished = true;
    }

    /// Returns whether the session awaits the reply to an event.
    #[tactic(auto, unfolding(crate::specs::Remaining::is_asking))]
    pub fn asking(&self) -> bool
        ensures { result ≡ is_asking self.now }
    {
        match &self.task {
            SessionTask::Await(_) => true,
            SessionTask::Listen
            | SessionTask::Read(_)
            | SessionTask::Say(_)
            | SessionTask::Send(_)
            | SessionTask::Over(_) => false,
        }
    }

    /// Returns what the session needs next: an event for the meter to answer, a frame to send, more
    /// input, or nothing more. If out of memory, the session has yet to ask and to send what it had
    /// before, and the call may be repeated. Its fields may differ: a frame for another port may
    /// have been dropped, or the blocks of a value joined, which the next call does not repeat.
    pub fn next(&mut self, alloc: Global) -> Result<Next, AllocError>
        ensures steps { StepsBy self.old result self.new }
        ensures leaves { IfOk result (λ next. Leaves self.old next self.new) }
        // While a reply is awaited, and once the session is over, `next` returns the same again.
        ensures waits { is_asking self.old ≡ true → (result ≡ Ok Next.Wait)
            × (self.new ≡ self.old) }
        ensures repeated_end { (end : SessionEnd) → reported_end self.old ≡ Some end
            → (result ≡ Ok (Next.End end)) × (self.new ≡ self.old) }
        // If out of memory, no reply is awaited, and the load is no greater than before.
        ensures not_asking { OnErr result (is_asking self.new ≡ false) }
        ensures kept { OnErr result (load_of self.new ≤ load_of self.old) }
        // A frame has at most 1,032 bytes.
        ensures within_max { IfOk result (SendsAtMost greatest_frame) }
    {
        if self.asking() {
            return Ok(Next::Wait);
        }
        if let Some(end) = self.reported_end() {
            return Ok(Next::End(end));
        }
        'tasks: loop {
            if let Some(next) = self.work(alloc)? {
                return Ok(next);
            }
        }
    }

    /// Takes in the reply to the event that `next` returned. If out of memory, returns the reply,
    /// and nothing has changed.
    #[tactic(auto, unfolding(crate::specs::Remaining::is_asking))]
    pub fn answer(&mut self, alloc: Global, reply: Reply) -> Result<(), (AllocError, Reply)>
        requires { is_asking self.now ≡ true }
        ensures ok { OnOk result (Takes self.old reply self.new) }
        ensures err { OnErr result (self.new ≡ self.old) }
        ensures returned { IfErr result (λ failed. failed.1 ≡ reply) }
    {
        let SessionTask::Await(asked) = self.task else {
            unreachable!()
        };
        let link = asked.link;
        // (no effect: the frame needs this law)
        link.limit.holds_range();
        let Answered { text, outgoing } = answer_reply(alloc, asked, Way::Framed, reply)?;
        self.state.outgoing = outgoing;
        self.turn_to(SessionTask::Send(FramedAnswer { text }));
        Ok(())
    }

    /// Takes the frame at the front if it is whole and is a short request from the client of the
    /// association, and returns its level and the request. The caller then asks the meter the
    /// request's event for this level, and passes the reply to `answer_short`. Returns `None` if
    /// there is no such frame or another step comes first, such as a frame to send; nothing has
    /// changed then, and `next` says what the session needs. Does not allocate.
    #[inline(always)]
    pub fn next_short(&mut self) -> Option<(Level, ShortRequest)>
        ensures asks { IfSome result
            (λ short. AsksShort self.old (short_event short.0 short.1) self.new) }
        ensures none { IfNone result (self.new ≡ self.old) }
        ensures is_short { (result ≢ None) ↔ HasShort self.old }
        ensures answers { IfSome result (λ short. (reply : Reply)
            → is_short_reply (short_event short.0 short.1) reply ≡ true → (buffer : List ℕ)
            → short_frame ≤ length buffer → AnswersIn buffer self.new reply) }
    {
        let SessionTask::Listen = &self.task else {
            return None;
        };
        let Head::Whole(size) = self.deframer.front() else {
            return None;
        };
        let (source, destination) = self.deframer.ports();
        let link = self.state.link?;
        // (no effect: the contract needs this law)
        link.limit.holds_range();
        if destination != SERVER_PORT || source != link.source {
            return None;
        }
        let payload = self.deframer.payload(size);
        let (form, request) = read_short_request(link.conformance, payload)?;
        let level = link.level;
        put(&mut self.state.incoming, None);
        put(&mut self.state.outgoing, None);
        self.deframer.pass(size);
        put(&mut self.task, SessionTask::Await(Asked { link, form }));
        Some((level, request))
    }

    /// Takes in the reply to the event of `next_short` and returns the frame with its answer, as
    /// `answer` followed by `next` would. If out of memory, nothing has changed.
    #[inline(always)]
    #[tactic(auto, unfolding(crate::specs::Remaining::is_asking_short))]
    pub fn answer_short(&mut self, alloc: Global, reply: &Reply) -> Result<Octets, AllocError>
        requires { is_asking_short self.now ≡ true }
        ensures ok { IfOk result (λ frame. AnswersBy self.old reply.now frame self.new) }
        ensures err { OnErr result (self.new ≡ self.old) }
        ensures within_max { IfOk result (λ frame. length frame ≤ greatest_frame) }
    {
        let SessionTask::Await(asked) = self.task else {
            unreachable!()
        };
        let link = asked.link;
        // (no effect: the contract needs this law)
        link.limit.holds_range();
        let to = link.source;
        let framed = match asked.form {
            ReplyForm::Get(_) => {
                let text = answer_get(alloc, asked, reply, &mut self.state.outgoing)?;
                put(&mut self.task, SessionTask::Listen);
                return Ok(text);
            }
            ReplyForm::Set(id) => frame(alloc, SERVER_PORT, to, &set_answer(id, reply)),
            ReplyForm::Action(id) => frame(alloc, SERVER_PORT, to, &action_answer(id, reply)),
            ReplyForm::GetList(_) | ReplyForm::SetLastBlock(_, _) => unreachable!(),
        };
        match framed {
            Ok(text) => {
                put(&mut self.state.outgoing, None);
                put(&mut self.task, SessionTask::Listen);
                Ok(text)
            }
            Err(WrapperFault::Memory) => Err(AllocError),
            Err(WrapperFault::Version | WrapperFault::TooLong) => unreachable!(),
        }
    }

    /// Takes in the reply to the event of `next_short`, writes the frame with its answer to the
    /// front of `buffer` as `answer_short` would return it, and returns the frame's length in
    /// bytes. Does not allocate. Returns `None`, and changes nothing, if the buffer is shorter than
    /// the frame, or if the reply to a GET is not a boolean or an enum.
    #[inline(always)]
    #[tactic(auto, unfolding(crate::specs::Remaining::is_asking_short))]
    pub fn put_short_answer(&mut self, reply: &Reply, buffer: &mut [u8]) -> Option<usize>
        requires { is_asking_short self.now ≡ true }
        ensures answers { IfSome result
            (λ count. PutsAnswer self.old reply.now buffer.old count self.new buffer.new) }
        ensures none { IfNone result ((self.new ≡ self.old) × (buffer.new ≡ buffer.old)) }
        ensures fits { (result ≢ None) ↔ AnswersIn buffer.old self.old reply.now }
        ensures within_max { IfSome result (λ count. count ≤ short_frame) }
    {
        let SessionTask::Await(asked) = self.task else {
            unreachable!()
        };
        let link = asked.link;
        // (no effect: the contract needs this law)
        link.limit.holds_range();
        let count = put_answer(asked, reply, buffer)?;
        put(&mut self.state.outgoing, None);
        put(&mut self.task, SessionTask::Listen);
        Some(count)
    }

    // Returns the end that was reported, if the session is over.
    #[tactic(auto, unfolding(crate::specs::Remaining::reported_end))]
    fn reported_end(&self) -> Option<SessionEnd>
        ensures { result ≡ reported_end self.now }
    {
        match &self.task {
            SessionTask::Over(end) => Some(*end),
            SessionTask::Listen
            | SessionTask::Read(_)
            | SessionTask::Await(_)
            | SessionTask::Say(_)
            | SessionTask::Send(_) => None,
        }
    }

    /// Returns whether `next` would only ask for more input.
    #[tactic(auto, unfolding(crate::specs::Remaining::is_idle))]
    pub fn is_idle(&self) -> bool
        ensures idle { result ≡ is_idle self.now }
        ensures quiet { result ≡ true → IsQuiet self.now }
    {
        match &self.task {
            SessionTask::Listen => !self.is_finished && matches!(self.deframer.front(), Head::Part),
            SessionTask::Read(_)
            | SessionTask::Await(_)
            | SessionTask::Say(_)
            | SessionTask::Send(_)
            | SessionTask::Over(_) => false,
        }
    }

    // Performs the next task. Returns `None` if another task must follow.
    #[tactic(auto, unfolding(crate::specs::Remaining::is_asking))]
    fn work(&mut self, alloc: Global) -> Result<Option<Next>, AllocError>
        ensures works { WorksBy self.old result self.new }
        ensures not_asking { OnErr result (is_asking self.new ≡ false) }
        ensures err { OnErr result (self.new ≡ self.old) }
        ensures within_max { IfOk result (λ next. IfSome next (SendsAtMost greatest_frame)) }
    {
        match &self.task {
            SessionTask::Listen => self.listen(alloc),
            SessionTask::Read(joined) => {
                let step = joined.read(alloc)?;
                Ok(self.take(step))
            }
            SessionTask::Await(_) => Ok(Some(Next::Wait)),
            SessionTask::Say(due) => {
                let text = due.text(alloc)?;
                self.turn_to(SessionTask::Listen);
                Ok(Some(Next::Send(text)))
            }
            SessionTask::Send(_) => {
                let SessionTask::Send(framed) = replace(&mut self.task, SessionTask::Listen) else {
                    unreachable!()
                };
                Ok(Some(Next::Send(framed.text)))
            }
            SessionTask::Over(end) => Ok(Some(Next::End(*end))),
        }
    }

    // Takes the frame at the front of the input, or ends the session.
    #[tactic(auto, unfolding(crate::specs::Remaining::is_asking))]
    fn listen(&mut self, alloc: Global) -> Result<Option<Next>, AllocError>
        requires { self.now.task ≡ Listen }
        ensures works { WorksBy self.old result self.new }
        ensures not_asking { OnErr result (is_asking self.new ≡ false) }
        ensures err { OnErr result (self.new ≡ self.old) }
        ensures within_max { IfOk result (λ next. IfSome next (SendsAtMost greatest_frame)) }
    {
        match self.deframer.front() {
            Head::Whole(size) => self.receive(alloc, size),
            Head::Part if !self.is_finished => Ok(Some(Next::Wait)),
            Head::Part if self.deframer.is_empty() => Ok(self.end(SessionEnd::Closed)),
            Head::Part => Ok(self.end(SessionEnd::Cut)),
            Head::BadVersion => Ok(self.end(SessionEnd::BadVersion)),
            Head::TooLong => Ok(self.end(SessionEnd::TooLong)),
        }
    }

    // Handles the frame at the front, and returns what the caller must do, or `None` if there may
    // be more to handle. `size` is the length of its payload in bytes. Drops a frame for another
    // port.
    #[tactic(auto, unfolding(crate::specs::Remaining::is_asking))]
    fn receive(&mut self, alloc: Global, size: usize) -> Result<Option<Next>, AllocError>
        requires listening { self.now.task ≡ Listen }
        requires whole { head_of self.now.deframer ≡ Whole size }
        requires complete { header_size + size ≤ length self.now.deframer }
        ensures works { WorksBy self.old result self.new }
        ensures not_asking { OnErr result (is_asking self.new ≡ false) }
        ensures err { OnErr result (self.new ≡ self.old) }
        ensures within_max { IfOk result (λ next. IfSome next (SendsAtMost greatest_frame)) }
    {
        let (src, dst) = self.deframer.ports();
        if dst != SERVER_PORT {
            self.deframer.pass(size);
            return Ok(None);
        }
        let payload = self.deframer.payload(size);
        let step = self.state.receive(alloc, &self.password, src, payload)?;
        self.deframer.pass(size);
        Ok(self.take(step))
    }

    // Ends the session.
    fn end(&mut self, end: SessionEnd) -> Option<Next>
        ensures new_state { self.new ≡ record self.old { task = Over end } }
        ensures next { result ≡ Some (Next.End end) }
    {
        self.turn_to(SessionTask::Over(end));
        Some(Next::End(end))
    }

    // Sets the task of a step, and returns what the session needs from its caller, if anything.
    fn take(&mut self, step: TurnStep) -> Option<Next>
        ensures new_state { self.new ≡ record self.old { task = task_by step } }
        ensures next { result ≡ next_by step }
    {
        match step {
            TurnStep::Ask(event, asked) => {
                self.turn_to(SessionTask::Await(asked));
                Some(Next::Ask(event))
            }
            TurnStep::Say(due) => {
                self.turn_to(SessionTask::Say(due));
                None
            }
            TurnStep::Join(joined) => {
                self.turn_to(SessionTask::Read(joined));
                None
            }
        }
    }

    // Sets the next task.
    #[inline(always)]
    fn turn_to(&mut self, task: SessionTask)
        ensures { self.new ≡ record self.old { task = task } }
    {
        self.task = task;
    }
}

// Drops what is at a place, and puts a value there.
fn put<T: Drop>(place: &mut T, value: T)
    ensures { place.new ≡ value }
{
    *place = value;
}
