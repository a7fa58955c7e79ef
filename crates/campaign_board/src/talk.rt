//! `Talk`: the conversation of one job, which waits for its mark before the request.
ghost use Rattle.std.specs.Prelude.{IfOk, ◌≡◌};
ghost use Rattle.acse_ber.specs.Password.{IsPassword};
ghost use Rattle.campaign_board.specs.Talks.{StartsTalk, GivesText, Receives, GivesUp, TellsDue};
ghost use Rattle.campaign_board.specs.Talks.{cleared_talk, is_question};

use client_core::{Client, Job, Outcome, Verb};
use cosem_axdr::Octets;
use std::alloc::{AllocError, Global};

/// The conversation of one job: a client that gives its request only once the mark of its place is
/// committed. The request of a `state` job needs no mark.
#[derive(Drop)]
pub struct Talk {
    /// The client.
    pub client: Client,
    /// Whether the request may be given.
    pub is_cleared: bool,
    /// Whether the request was given.
    pub has_asked: bool,
}

impl Talk {
    /// Returns the conversation of a job, in which nothing was sent. The password has 1 to 32
    /// bytes.
    pub fn start(alloc: Global, job: &Job, password: &Octets) -> Result<Talk, AllocError>
        requires { IsPassword password.now }
        ensures { IfOk result (StartsTalk job.now.verb password.now) }
    {
        let client = Client::start(alloc, job, password)?;
        Ok(Talk {
            client,
            is_cleared: is_question(job.verb),
            has_asked: false,
        })
    }

    /// Returns the next message for the meter: `None` if none is due, or if it is the request,
    /// which waits for its mark. Does not allocate.
    pub fn next_text(&mut self) -> Option<Octets>
        ensures { GivesText self.old result self.new }
    {
        let is_request = self.client.is_request_due();
        if is_request && !self.is_cleared {
            return None;
        }
        let text = self.client.to_send();
        self.has_asked = self.has_asked || is_request;
        text
    }

    /// Returns whether the request is the next message, and waits for the mark of its place.
    pub fn is_due(&self) -> bool
        ensures { TellsDue self.now result }
    {
        !self.is_cleared && self.client.is_request_due()
    }

    /// Allows the request to be sent.
    pub fn clear(&mut self)
        ensures { self.new ≡ cleared_talk self.old }
    {
        self.is_cleared = true;
    }

    /// Processes the next bytes of the meter. If out of memory, nothing changes.
    pub fn receive(&mut self, alloc: Global, bytes: &[u8]) -> Result<(), AllocError>
        ensures { Receives self.old bytes.now result self.new }
    {
        self.client.feed(alloc, bytes)
    }

    /// Ends the conversation, and returns its outcome.
    pub fn give_up(&mut self) -> Outcome
        ensures outcome { GivesUp self.old result }
        ensures same_request { self.new.has_asked ≡ self.old.has_asked }
    {
        self.client.ended();
        self.client.outcome().unwrap_or(Outcome::Unknown)
    }

    /// Returns the outcome, if the bytes so far settle it.
    pub fn outcome(&self) -> Option<Outcome> {
        self.client.outcome()
    }
}

// Returns whether the verb asks for a state, so that its request needs no mark.
fn is_question(verb: Verb) -> bool
    ensures { result ≡ is_question verb }
{
    match verb {
        Verb::Disconnect | Verb::Reconnect => false,
        Verb::ReadState => true,
    }
}
