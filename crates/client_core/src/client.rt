//! The client's state machine for one job: it returns the messages to send, takes the meter's
//! bytes, and returns the outcome.
ghost use Rattle.std.specs.Prelude.{◌≡◌, [], false, IfOk, OnOk, OnErr};
ghost use Rattle.acse_ber.specs.Password.{IsPassword};
ghost use Rattle.client_core.specs.Outcomes.{is_served};
ghost use Rattle.client_core.specs.Standing.{Stands, GivesNextMessage, Feeds, Ends, Tells};
ghost use Rattle.client_core.specs.Standing.{TellsRequest};

use crate::job::{Job, Outcome, Verb};
use crate::listening::hear_more;
use crate::progress::Progress;
use crate::replying::new_progress;
use crate::sending::{aarq_frame, release_frame, request_frame};
use cosem_axdr::Octets;
use std::alloc::{AllocError, Global};
use std::fmt::{self, Debug, Formatter};
use wrapper_frame::Deframer;

/// A client that runs one job at one meter: it provides the messages to send and interprets the
/// meter's responses. It performs no I/O.
///
/// In contracts, `Stands` relates a client to its verb and password, the bytes fed, the number of
/// messages returned, and whether the connection is over.
#[derive(Drop)]
pub struct Client {
    verb: Verb,
    progress: Progress,
    deframer: Deframer,
    is_ended: bool,
    aarq: Option<Octets>,
    request: Option<Octets>,
    release: Option<Octets>,
}

// Formats the client without its messages, one of which holds the password, and without the bytes
// received.
impl Debug for Client {
    fn fmt<W: fmt::Write>(&self, f: &mut Formatter<W>) -> fmt::Result {
        f.debug_struct("Client")
            .field("verb", &self.verb)
            .field("is_ended", &self.is_ended)
            .finish_non_exhaustive()
    }
}

impl Client {
    /// Creates a client and its three messages: the AARQ with the password of 1 to 32 bytes, the
    /// request of the job's verb, and the release. Nothing has been sent or received yet.
    pub fn start(alloc: Global, job: &Job, password: &Octets) -> Result<Client, AllocError>
        requires { IsPassword password.now }
        ensures { IfOk result (Stands job.now.verb password.now [] 0 false) }
    {
        let aarq = aarq_frame(alloc, password)?;
        let request = request_frame(alloc, job.verb)?;
        let release = release_frame(alloc)?;
        Ok(Client {
            verb: job.verb,
            progress: new_progress(),
            deframer: Deframer::new(alloc),
            is_ended: false,
            aarq: Some(aarq),
            request: Some(request),
            release: Some(release),
        })
    }

    /// Returns the next message to send: the AARQ, the request once an AARE has opened the
    /// association, the release once the meter has responded to the request. Returns each at most
    /// once, and `None` if there is nothing to send for now. Does not allocate.
    pub fn to_send(&mut self) -> Option<Octets>
        ensures { GivesNextMessage self.old result self.new }
    {
        if let Some(aarq) = self.aarq.take() {
            return Some(aarq);
        }
        if self.progress.accepted {
            if let Some(request) = self.request.take() {
                return Some(request);
            }
            if is_served(self.progress.outcome) {
                return self.release.take();
            }
        }
        None
    }

    /// Returns whether the next message is the request: the association is open, and the request
    /// has not been returned yet.
    #[tactic(auto, using(crate::proofs::Due::tells_request))]
    pub fn is_request_due(&self) -> bool
        ensures { TellsRequest self.now result }
    {
        self.aarq.is_none() && self.request.is_some() && self.progress.accepted
    }

    /// Processes the next bytes of the meter's connection, which may be split anywhere. Bytes after
    /// the end are ignored. If out of memory, the client is unchanged.
    pub fn feed(&mut self, alloc: Global, bytes: &[u8]) -> Result<(), AllocError>
        ensures ok { OnOk result (Feeds self.old bytes.now self.new) }
        ensures err { OnErr result (self.new ≡ self.old) }
    {
        if self.is_ended {
            return Ok(());
        }
        if self.progress.outcome.is_some() {
            return Ok(());
        }
        let mut deframer = self.deframer.try_clone(alloc)?;
        let progress = hear_more(alloc, self.verb, self.progress, &mut deframer, bytes)?;
        self.progress = progress;
        self.deframer = deframer;
        Ok(())
    }

    /// Records that no more bytes will come: the connection ended, failed or was abandoned.
    pub fn ended(&mut self)
        ensures { Ends self.old self.new }
    {
        self.is_ended = true;
    }

    /// Returns the outcome, if the bytes fed settle it or the connection is over. If the connection
    /// is over and they do not settle it, the outcome is `Unknown`.
    pub fn outcome(&self) -> Option<Outcome>
        ensures { Tells self.now result }
    {
        if self.is_ended {
            return Some(self.progress.outcome.unwrap_or(Outcome::Unknown));
        }
        self.progress.outcome
    }
}

// Returns whether the meter has responded to the request.
fn is_served(outcome: Option<Outcome>) -> bool
    ensures { result ≡ is_served outcome }
{
    matches!(outcome, Some(Outcome::Done(_) | Outcome::Refused(_)))
}
