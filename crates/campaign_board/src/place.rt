//! `BoardPlace`: the state of one job of a campaign.
ghost use Rattle.std.specs.Prelude.{◌≡◌, None, Some, is_none, ◌&&◌, is_some};
ghost use Rattle.campaign_board.specs.Talks.{has_talk, HandsText, TakesBytes, SaysDue, EndsPlace};
ghost use Rattle.campaign_board.specs.Talks.{cleared_place};

use crate::talk::Talk;
use client_core::Outcome;
use cosem_axdr::Octets;
use std::alloc::{AllocError, Global};
use std::marker::Model;

/// The end of a job.
#[derive(Clone, Copy, Debug, PartialEq, Eq)]
pub struct Ending {
    /// The outcome of the job.
    pub outcome: Outcome,
    /// Whether the request was given, so that the meter may have carried it out.
    pub was_asked: bool,
}

/// The place of a job: the job waits, its connection is open, or it is over. A place without
/// an open connection takes 16 bytes. Contracts see the conversation and the end.
#[derive(Drop)]
pub struct BoardPlace {
    talk: Option<Box<Talk>>,
    ending: Option<Ending>,
}

impl Model for BoardPlace {
    ghost use Rattle.std.specs.Prelude.{option_map};
    ghost use Rattle.campaign_board.specs.Talks.{PlaceState};

    ghost Value = { PlaceState };

    ghost view = { λ place. record {
      talk = option_map (λ b. b.value) place.talk;
      ending = place.ending;
    } };
}

impl BoardPlace {
    /// Returns a place whose job waits.
    pub fn new() -> BoardPlace
        ensures talk { result.talk ≡ None }
        ensures ending { result.ending ≡ None }
    {
        BoardPlace {
            talk: None,
            ending: None,
        }
    }

    /// Returns whether the job waits.
    pub fn is_waiting(&self) -> bool
        ensures { result ≡ (is_none self.now.talk && is_none self.now.ending) }
    {
        self.talk.is_none() && self.ending.is_none()
    }

    /// Returns whether the connection is open.
    pub fn is_open(&self) -> bool
        ensures { result ≡ has_talk self.now.talk }
    {
        self.talk.is_some()
    }

    /// Returns the end, once the connection is over.
    pub fn ending(&self) -> Option<Ending>
        ensures { result ≡ self.now.ending }
    {
        self.ending
    }

    /// Returns whether the connection is open, the bytes so far settle the outcome, and the request
    /// does not wait for its mark: a meter may answer it before it was sent.
    pub fn is_decided(&self) -> bool {
        match &self.talk {
            Some(talk) => talk.outcome().is_some() && !talk.is_due(),
            None => false,
        }
    }

    /// Returns whether the request is the next message, and waits for its mark.
    pub fn is_due(&self) -> bool
        ensures { SaysDue self.now result }
    {
        match &self.talk {
            Some(talk) => talk.is_due(),
            None => false,
        }
    }

    /// Opens the place: its conversation begins.
    pub fn begin(&mut self, talk: Box<Talk>)
        ensures { self.new ≡ record { talk = Some talk.value; ending = self.old.ending } }
    {
        self.talk = Some(talk);
    }

    /// Returns the next message for the meter that may be sent now: `None` if there is none, or the
    /// place is not open. Does not allocate.
    pub fn next_text(&mut self) -> Option<Octets>
        ensures { HandsText self.old result self.new }
    {
        match &mut self.talk {
            Some(talk) => talk.next_text(),
            None => None,
        }
    }

    /// Processes bytes of the meter, and returns whether the request then is the next message and
    /// waits for its mark. Nothing happens if the place is not open. If out of memory, nothing
    /// changes.
    pub fn receive(&mut self, alloc: Global, bytes: &[u8]) -> Result<bool, AllocError>
        ensures { TakesBytes self.old bytes.now result self.new }
    {
        match &mut self.talk {
            Some(talk) => match talk.receive(alloc, bytes) {
                Ok(()) => Ok(talk.is_due()),
                Err(_) => Err(AllocError),
            },
            None => Ok(false),
        }
    }

    /// Allows the request to be sent.
    pub fn clear(&mut self)
        ensures { self.new ≡ cleared_place self.old }
    {
        match &mut self.talk {
            Some(talk) => talk.clear(),
            None => {}
        }
    }

    /// Ends the conversation, and returns its end: `None` if the place is not open.
    pub fn end(&mut self) -> Option<Ending>
        ensures { EndsPlace self.old result self.new }
    {
        match self.talk.take() {
            Some(mut talk) => {
                let ending = Ending {
                    outcome: talk.give_up(),
                    was_asked: talk.has_asked,
                };
                drop(talk);
                self.ending = Some(ending);
                Some(ending)
            }
            None => None,
        }
    }
}
