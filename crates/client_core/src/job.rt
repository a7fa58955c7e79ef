//! A job: what a client asks of a meter's disconnect control (IEC 62056-6-2, class 70), and the
//! possible outcomes.
ghost use Rattle.std.specs.Prelude.{◌≡◌, Some};
ghost use Rattle.client_core.specs.Verbs.{verb_of, verb_word};

use cosem_axdr::Octets;

/// A request to a meter's disconnect control, logical name 0.0.96.3.10.255 (IEC 62056-6-2, class
/// 70).
#[derive(Clone, Copy, Debug, PartialEq, Eq)]
pub enum Verb {
    /// Invokes the method remote_disconnect.
    Disconnect,
    /// Invokes the method remote_reconnect.
    Reconnect,
    /// Reads the attribute control_state.
    ReadState,
}

impl Verb {
    /// Returns the word for the verb in a list of jobs: `disconnect`, `reconnect` or `state`.
    pub fn word(self) -> &'static [u8]
        ensures word { result.now ≡ verb_word self }
        // Reading the word returns the verb.
        ensures read_back { verb_of result.now ≡ Some self }
    {
        match self {
            Verb::Disconnect => b"disconnect",
            Verb::Reconnect => b"reconnect",
            Verb::ReadState => b"state",
        }
    }

    /// Returns the verb of a word in a list of jobs, or `None` if it is the word for none.
    pub fn from_word(word: &[u8]) -> Option<Verb>
        ensures { result ≡ verb_of word.now }
    {
        if word == b"disconnect".as_slice() {
            Some(Verb::Disconnect)
        } else if word == b"reconnect".as_slice() {
            Some(Verb::Reconnect)
        } else if word == b"state".as_slice() {
            Some(Verb::ReadState)
        } else {
            None
        }
    }
}

/// One request to one meter.
#[derive(Debug, Drop)]
pub struct Job {
    /// The name of the job in a report.
    pub id: Octets,
    /// The address of the meter.
    pub address: Octets,
    /// What the meter is asked to do.
    pub verb: Verb,
}

/// The result of a job.
#[derive(Clone, Copy, Debug, PartialEq, Eq)]
pub enum Outcome {
    /// The meter carried out the request: 0, or the control state that was read, 0 to 2.
    Done(u8),
    /// The meter responded with this result code, which is not 0.
    Refused(u8),
    /// The meter opened no association that provides the service of the request, and the request
    /// was not sent. Holds the diagnostic of the AARE, or 0 if the AARE accepts without that
    /// service.
    Rejected(u8),
    /// Any other result: whether the meter carried out the request is not known.
    Unknown,
}
