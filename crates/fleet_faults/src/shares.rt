//! `FaultShares`: how many of the meters have each fault.
ghost use Rattle.std.specs.Prelude.{◌≡◌, ◌≤◌, ◌==◌, IfSome};
ghost use Rattle.std.specs.List.{before_first, after_first};
ghost use Rattle.fleet_faults.specs.Shares.{no_shares, share_of, total, with_share};
ghost use Rattle.fleet_faults.specs.Shares.{at_most_all, shares_after};
ghost use Rattle.text_lines.specs.Numbers.{number_of};

use crate::fault::InjectedFault;
use memchr::memchr;
use std::marker::Model;
use text_lines::read_number;
use thiserror::Error;

/// All meters, in percent.
const ALL: u8 = 100;

/// Why a word of the command line is not a share.
#[derive(Clone, Copy, Debug, PartialEq, Eq, Error)]
pub enum ShareFault {
    /// The bytes before the first `=` are not the name of a fault.
    #[error("expected silent, slow, vanishes, closes, wrong-password or refuses")]
    Name,
    /// The bytes after the first `=` are not a number of 0 to 100.
    #[error("expected NAME=PERCENT with 0 to 100 percent")]
    Percent,
    /// All shares together are more than 100 percent.
    #[error("the shares are more than 100 percent together")]
    Total,
}

/// The share of the meters that have each fault, in percent: 0 to 100 each, and at most 100
/// together.
#[derive(Clone, Copy, Debug, PartialEq, Eq)]
pub struct FaultShares {
    silent: u8,
    slow: u8,
    vanishes: u8,
    closes: u8,
    wrong_password: u8,
    refuses: u8,
}

impl Model for FaultShares {
    ghost use Rattle.std.specs.Prelude.{◌+◌, ◌≤◌};
    ghost use Rattle.fleet_faults.specs.Shares.{Shares};

    ghost Value = { Shares };

    ghost view = { λ s. record {
      silent = s.silent;
      slow = s.slow;
      vanishes = s.vanishes;
      closes = s.closes;
      wrong_password = s.wrong_password;
      refuses = s.refuses;
    } };

    ghost invariant = { λ s. s.silent + s.slow + s.vanishes + s.closes + s.wrong_password
        + s.refuses ≤ 100 };

    ghost inverse = { λ s. record {
      silent = s.silent;
      slow = s.slow;
      vanishes = s.vanishes;
      closes = s.closes;
      wrong_password = s.wrong_password;
      refuses = s.refuses;
    } };
}

// Returns the bytes before and after the first byte `=`; all bytes and none if there is no such
// byte.
#[tactic(auto, using(crate::proofs::Cuts::whole_before, crate::proofs::Cuts::none_after, crate::proofs::Cuts::part_before, crate::proofs::Cuts::part_after))]
fn split_word(word: &[u8]) -> (&[u8], &[u8])
    ensures name { result.0.now ≡ before_first (λ b. b == 61) word.now }
    ensures rest { result.1.now ≡ after_first (λ b. b == 61) word.now }
{
    match memchr(b'=', word) {
        Some(at) => (&word[..at], &word[at + 1..]),
        None => (word, &[]),
    }
}

// Returns the percentage that a word writes, 0 to 100.
fn read_percent(word: &[u8]) -> Option<u8>
    ensures value { result ≡ number_of 100 word.now }
    ensures within { IfSome result (λ percent. percent ≤ 100) }
{
    match read_number(word, u64::from(ALL)) {
        Some(percent) => Some(percent as u8),
        None => None,
    }
}

impl FaultShares {
    /// Returns the shares of a fleet in which no meter has a fault.
    pub fn new() -> FaultShares
        ensures { result ≡ no_shares }
    {
        FaultShares {
            silent: 0,
            slow: 0,
            vanishes: 0,
            closes: 0,
            wrong_password: 0,
            refuses: 0,
        }
    }

    /// Returns the share of a fault, in percent.
    pub fn share(self, fault: InjectedFault) -> u8
        ensures value { result ≡ share_of self fault }
        ensures within { total self ≤ 100 }
    {
        match fault {
            InjectedFault::Silent => self.silent,
            InjectedFault::Slow => self.slow,
            InjectedFault::Vanishes => self.vanishes,
            InjectedFault::Closes => self.closes,
            InjectedFault::WrongPassword => self.wrong_password,
            InjectedFault::Refuses => self.refuses,
        }
    }

    // Returns all shares together, in percent.
    fn total(self) -> u8
        ensures value { result ≡ total self }
        ensures within { result ≤ 100 }
    {
        self.silent + self.slow + self.vanishes + self.closes + self.wrong_password + self.refuses
    }

    // Returns the shares with another share of this fault. Fails if they are more than 100 percent
    // together.
    #[tactic(auto, using(crate::proofs::Drawing::share_within))]
    fn with_share(self, fault: InjectedFault, percent: u8) -> Result<FaultShares, ShareFault>
        requires { percent ≤ 100 }
        ensures { result ≡ at_most_all (with_share self fault percent) }
    {
        let others = self.total() - self.share(fault);
        if others + percent > ALL {
            return Err(ShareFault::Total);
        }
        Ok(match fault {
            InjectedFault::Silent => FaultShares {
                silent: percent,
                ..self
            },
            InjectedFault::Slow => FaultShares {
                slow: percent,
                ..self
            },
            InjectedFault::Vanishes => FaultShares {
                vanishes: percent,
                ..self
            },
            InjectedFault::Closes => FaultShares {
                closes: percent,
                ..self
            },
            InjectedFault::WrongPassword => FaultShares {
                wrong_password: percent,
                ..self
            },
            InjectedFault::Refuses => FaultShares {
                refuses: percent,
                ..self
            },
        })
    }

    /// Returns the shares after a word of the form NAME=PERCENT, which replaces the share of the
    /// fault with this name. Errors, in this order: `Name`, `Percent`, `Total`.
    pub fn with_word(self, word: &[u8]) -> Result<FaultShares, ShareFault>
        ensures { result ≡ shares_after self word.now }
    {
        let (name, rest) = split_word(word);
        match InjectedFault::from_name(name) {
            Some(fault) => match read_percent(rest) {
                Some(percent) => self.with_share(fault, percent),
                None => Err(ShareFault::Percent),
            },
            None => Err(ShareFault::Name),
        }
    }
}
