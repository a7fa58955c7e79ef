//! `FaultPlan`: which meter has which fault.
ghost use Rattle.std.specs.Prelude.{◌≡◌, ◌<◌, Some, IfSome};
ghost use Rattle.std.specs.Option.{option_and_then};
ghost use Rattle.fleet_links.specs.Addresses.{meter_of};
ghost use Rattle.fleet_faults.specs.Shares.{share_of};
ghost use Rattle.fleet_faults.specs.Draws.{draw_of, fault_drawn, fault_of};
ghost use Rattle.fleet_faults.specs.declared.fault.InjectedFault.{InjectedFault};

use crate::fault::InjectedFault;
use crate::shares::FaultShares;
use fleet_links::meter_at;
use rand_core::SeedableRng;
use rand_core::utils::NextWord;
use rand_xoshiro::SplitMix64;

/// The faults of all meters of a fleet: that of each meter depends on the shares, the seed and the
/// number of the meter alone.
#[derive(Clone, Copy, Debug, PartialEq, Eq)]
pub struct FaultPlan {
    /// The share of the meters that have each fault.
    pub shares: FaultShares,
    /// The seed of the draws.
    pub seed: u32,
}

// Returns the draw of the meter with this number, 0 to 99.
#[tactic(auto, unfolding(crate::specs::Draws::draw_of))]
fn draw_of(seed: u32, number: usize) -> u64
    ensures value { result ≡ draw_of seed number }
    ensures within { result < 100 }
{
    let high = u64::from(seed) * 4_294_967_296;
    let mut generator = SplitMix64::seed_from_u64(high.wrapping_add(number as u64));
    generator.next_word() % 100
}

// Returns the fault of a draw.
#[tactic(auto, using(crate::proofs::Drawing::certain))]
fn fault_drawn(shares: FaultShares, draw: u64) -> Option<InjectedFault>
    requires { draw < 100 }
    ensures certain { (fault : InjectedFault) → share_of shares fault ≡ 100
        → result ≡ Some fault }
    ensures value { result ≡ fault_drawn shares draw }
    ensures shared { IfSome result (λ fault. 0 < share_of shares fault) }
{
    let silent = u64::from(shares.share(InjectedFault::Silent));
    let slow = silent + u64::from(shares.share(InjectedFault::Slow));
    let vanishes = slow + u64::from(shares.share(InjectedFault::Vanishes));
    let closes = vanishes + u64::from(shares.share(InjectedFault::Closes));
    let wrong_password = closes + u64::from(shares.share(InjectedFault::WrongPassword));
    let refuses = wrong_password + u64::from(shares.share(InjectedFault::Refuses));
    if draw < silent {
        Some(InjectedFault::Silent)
    } else if draw < slow {
        Some(InjectedFault::Slow)
    } else if draw < vanishes {
        Some(InjectedFault::Vanishes)
    } else if draw < closes {
        Some(InjectedFault::Closes)
    } else if draw < wrong_password {
        Some(InjectedFault::WrongPassword)
    } else if draw < refuses {
        Some(InjectedFault::Refuses)
    } else {
        None
    }
}

impl FaultPlan {
    /// Returns the fault of the meter with this number, or `None` if it has none. A meter has no
    /// fault whose share is 0 percent, and every meter has a fault whose share is 100 percent.
    pub fn fault_of(&self, number: usize) -> Option<InjectedFault>
        ensures value { result ≡ fault_of self.now.shares self.now.seed number }
        ensures shared { IfSome result (λ fault. 0 < share_of self.now.shares fault) }
        ensures certain { (fault : InjectedFault) → share_of self.now.shares fault ≡ 100
            → result ≡ Some fault }
    {
        fault_drawn(self.shares, draw_of(self.seed, number))
    }

    /// Returns the fault of the meter at an IPv4 address, or `None` if it has none or the address
    /// does not begin with 127. The address 127.0.0.0, which no meter has, counts as that of a
    /// meter 0.
    pub fn fault_at(&self, address: [u8; 4]) -> Option<InjectedFault>
        ensures { result ≡ option_and_then (λ number. fault_of self.now.shares self.now.seed number)
            (meter_of address) }
    {
        match meter_at(address) {
            Some(number) => self.fault_of(number),
            None => None,
        }
    }
}
