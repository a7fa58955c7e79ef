//! Which meter of a fleet an address means.
ghost use Rattle.std.specs.Prelude.{◌≡◌};
ghost use Rattle.fleet_links.specs.Addresses.{meter_of};

// The first byte of the loopback addresses.
const LOOPBACK: u8 = 127;

/// Returns the number of the meter at an IPv4 address: 127.0.0.1 is meter 1, 127.0.1.0 is meter
/// 256, up to 127.255.255.255, which is meter 16,777,215. 127.0.0.0 is meter 0, which no fleet has.
/// `None` for any other network.
pub fn meter_at(address: [u8; 4]) -> Option<usize>
    ensures { result ≡ meter_of address }
{
    if address[0] == LOOPBACK {
        let high = usize::from(address[1]) * 65_536;
        let middle = usize::from(address[2]) * 256;
        Some(high + middle + usize::from(address[3]))
    } else {
        None
    }
}
