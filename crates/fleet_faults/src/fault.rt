//! `InjectedFault`: the faults that a meter can have.
ghost use Rattle.std.specs.Prelude.{◌≡◌};
ghost use Rattle.fleet_faults.specs.Shares.{fault_named};

/// A fault of a meter: every connection to it has the fault, or the meter itself has it from its
/// start.
#[derive(Clone, Copy, Debug, PartialEq, Eq)]
pub enum InjectedFault {
    /// The client receives no byte. The meter carries out its requests.
    Silent,
    /// The client receives every answer, but late.
    Slow,
    /// The client receives the first frame, which answers its association request, and the first
    /// half of the second frame. Then the connection is closed. The meter has carried out the
    /// request that the second frame answers.
    Vanishes,
    /// The connection is closed before the client receives a byte.
    Closes,
    /// The meter has another password than the fleet's, so that it refuses the association of a
    /// client with the fleet's password.
    WrongPassword,
    /// The meter starts in control mode 0, in which it refuses every remote disconnection and
    /// reconnection (IEC 62056-6-2, class 70, control_mode).
    Refuses,
}

impl InjectedFault {
    /// Returns the fault with this name: `silent`, `slow`, `vanishes`, `closes`, `wrong-password`
    /// or `refuses`.
    #[tactic(auto, unfolding(crate::specs::Shares::fault_named))]
    pub fn from_name(name: &[u8]) -> Option<InjectedFault>
        ensures { result ≡ fault_named name.now }
    {
        if name == b"silent".as_slice() {
            Some(InjectedFault::Silent)
        } else if name == b"slow".as_slice() {
            Some(InjectedFault::Slow)
        } else if name == b"vanishes".as_slice() {
            Some(InjectedFault::Vanishes)
        } else if name == b"closes".as_slice() {
            Some(InjectedFault::Closes)
        } else if name == b"wrong-password".as_slice() {
            Some(InjectedFault::WrongPassword)
        } else if name == b"refuses".as_slice() {
            Some(InjectedFault::Refuses)
        } else {
            None
        }
    }
}
