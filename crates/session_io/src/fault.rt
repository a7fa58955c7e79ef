//! The errors of serving a client and of the commands on hexadecimal text, with their numbers.
ghost use Rattle.std.specs.Prelude.{◌≡◌};
ghost use Rattle.session_io.specs.Numbers.{serve_number, hex_number};
ghost use Rattle.session_io.specs.Hexadecimal.{hex_fault_of};
ghost use Rattle.session_io.specs.Settling.{fault_of};
ghost use Rattle.session_io.specs.declared.fault.HexFault.TheVariants as hex_fault;
ghost use Rattle.session_io.specs.declared.fault.ServeFault.TheVariants as serve_fault;
ghost use Rattle.session_io.specs.declared.fault.TextFault.TheVariants as text_fault;

use std::alloc::AllocError;
use thiserror::Error;
use turn_lock::CallFault;

/// Why a server stopped.
#[derive(Clone, Copy, Debug, PartialEq, Eq, Error)]
pub enum ServeFault {
    /// A read failed, or the session has made the largest allowed number of reads.
    #[error("a read failed or timed out")]
    Read = 1,
    /// A write failed.
    #[error("a write failed or timed out")]
    Write = 2,
    /// Out of memory.
    #[error("out of memory")]
    Memory = 3,
    /// The meter accepts no more events.
    #[error("the meter accepts no more calls")]
    Exhausted = 4,
    /// No connection could be accepted.
    #[error("no connection could be accepted")]
    Listen = 5,
    /// The journal has failed: it is not certain that the last event is on the disk.
    #[error("the journal has failed")]
    Journal = 6,
}

impl From<AllocError> for ServeFault {
    ghost from_gives = { λ _ fault. fault ≡ serve_fault.Memory };

    fn from(_error: AllocError) -> ServeFault {
        ServeFault::Memory
    }
}

impl From<CallFault> for ServeFault {
    ghost from_gives = { λ call fault. fault ≡ fault_of call };

    fn from(fault: CallFault) -> ServeFault {
        match fault {
            CallFault::Memory => ServeFault::Memory,
            CallFault::Exhausted => ServeFault::Exhausted,
            CallFault::Journal => ServeFault::Journal,
        }
    }
}

/// Converts a fault to its number, 1 to 6.
impl From<ServeFault> for u8 {
    ghost from_gives = { λ fault number. number ≡ serve_number fault };

    fn from(fault: ServeFault) -> u8 {
        fault as u8
    }
}

/// Why the session of a text of hexadecimal was not served to its end.
#[derive(Clone, Copy, Debug, PartialEq, Eq, Error)]
pub enum HexFault {
    /// The text is not pairs of hexadecimal digits.
    #[error("expected pairs of hexadecimal digits")]
    Digits = 1,
    /// The text has more than 1,048,576 characters.
    #[error("a text of more than 1,048,576 characters")]
    TooLong = 2,
    /// A read failed.
    #[error("a read failed")]
    Read = 3,
    /// A write failed.
    #[error("a write failed")]
    Write = 4,
    /// Out of memory.
    #[error("out of memory")]
    Memory = 5,
}

impl From<AllocError> for HexFault {
    ghost from_gives = { λ _ fault. fault ≡ hex_fault.Memory };

    fn from(_error: AllocError) -> HexFault {
        HexFault::Memory
    }
}

/// Converts a fault to its number, 1 to 5.
impl From<HexFault> for u8 {
    ghost from_gives = { λ fault number. number ≡ hex_number fault };

    fn from(fault: HexFault) -> u8 {
        fault as u8
    }
}

/// Why a text of hexadecimal was not decoded. Characters are counted from 1.
#[derive(Clone, Copy, Debug, PartialEq, Eq, Error)]
pub enum TextFault {
    /// The character with this number is not a hexadecimal digit, a blank or part of a line end.
    #[error("character {0} is not a hexadecimal digit")]
    Digit(usize),
    /// The number of digits is odd.
    #[error("an odd number of hexadecimal digits")]
    OddDigits,
    /// The text has more than 1,048,576 characters.
    #[error("a text of more than 1,048,576 characters")]
    TooLong,
    /// A read failed.
    #[error("a read failed")]
    Read,
    /// Out of memory.
    #[error("out of memory")]
    Memory,
}

impl From<AllocError> for TextFault {
    ghost from_gives = { λ _ fault. fault ≡ text_fault.Memory };

    fn from(_error: AllocError) -> TextFault {
        TextFault::Memory
    }
}

/// Converts a fault; `Digit` and `OddDigits` both become `Digits`.
impl From<TextFault> for HexFault {
    ghost from_gives = { λ text fault. fault ≡ hex_fault_of text };

    fn from(fault: TextFault) -> HexFault {
        match fault {
            TextFault::Digit(_) | TextFault::OddDigits => HexFault::Digits,
            TextFault::TooLong => HexFault::TooLong,
            TextFault::Read => HexFault::Read,
            TextFault::Memory => HexFault::Memory,
        }
    }
}
