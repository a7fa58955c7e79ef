//! The limits of PDU sizes: at most 1,024 bytes, and the size that the client proposed (IEC
//! 62056-5-3).
ghost use Rattle.std.specs.Prelude.{◌≡◌, ◌≤◌, ◌-◌};
ghost use Rattle.session_core.specs.Association.{limit_of};
ghost use Rattle.session_core.specs.Standard.{block_header, greatest_pdu, greatest_raw, least_pdu};
ghost use Rattle.xdlms_blocks.specs.Limits.{min_block_size};

use std::marker::Model;

// The longest PDU that the server sends and receives, in bytes.
pub(crate) const MAX_PDU: u16 = 1024;
// The smallest PDU size that a client may propose, in bytes.
pub(crate) const MIN_PDU: u16 = 64;
// The length of an answer with a block before the block's raw bytes.
pub(crate) const BLOCK_HEADER: u16 = 12;

// The longest PDU that is sent to a client, in bytes: 64 to 1,024. Contracts see the number.
#[derive(Clone, Copy, Debug)]
pub(crate) struct Limit {
    bytes: u16,
}

impl Model for Limit {
    ghost use Rattle.std.specs.Prelude.{ℕ, ◌≤◌};
    ghost use Rattle.session_core.specs.Standard.{least_pdu, greatest_pdu};

    ghost Value = { ℕ };

    ghost view = { λ limit. limit.bytes };

    ghost invariant = { λ limit. (least_pdu ≤ limit.bytes) × (limit.bytes ≤ greatest_pdu) };

    ghost inverse = { λ bytes. record { bytes = bytes } };
}

impl Limit {
    // Returns the limit for the size that a client proposed, where 0 means no limit.
    pub(crate) fn new(proposed: u16) -> Limit
        ensures { result ≡ limit_of proposed }
    {
        let bytes = if proposed == 0 || proposed > MAX_PDU {
            MAX_PDU
        } else if proposed < MIN_PDU {
            MIN_PDU
        } else {
            proposed
        };
        Limit { bytes }
    }

    // Proves that the limit is 64 to 1,024 bytes. Does nothing at run time.
    pub(crate) fn holds_range(self)
        ensures least { least_pdu ≤ self }
        ensures greatest { self ≤ greatest_pdu }
    {
        let _bytes = self.bytes;
    }

    // Returns the number of bytes.
    pub(crate) fn bytes(self) -> u16
        ensures { result ≡ self }
    {
        self.bytes
    }

    // Returns the largest number of raw bytes of a block that fits in a PDU of this size.
    pub(crate) fn raw(self) -> u16
        ensures raw { result ≡ self - block_header }
        ensures in_range { (min_block_size ≤ result) × (result ≤ greatest_raw) }
    {
        self.bytes - BLOCK_HEADER
    }
}
