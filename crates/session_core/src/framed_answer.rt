//! A frame with an answer that is ready to be returned to the caller.
ghost use Rattle.std.specs.Prelude.{◌≤◌, length};
ghost use Rattle.session_core.specs.Standard.{greatest_frame};

use cosem_axdr::Octets;

// A frame with an answer. It is at most as long as the header and a PDU.
#[derive(Drop)]
pub(crate) struct FramedAnswer {
    pub(crate) text: Octets,
    ghost within_max: { length text ≤ greatest_frame },
}
