//! The result codes of services, Data-Access-Result and Action-Result (IEC 62056-5-3), and their
//! numbers.
ghost use Rattle.std.specs.Prelude.{◌≡◌};
ghost use Rattle.cosem_names.specs.ResultCode.{code_of, result_of};
ghost use Rattle.cosem_names.specs.UnknownNumber.{Finds};

use crate::unknown_number::UnknownNumber;

/// The result of a service: Data-Access-Result and Action-Result (IEC 62056-5-3).
#[derive(Clone, Copy, Debug, PartialEq, Eq)]
pub enum ResultCode {
    /// 0, success: the service was executed.
    Success,
    /// 1, hardware-fault. This meter never returns it.
    HardwareFault,
    /// 2, temporary-failure: the present state of the meter does not allow it.
    TemporaryFailure,
    /// 3, read-write-denied: the client has no right to it, or the class has no attribute or method
    /// of that number.
    ReadWriteDenied,
    /// 4, object-undefined: no object has this logical name.
    ObjectUndefined,
    /// 9, object-class-inconsistent: the object is of another class.
    ObjectClassInconsistent,
    /// 12, type-unmatched: the written value has a wrong type.
    TypeUnmatched,
    /// 13, scope-of-access-violated: a part of an attribute was requested.
    ScopeOfAccessViolated,
    /// 16, no-long-get-in-progress: a block was requested without a transfer. In an answer to an
    /// ACTION, no-long-action-in-progress.
    NoLongGetInProgress,
    /// 18, no-long-set-in-progress: a block of a SET arrived without a transfer.
    NoLongSetInProgress,
    /// 19, data-block-number-invalid: a block has an unexpected number.
    DataBlockNumberInvalid,
    /// 250, other-reason: a written value is not accepted, a script does not exist, the meter is
    /// out of memory, or any other reason.
    OtherReason,
}

impl ResultCode {
    /// Returns the number of the result in an APDU.
    pub fn code(self) -> u8
        ensures { result ≡ code_of self }
    {
        match self {
            ResultCode::Success => 0,
            ResultCode::HardwareFault => 1,
            ResultCode::TemporaryFailure => 2,
            ResultCode::ReadWriteDenied => 3,
            ResultCode::ObjectUndefined => 4,
            ResultCode::ObjectClassInconsistent => 9,
            ResultCode::TypeUnmatched => 12,
            ResultCode::ScopeOfAccessViolated => 13,
            ResultCode::NoLongGetInProgress => 16,
            ResultCode::NoLongSetInProgress => 18,
            ResultCode::DataBlockNumberInvalid => 19,
            ResultCode::OtherReason => 250,
        }
    }
}

/// Returns the result of a number. Fails if no result of this meter has it.
impl TryFrom<u8> for ResultCode {
    type Error = UnknownNumber;

    ghost try_from_gives = { Finds result_of };

    #[tactic(auto, unfolding(crate::specs::ResultCode::result_of))]
    fn try_from(code: u8) -> Result<ResultCode, UnknownNumber> {
        Ok(match code {
            0 => ResultCode::Success,
            1 => ResultCode::HardwareFault,
            2 => ResultCode::TemporaryFailure,
            3 => ResultCode::ReadWriteDenied,
            4 => ResultCode::ObjectUndefined,
            9 => ResultCode::ObjectClassInconsistent,
            12 => ResultCode::TypeUnmatched,
            13 => ResultCode::ScopeOfAccessViolated,
            16 => ResultCode::NoLongGetInProgress,
            18 => ResultCode::NoLongSetInProgress,
            19 => ResultCode::DataBlockNumberInvalid,
            250 => ResultCode::OtherReason,
            _ => return Err(UnknownNumber(code)),
        })
    }
}
