//! The fields of a record, by the entry of a job, its times and its answer.
ghost use Rattle.std.specs.Prelude.{◌≡◌, IfOk, option_map, string_bytes};
ghost use Rattle.ledger_records.specs.Fields.{answer_state, answer_time, outcome_number};
ghost use Rattle.ledger_records.specs.Fields.{outcome_word, seconds_taken, sent_word, utc_text};

use campaign_ledger::LedgerEntry;
use client_core::Outcome;
use ledger_reports::{LedgerTimes, MeterState, Standing};
use record_parts::civil_text;
use std::alloc::{AllocError, Global};

// 1 January 1970, as the number of days since 1 January of the year 0.
const FIRST_DAY_OF_1970: u32 = 719_528;

// Returns the word of a standing.
pub(crate) fn outcome_word(standing: Standing) -> &'static str
    ensures { result.now ≡ outcome_word standing }
{
    match standing {
        Standing::Done => "done",
        Standing::Refused => "refused",
        Standing::Rejected => "rejected",
        Standing::Unknown => "unknown",
        Standing::NotSent => "not sent",
    }
}

// Returns whether the request of a job with this standing was sent, as a word.
pub(crate) fn sent_word(standing: Standing) -> &'static str
    ensures { result.now ≡ sent_word standing }
{
    match standing {
        Standing::Done | Standing::Refused => "yes",
        Standing::Rejected | Standing::NotSent => "no",
        Standing::Unknown => "maybe",
    }
}

// Returns the number of the outcome of an entry, if it has one.
pub(crate) fn outcome_number(entry: LedgerEntry) -> Option<u32>
    ensures { result ≡ outcome_number entry }
{
    match entry {
        LedgerEntry::Came(Outcome::Done(number)) => Some(u32::from(number)),
        LedgerEntry::Came(Outcome::Refused(number)) => Some(u32::from(number)),
        LedgerEntry::Came(Outcome::Rejected(number)) => Some(u32::from(number)),
        LedgerEntry::Came(Outcome::Unknown) | LedgerEntry::MaybeSent | LedgerEntry::NotSent => None,
    }
}

// Returns the number of seconds from the mark to the outcome, if both times are known and the clock
// was not set back between them.
pub(crate) fn seconds_taken(times: LedgerTimes) -> Option<u32>
    ensures { result ≡ seconds_taken times }
{
    match (times.begun, times.ended) {
        (Some(begun), Some(ended)) if begun <= ended => Some(ended - begun),
        _ => None,
    }
}

// Returns the control state that the meter reported when it was asked later, if it did.
pub(crate) fn answer_state(answer: Option<MeterState>) -> Option<u32>
    ensures { result ≡ answer_state answer }
{
    match answer {
        Some(answer) => Some(u32::from(answer.state)),
        None => None,
    }
}

// Returns when the asking of this answer began, if there is one and the clock could be read then.
pub(crate) fn answer_time(answer: Option<MeterState>) -> Option<u32>
    ensures { result ≡ answer_time answer }
{
    match answer {
        Some(answer) => answer.asked_at,
        None => None,
    }
}

// Returns a second, if there is one, as a date and time in UTC.
#[tactic(auto, using(crate::proofs::Days::first_day_of_1970_is))]
pub(crate) fn utc_text(alloc: Global, second: Option<u32>) -> Result<Option<String>, AllocError>
    ensures { IfOk result (λ text. option_map string_bytes text ≡ option_map utc_text second) }
{
    match second {
        Some(second) => {
            let mut text = civil_text(alloc, FIRST_DAY_OF_1970, second)?;
            text.push_str("Z")?;
            Ok(Some(text))
        }
        None => Ok(None),
    }
}
