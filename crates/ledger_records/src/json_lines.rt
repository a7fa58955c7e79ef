//! Appends the jobs of a ledger as lines of JSON.
ghost use Rattle.std.specs.Prelude.{◌≡◌, ◌++◌, IfOk, OnOk, string_bytes};
ghost use Rattle.std.specs.Str.Lossy.{utf8_lossy};
ghost use Rattle.serde_json.specs.Data.{object, string};
ghost use Rattle.serde_json.specs.View.{members_view, view};
ghost use Rattle.serde_json.specs.Written.{compact_text};
ghost use Rattle.ledger_records.specs.Json.{job_members, json_line, last_members};
ghost use Rattle.ledger_records.specs.Json.{outcome_members};

use crate::fields::{
    answer_state, answer_time, outcome_number, outcome_word, seconds_taken, sent_word, utc_text,
};
use ledger_reports::{LedgerLine, standing_of};
use record_parts::{number_value, text_value};
use serde_json::{Map, Value, put};
use std::alloc::{AllocError, Global};
use text_lines::end_line;

// Returns bytes as a string of JSON; what is not UTF-8 is replaced by U+FFFD.
fn word_value(alloc: Global, word: &[u8]) -> Result<Value, AllocError>
    ensures { IfOk result (λ value. view value ≡ string (utf8_lossy word.now)) }
{
    Ok(Value::from(String::from_utf8_lossy(alloc, word)?))
}

// Returns the members of a record whose keys are from `seconds` on.
#[tactic(auto, unfolding(crate::specs::Json::last_members))]
fn last_members(alloc: Global, line: &LedgerLine) -> Result<Map<String, Value>, AllocError>
    ensures { IfOk result (λ members. members_view members.entries ≡ last_members line.now) }
{
    let verb = word_value(alloc, line.job.verb.word())?;
    let state = number_value(answer_state(line.answer));
    let sent = Value::try_from_str(alloc, sent_word(standing_of(line.entry)))?;
    let seconds = number_value(seconds_taken(line.times));
    let mut members = Map::new(alloc);
    put(&mut members, alloc, "verb", verb)?;
    put(&mut members, alloc, "state", state)?;
    put(&mut members, alloc, "sent", sent)?;
    put(&mut members, alloc, "seconds", seconds)?;
    Ok(members)
}

// Returns the members of a record whose keys are from `name` on.
#[tactic(auto, unfolding(crate::specs::Json::outcome_members, crate::specs::Json::last_members))]
fn outcome_members(alloc: Global, line: &LedgerLine) -> Result<Map<String, Value>, AllocError>
    ensures { IfOk result (λ members. members_view members.entries ≡ outcome_members line.now) }
{
    let outcome = Value::try_from_str(alloc, outcome_word(standing_of(line.entry)))?;
    let number = number_value(outcome_number(line.entry));
    let name = word_value(alloc, line.job.id.as_slice())?;
    let mut members = last_members(alloc, line)?;
    put(&mut members, alloc, "outcome", outcome)?;
    put(&mut members, alloc, "number", number)?;
    put(&mut members, alloc, "name", name)?;
    Ok(members)
}

// Returns the members of a record.
#[tactic(auto, unfolding(crate::specs::Json::job_members, crate::specs::Json::outcome_members))]
fn job_members(alloc: Global, line: &LedgerLine) -> Result<Map<String, Value>, AllocError>
    ensures { IfOk result (λ members. members_view members.entries ≡ job_members line.now) }
{
    let ended = text_value(utc_text(alloc, line.times.ended)?);
    let begun = text_value(utc_text(alloc, line.times.begun)?);
    let asked = text_value(utc_text(alloc, answer_time(line.answer))?);
    let address = word_value(alloc, line.job.address.as_slice())?;
    let mut members = outcome_members(alloc, line)?;
    put(&mut members, alloc, "ended_at", ended)?;
    put(&mut members, alloc, "begun_at", begun)?;
    put(&mut members, alloc, "asked_at", asked)?;
    put(&mut members, alloc, "address", address)?;
    Ok(members)
}

// Returns a record as a JSON object without blanks.
fn object_text(alloc: Global, line: &LedgerLine) -> Result<String, AllocError>
    ensures { IfOk result (λ text. string_bytes text
        ≡ compact_text (object (job_members line.now))) }
{
    let object = Value::from(job_members(alloc, line)?);
    let text = object.to_string(alloc)?;
    Ok(text)
}

/// Appends a job as a JSON object and the byte 0A that ends its line. The members are `address`,
/// `asked_at` (when the asking began in which the meter reported its state, in UTC), `begun_at`
/// (when the job was marked), `ended_at` (when its outcome was stored), `name`, `number` (of the
/// outcome), `outcome` (a word), `seconds` (between `begun_at` and `ended_at`), `sent` (`yes`, `no`
/// or `maybe`), `state` (the control state that the meter reported, 0 to 2) and `verb`. A value
/// that is not known is null. Fails only if out of memory.
#[tactic(auto, unfolding(crate::specs::Json::json_line))]
pub fn write_json(alloc: Global, out: &mut Vec<u8>, line: &LedgerLine) -> Result<(), AllocError>
    ensures { OnOk result (out.new.items ≡ out.old.items ++ json_line line.now) }
{
    let text = object_text(alloc, line)?;
    out.extend_from_slice(text.as_bytes())?;
    end_line(out)
}
