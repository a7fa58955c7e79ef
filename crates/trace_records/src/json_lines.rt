//! Appends records as lines of JSON.
ghost use Rattle.std.specs.Prelude.{◌≡◌, ◌++◌, IfOk, OnOk};
ghost use Rattle.serde_json.specs.Data.{string};
ghost use Rattle.serde_json.specs.View.{members_view, view};
ghost use Rattle.trace_lines.specs.Replies.{supply_text};
ghost use Rattle.trace_records.specs.Json.{json_line, json_object, plain_members};

use crate::civil::civil_time;
use crate::record::Record;
use record_parts::{number_value, text_value};
use serde_json::{Map, Value, put};
use std::alloc::{AllocError, Global};
use text_lines::end_line;

// Returns whether the supply is on as text.
fn supply_value(alloc: Global, output: bool) -> Result<Value, AllocError>
    ensures { IfOk result (λ value. view value ≡ string (supply_text output)) }
{
    Value::try_from_str(alloc, if output { "on" } else { "off" })
}

// Returns the members of each record.
fn plain_members(alloc: Global, row: &Record) -> Result<Map<String, Value>, AllocError>
    ensures { IfOk result (λ members. members_view members.entries ≡ plain_members row.now) }
{
    let time = text_value(civil_time(alloc, row.moment)?);
    let supply = supply_value(alloc, row.output)?;
    let reply = Value::try_from_str(alloc, row.reply.as_str())?;
    let mut members = Map::new(alloc);
    put(&mut members, alloc, "time", time)?;
    put(&mut members, alloc, "supply", supply)?;
    put(&mut members, alloc, "state", Value::from(row.state))?;
    put(&mut members, alloc, "reply", reply)?;
    put(&mut members, alloc, "number", Value::from(row.number))?;
    put(&mut members, alloc, "moment", number_value(row.moment))?;
    Ok(members)
}

// Returns a record as a JSON object.
fn json_object(alloc: Global, row: &Record) -> Result<Value, AllocError>
    ensures { IfOk result (λ value. view value ≡ json_object row.now) }
{
    let mut members = plain_members(alloc, row)?;
    match &row.event {
        Some(event) => {
            let event = Value::try_from_str(alloc, event.as_str())?;
            put(&mut members, alloc, "event", event)?;
            Ok(Value::from(members))
        }
        None => Ok(Value::from(members)),
    }
}

/// Appends a record as a JSON object and the byte 0A that ends its line. The members are `moment`
/// (seconds) and `time` (a civil date and time), both null before the first moment of the clock,
/// `number`, `reply`, `state`, `supply`, and `event` if the record has it. Fails only if out of
/// memory; then the object may have been appended without that byte.
pub fn write_json(alloc: Global, out: &mut Vec<u8>, row: &Record) -> Result<(), AllocError>
    ensures { OnOk result (out.new.items ≡ out.old.items ++ json_line row.now) }
{
    let text = json_object(alloc, row)?.to_string(alloc)?;
    out.extend_from_slice(text.as_bytes())?;
    end_line(out)
}
