//! Validates and reads the scripts that a client writes to the script table (IEC 62056-6-2, class
//! 9).
ghost use Rattle.std.specs.Prelude.{◌≡◌, ◌==◌, ◌<◌, ◌≤◌, length, IfOk, IfSome, IsErrOf};
ghost use Rattle.std.specs.Result.{result_map_both, result_ok};
ghost use Rattle.std.specs.List.{All, list_any};
ghost use Rattle.script_steps.specs.Forms.{identifier_of};
ghost use Rattle.cosem_names.specs.WriteFault.{fault_of_items, values};
ghost use Rattle.script_steps.specs.Reading.{max_steps, method_parameter_of, step_with, step_of, judged_script, script_of, are_distinct, judged_scripts};
ghost use Rattle.script_steps.specs.Table.{IsStep, IsScript};

use crate::action::Action;
use crate::forms::{identifier_in, script_parts, step_parts};
use crate::step::{Script, Step};
use crate::table::{MAX_SCRIPTS, MAX_STEPS};
use cosem_axdr::Data;
use cosem_names::{WriteFault, judge_each};
use disconnect_control::read_mode;
use limiter_attributes::{read_number, read_profile};
use std::alloc::{AllocError, Global};
use wire_bytes::Listed;

// Reads the parameter of a method: null-data or an integer, else `Unmatched`.
fn read_method_parameter(value: &Data) -> Result<(), WriteFault>
    ensures { result ≡ method_parameter_of value.now }
{
    match value {
        Data::Null | Data::Integer(_) => Ok(()),
        _ => Err(WriteFault::Unmatched),
    }
}

// Reads the step of an action with its parameter: `Unmatched` if the parameter's type differs,
// then `Value` if the attribute does not accept the value.
#[tactic(auto, unfolding(crate::specs::Reading::step_with))]
fn step_with(action: Action, parameter: &Data) -> Result<Step, WriteFault>
    ensures exact { result ≡ step_with action parameter.now }
    ensures fit { IfOk result IsStep }
{
    Ok(match action {
        Action::Mode => Step::WriteMode(read_mode(parameter)?),
        Action::Normal(which) => Step::WriteNormal(which, read_number(parameter)?),
        Action::Emergency(which) => Step::WriteEmergency(which, read_number(parameter)?),
        Action::MinOver(which) => Step::WriteMinOver(which, read_number(parameter)?),
        Action::MinUnder(which) => Step::WriteMinUnder(which, read_number(parameter)?),
        Action::Profile(which) => Step::WriteProfile(which, read_profile(parameter)?),
        Action::Disconnect => {
            read_method_parameter(parameter)?;
            Step::Disconnect
        }
        Action::Reconnect => {
            read_method_parameter(parameter)?;
            Step::Reconnect
        }
    })
}

// Reads a step. Errors, judged in this order: `Unmatched` if a type other than the parameter's
// differs, `Value` if the step is not listed, then the parameter's.
#[tactic(auto, unfolding(crate::specs::Reading::step_of))]
fn read_step(value: &Data) -> Result<Step, WriteFault>
    ensures exact { result ≡ step_of value.now }
    ensures fit { IfOk result IsStep }
{
    let (address, parameter) = step_parts(value).ok_or(WriteFault::Unmatched)?;
    let action = Action::at(address).ok_or(WriteFault::Value)?;
    step_with(action, parameter)
}

// Returns the identifier of a script and its steps, once all of them are judged. The steps' fault
// is reported first, then `Value` if the identifier is 0 or there are more than `MAX_STEPS` steps.
#[tactic(auto, unfolding(crate::specs::Reading::judged_script))]
fn judge_script(value: &Data) -> Result<(u16, &[Data]), WriteFault>
    ensures exact { result_map_both (λ parts. (parts.0, parts.1.now)) (λ fault. fault) result
        ≡ judged_script value.now }
    ensures fit { IfOk result (λ parts. (0 < parts.0) × (length parts.1.now ≤ max_steps)) }
{
    let (identifier, steps) = script_parts(value).ok_or(WriteFault::Unmatched)?;
    judge_each(steps, |step| read_step(step))?;
    if identifier == 0 || steps.len() > MAX_STEPS {
        return Err(WriteFault::Value);
    }
    Ok((identifier, steps))
}

// Judges a script, and returns its fault if it has one.
#[tactic(auto, unfolding(crate::specs::Reading::script_of))]
fn script_fault(value: &Data) -> Result<(), WriteFault>
    ensures { result ≡ result_map_both (λ script. tt) (λ fault. fault) (script_of value.now) }
{
    judge_script(value)?;
    Ok(())
}

// Returns whether one of the scripts has this identifier.
fn is_identifier_of_any(items: &[Data], identifier: u16) -> bool
    ensures { result ≡ list_any (λ item. identifier_of item == identifier) items.now }
{
    items.iter().any(|item| identifier_in(item) == identifier)
}

// Returns whether all scripts have different identifiers.
fn are_distinct(items: &[Data]) -> bool
    ensures { result ≡ are_distinct identifier_of items.now }
{
    for (i, item) in items.iter().enumerate() {
        if is_identifier_of_any(&items[i + 1..], identifier_in(item)) {
            return false;
        }
    }
    true
}

// Judges each script individually: `Unmatched` if any has a wrong type, then `Value` if any has a
// wrong value.
fn judge_each_script(items: &[Data]) -> Result<(), WriteFault>
    ensures exact { result ≡ fault_of_items script_of items.now }
    ensures no_memory { ¬ IsErrOf result WriteFault.Memory }
{
    judge_each(items, |item| script_fault(item))
}

// Judges a table's scripts: the fault of a script first, then `Value` if there are more than
// `MAX_SCRIPTS` or two have the same identifier.
#[tactic(auto, unfolding(crate::specs::Reading::judged_scripts))]
pub(crate) fn judge_scripts(items: &[Data]) -> Result<(), WriteFault>
    ensures exact { result ≡ judged_scripts items.now }
    ensures no_memory { ¬ IsErrOf result WriteFault.Memory }
{
    judge_each_script(items)?;
    if items.len() > MAX_SCRIPTS || !are_distinct(items) {
        return Err(WriteFault::Value);
    }
    Ok(())
}

// Returns the steps that have no fault.
fn read_steps(alloc: Global, items: &[Data]) -> Result<Listed<Step>, AllocError>
    ensures steps { IfOk result (λ steps. steps ≡ values step_of items.now) }
    ensures fit { IfOk result (λ steps. All IsStep steps) }
    ensures within_max { IfOk result (λ steps. length steps ≤ length items.now) }
{
    let mut steps = Vec::new(alloc);
    for item in items {
        let Ok(step) = read_step(item) else {
            continue;
        };
        steps.push(step)?;
    }
    Ok(Listed::from_vec(steps))
}

// Reads a script. Returns `None` if it has a fault.
#[tactic(auto, unfolding(crate::specs::Reading::script_of, crate::specs::Reading::judged_script))]
fn read_script(alloc: Global, value: &Data) -> Result<Option<Script>, AllocError>
    ensures script { IfOk result (λ script. script ≡ result_ok (script_of value.now)) }
    ensures fit { IfOk result (λ script. IfSome script IsScript) }
{
    let Ok((identifier, steps)) = judge_script(value) else {
        return Ok(None);
    };
    let steps = read_steps(alloc, steps)?;
    Ok(Some(Script { identifier, steps }))
}

// Returns the scripts that have no fault.
pub(crate) fn read_scripts(alloc: Global, items: &[Data]) -> Result<Listed<Script>, AllocError>
    ensures scripts { IfOk result (λ scripts. scripts ≡ values script_of items.now) }
    ensures fit { IfOk result (λ scripts. All IsScript scripts) }
{
    let mut scripts = Vec::new(alloc);
    for item in items {
        let Some(script) = read_script(alloc, item)? else {
            continue;
        };
        scripts.push(script)?;
    }
    Ok(Listed::from_vec(scripts))
}
