//! Converts the script table to the Data that a client reads (IEC 62056-6-2, class 9, scripts).
ghost use Rattle.std.specs.Prelude.{◌≡◌, map, IfOk};
ghost use Rattle.cosem_names.specs.Forms.{array_with};
ghost use Rattle.script_steps.specs.Writing.{parameter_of, addressed_step, step_data, script_data, data_of};

use crate::action::Address;
use crate::step::{Script, Step};
use cosem_axdr::{Data, Items, Octets};
use limiter_attributes::write_profile;
use std::alloc::{AllocError, Global};

// Returns the Data of the parameter of a step. The parameter of a method is the integer 0.
fn parameter(alloc: Global, step: &Step) -> Result<Data, AllocError>
    ensures { IfOk result (λ value. value ≡ parameter_of step.now) }
{
    Ok(match step {
        Step::WriteMode(mode) => Data::Enum(u8::from(*mode)),
        Step::WriteNormal(_, number)
        | Step::WriteEmergency(_, number)
        | Step::WriteMinOver(_, number)
        | Step::WriteMinUnder(_, number) => Data::DoubleLongUnsigned(*number),
        Step::WriteProfile(_, profile) => write_profile(alloc, profile)?,
        Step::Disconnect | Step::Reconnect => Data::Integer(0),
    })
}

// Returns the Data of a step with this address and parameter: a structure of service_id, class_id,
// logical_name, index and parameter.
fn write_addressed_step(
    alloc: Global,
    address: Address,
    parameter: Data,
) -> Result<Data, AllocError>
    ensures { IfOk result (λ value. value ≡ addressed_step address parameter) }
{
    let name = Octets::from_slice(alloc, &address.name.0)?;
    Ok(Data::Structure(Items::from_vec(vec![in alloc;
        Data::Enum(address.service),
        Data::LongUnsigned(address.class.0),
        Data::OctetString(name),
        Data::Integer(address.index),
        parameter,
    ]?)))
}

// Returns the Data of a step.
#[tactic(auto, unfolding(crate::specs::Writing::step_data))]
fn write_step(alloc: Global, step: &Step) -> Result<Data, AllocError>
    ensures { IfOk result (λ value. value ≡ step_data step.now) }
{
    let parameter = parameter(alloc, step)?;
    write_addressed_step(alloc, step.action().address(), parameter)
}

// Returns the Data of the steps of a script.
fn write_steps(alloc: Global, steps: &[Step]) -> Result<Data, AllocError>
    ensures { IfOk result (λ value. value ≡ array_with (map step_data steps.now)) }
{
    let mut items = Vec::new(alloc);
    for step in steps {
        items.push(write_step(alloc, step)?)?;
    }
    Ok(Data::Array(Items::from_vec(items)))
}

// Returns the Data of a script.
#[tactic(auto, unfolding(crate::specs::Writing::script_data))]
fn write_script(alloc: Global, script: &Script) -> Result<Data, AllocError>
    ensures { IfOk result (λ value. value ≡ script_data script.now) }
{
    let steps = write_steps(alloc, script.steps.as_slice())?;
    Ok(Data::Structure(Items::from_vec(vec![in alloc;
        Data::LongUnsigned(script.identifier),
        steps,
    ]?)))
}

// Returns the Data of the scripts of a table.
#[tactic(auto, unfolding(crate::specs::Writing::data_of))]
pub(crate) fn write_scripts(alloc: Global, scripts: &[Script]) -> Result<Data, AllocError>
    ensures { IfOk result (λ value. value ≡ data_of scripts.now) }
{
    let mut items = Vec::new(alloc);
    for script in scripts {
        items.push(write_script(alloc, script)?)?;
    }
    Ok(Data::Array(Items::from_vec(items)))
}
