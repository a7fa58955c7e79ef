//! The script table (IEC 62056-6-2, class 9): at most 16 scripts, found by selector, with the null
//! script always present.
ghost use Rattle.std.specs.Prelude.{◌≡◌, ◌↔◌, ◌+◌, ◌<◌, ◌≤◌, [], ◌∷◌, length, drop, Some, Ok, Err, IsOk, IfOk, IfSome, IsErrOf, option_map, slice_get};
ghost use Rattle.cosem_names.specs.declared.write_fault.WriteFault.TheVariants.{Unmatched, Value, Memory};
ghost use Rattle.script_steps.specs.Reading.{max_steps, table_of};
ghost use Rattle.script_steps.specs.Table.{IsScript, IsTable, script_at, steps_at, running_steps};
ghost use Rattle.script_steps.specs.Writing.{data_of};

use crate::reading::{judge_scripts, read_scripts};
use crate::step::{Script, Step};
use crate::writing::write_scripts;
use cosem_axdr::Data;
use cosem_names::WriteFault;
use std::alloc::{AllocError, Global};
use std::marker::Model;
use wire_bytes::Listed;

/// The maximum number of scripts in a table.
pub const MAX_SCRIPTS: usize = 16;

/// The maximum number of steps of a script.
pub const MAX_STEPS: usize = 8;

/// The selector of the null script, which every table has and which has no steps.
pub const NULL_SCRIPT: u16 = 0;

/// A script table (IEC 62056-6-2, class 9, attribute 2): scripts with different identifiers.
#[derive(Debug, Drop)]
pub struct ScriptTable {
    scripts: Listed<Script>,
}

impl Model for ScriptTable {
    ghost use Rattle.std.specs.Prelude.{List};
    ghost use Rattle.script_steps.specs.declared.step.Script.{Script};
    ghost use Rattle.script_steps.specs.Table.{IsTable};

    ghost Value = { List Script };

    ghost view = { λ table. table.scripts };

    ghost invariant = { λ table. IsTable table.scripts };
}

// Returns a copy of scripts.
fn copy_scripts(alloc: Global, scripts: &[Script]) -> Result<Listed<Script>, AllocError>
    ensures { IfOk result (λ copies. copies ≡ scripts.now) }
{
    let mut copies = Vec::new(alloc);
    for script in scripts {
        let steps = Vec::from_slice(alloc, script.steps.as_slice())?;
        copies.push(Script {
            identifier: script.identifier,
            steps: Listed::from_vec(steps),
        })?;
    }
    Ok(Listed::from_vec(copies))
}

impl ScriptTable {
    /// Returns a table without scripts. Does not allocate.
    pub fn new(alloc: Global) -> ScriptTable
        ensures { result ≡ [] }
    {
        ScriptTable {
            scripts: Listed::new(alloc),
        }
    }

    /// Reads a table from the Data that a client writes to attribute 2: an array of scripts, each a
    /// structure of its identifier and an array of its steps. A step is a structure of service_id,
    /// class_id, logical_name, index and parameter.
    ///
    /// Errors, judged in this order: `Unmatched` if a type differs anywhere (but the parameter of a
    /// step that is not listed is not judged); `Value` if there are too many scripts or steps, an
    /// identifier is 0 or occurs twice, a step is not listed, or its attribute does not accept the
    /// value; `Memory` if out of memory.
    #[tactic(auto, unfolding(crate::specs::Reading::table_of))]
    pub fn from_data(alloc: Global, value: &Data) -> Result<ScriptTable, WriteFault>
        ensures ok { IfOk result (λ table. table_of value.now ≡ Ok table) }
        ensures unmatched { IsErrOf result WriteFault.Unmatched
            ↔ (table_of value.now ≡ Err Unmatched) }
        ensures value { IsErrOf result WriteFault.Value ↔ (table_of value.now ≡ Err Value) }
        ensures memory { IsErrOf result WriteFault.Memory → IsOk (table_of value.now) }
    {
        let items = value.array().ok_or(WriteFault::Unmatched)?;
        judge_scripts(items)?;
        let scripts = read_scripts(alloc, items)?;
        Ok(ScriptTable { scripts })
    }

    /// Returns the table as Data, as a client reads attribute 2. The start of an emergency profile
    /// is an octet-string, the parameter of a method is the integer 0. Fails only if out of memory.
    pub fn to_data(&self, alloc: Global) -> Result<Data, AllocError>
        ensures value { IfOk result (λ value. value ≡ data_of self.now) }
        // Reading the Data returns the table.
        ensures read_back { IfOk result (λ value. table_of value ≡ Ok self.now) }
    {
        write_scripts(alloc, self.scripts.as_slice())
    }

    /// Returns the scripts, in order.
    pub fn scripts(&self) -> &[Script]
        ensures scripts { result.now ≡ self.now }
        ensures fit { IsTable self.now }
    {
        self.scripts.as_slice()
    }

    // Returns the script with this identifier, or `None` if the table has none.
    #[tactic(auto, using(crate::proofs::Tables::found_fits))]
    fn script(&self, identifier: u16) -> Option<&Script>
        ensures script { option_map (λ script. script.now) result ≡ script_at identifier self.now }
        ensures fit { IfSome result (λ script. IsScript script.now) }
    {
        self.scripts
            .as_slice()
            .iter()
            .find(|script| script.identifier == identifier)
    }

    /// Returns the number of steps of the script that a selector selects, or `None` if no script
    /// has that identifier. Selector 0 selects the null script, which has no steps. Does not
    /// allocate.
    #[tactic(auto, unfolding(crate::specs::Table::steps_at))]
    pub fn step_count(&self, selector: u16) -> Option<u8>
        ensures count { result ≡ option_map length (steps_at selector self.now) }
        ensures steps { IfSome result (λ count. count ≡ length (running_steps selector self.now)) }
        ensures within_max { IfSome result (λ count. count ≤ max_steps) }
    {
        if selector == NULL_SCRIPT {
            return Some(0);
        }
        let script = self.script(selector)?;
        Some(script.steps.len() as u8)
    }

    /// Returns step `i` of the script that a selector selects, counted from 0. Does not allocate.
    #[tactic(auto, unfolding(crate::specs::Table::steps_at))]
    pub fn step(&self, selector: u16, i: u8) -> Step
        requires { i < length (running_steps selector self.now) }
        ensures step_at { slice_get (running_steps selector self.now) i ≡ Some result }
        ensures rest { drop i (running_steps selector self.now) ≡ result
            ∷ drop (i + 1) (running_steps selector self.now) }
    {
        match self.script(selector) {
            Some(script) => script.steps.as_slice()[usize::from(i)],
            None => unreachable!(),
        }
    }

    /// Returns a copy of the table, or an error if out of memory.
    pub fn try_clone(&self, alloc: Global) -> Result<ScriptTable, AllocError>
        ensures copy { IfOk result (λ table. table ≡ self.now) }
        ensures fit { IsTable self.now }
    {
        let scripts = copy_scripts(alloc, self.scripts.as_slice())?;
        Ok(ScriptTable { scripts })
    }
}
