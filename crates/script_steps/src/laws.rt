//! Proves that a written script table is read back, and that each step names an attribute or a
//! method of the meter that the management client may use.
ghost use Rattle.std.specs.Prelude.{◌≡◌, ◌↔◌, List, Ok};
ghost use Rattle.cosem_axdr.specs.declared.value.Data.{Data};
ghost use Rattle.script_steps.specs.Ranges.{AreScriptsInRange};
ghost use Rattle.script_steps.specs.declared.step.Script.{Script};
ghost use Rattle.script_steps.specs.declared.step.Step.{Step};
ghost use Rattle.script_steps.specs.Law.{IsListed, IsInTable, IsNamed};
ghost use Rattle.script_steps.specs.Reading.{table_of};
ghost use Rattle.script_steps.specs.Table.{IsTable};
ghost use Rattle.script_steps.specs.Writing.{data_of};

/// Proves that reading a written table returns the table: its scripts, each with its listed steps.
#[tactic(auto, using(crate::proofs::Again::table_again))]
pub fn written_table_is_read()
    ensures { (scripts : List Script) → IsTable scripts → table_of (data_of scripts) ≡ Ok scripts }
{}

/// Proves that the steps of a table that is read have durations of 32 bits.
pub fn read_table_is_in_range()
    ensures { (value : Data) (scripts : List Script) → table_of value ≡ Ok scripts
        → AreScriptsInRange scripts }
{}

/// Proves that each step is found by its address, and that this address is in the table of the
/// meter's objects. It names the switch, or the limiter of the step's direction, by its class and
/// logical name, and there an attribute that the management client may write or a method that it
/// may execute. A step that writes a limiter names the attribute that it writes.
pub fn each_step_is_listed()
    ensures listed { (step : Step) → IsListed step }
    ensures in_table { (step : Step) → IsInTable step }
    ensures named { (step : Step) → IsNamed step }
{}
