//! Script tables: what their texts are read as. tests/object_rows.py has each form of a table and
//! of its steps.
use crate::texts::data;
use cosem_axdr::Data;
use disconnect_control::ControlMode;
use script_steps::{NULL_SCRIPT, ScriptFault, ScriptTable, Step, written_table_is_read};
use std::alloc::Global;
use std::test::Fail;

/// {write control_mode 0} and {execute remote_disconnect} as script 3.
const TABLE: &str = "010102021200030102\
    020516011200460906000060030AFF0F041600\
    020516021200460906000060030AFF0F010F00";

// Calls the function under test. It has no contract: a test checks what no clause states, and is
// proved faster without one.
fn read(alloc: Global, value: &Data) -> Result<ScriptTable, ScriptFault> {
    ScriptTable::from_data(alloc, value)
}

/// Returns the table of a hexadecimal text.
fn table(alloc: Global, text: &str) -> Option<ScriptTable> {
    let value = data(alloc, text)?;
    let table = read(alloc, &value).ok();
    drop(value);
    table
}

/// Returns step `i` of a script, if it has one.
fn step_of(table: &ScriptTable, selector: u16, i: u8) -> Option<Step> {
    let count = table.step_count(selector)?;
    if i < count {
        Some(table.step(selector, i))
    } else {
        None
    }
}

/// Returns a copy of the table of a text.
fn copy_table(alloc: Global, text: &str) -> Option<ScriptTable> {
    let table = table(alloc, text)?;
    let copy = table.try_clone(alloc).ok();
    drop(table);
    copy
}

/// Returns whether a table has script 3 with the steps of `TABLE`, the null script, and no script
/// 9.
fn has_steps(table: &ScriptTable) -> bool {
    let counts = (
        table.step_count(3),
        table.step_count(NULL_SCRIPT),
        table.step_count(9),
    );
    counts == (Some(2), Some(0), None)
        && matches!(step_of(table, 3, 0), Some(Step::WriteMode(mode)) if mode == ControlMode::Mode0)
        && matches!(step_of(table, 3, 1), Some(Step::Disconnect))
        && step_of(table, 3, 2).is_none()
}

#[test]
fn a_table_has_its_steps(rt: HostRuntime) -> Result<(), Fail> {
    let table = copy_table(rt.alloc(), TABLE).ok_or("a table")?;
    let is_so = has_steps(&table);
    drop(table);
    assert!(rt; is_so);
    written_table_is_read();
    Ok(())
}
