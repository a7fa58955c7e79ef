//! Lines that are saved to a file.
use crate::fronts::{ALL, first_file, leaves_fronts};
use crate::meters::asked_port;
use durable_lines::recover;
use meter_journal::save;
use std::test::Fail;

#[test]
fn a_save_appends_the_lines_of_three_events(rt: HostRuntime) -> Result<(), Fail> {
    let alloc = rt.alloc();
    let mut port = asked_port(&rt, alloc)?.ok_or("an event got no reply")?;
    let mut file = first_file(alloc)?;
    recover(alloc, &mut file)?;
    let saved = save(&rt, alloc, &mut port, &mut file, 0, Vec::new(alloc));
    drop(port);
    assert!(rt; saved?.count == 3);
    assert!(rt; file.bytes()?.as_slice() == ALL);
    assert!(rt; file.after_crash(file.moment(), &[])?.as_slice() == ALL);
    assert!(rt; leaves_fronts(alloc, &file)?);
    Ok(())
}
