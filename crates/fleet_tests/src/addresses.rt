//! The numbers of the meters at some addresses, worked out by hand.
use fleet_links::meter_at;
use std::test::Fail;

#[test]
fn an_address_is_a_number(rt: HostRuntime) -> Result<(), Fail> {
    assert!(rt;
        meter_at([127, 0, 0, 1]) == Some(1)
            && meter_at([127, 0, 0, 255]) == Some(255)
            && meter_at([127, 0, 1, 0]) == Some(256)
            && meter_at([127, 1, 0, 0]) == Some(65_536)
            && meter_at([127, 15, 66, 64]) == Some(1_000_000)
            && meter_at([127, 255, 255, 255]) == Some(16_777_215)
    );
    assert!(rt;
        meter_at([127, 0, 0, 0]) == Some(0)
            && meter_at([10, 0, 0, 1]).is_none()
            && meter_at([128, 0, 0, 1]).is_none()
    );
    Ok(())
}
