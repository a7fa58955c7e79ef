//! The bits of the conformance block, as IEC 62056-5-3 numbers them: bit 0 is the highest of 24.
use acse_ber::{Conformance, OFFERED_CONFORMANCE};

#[test]
fn each_service_has_the_bit_of_the_standard(rt: HostRuntime) {
    let bits = [
        Conformance::BLOCK_TRANSFER_WITH_GET_OR_READ.0,
        Conformance::BLOCK_TRANSFER_WITH_SET_OR_WRITE.0,
        Conformance::BLOCK_TRANSFER_WITH_ACTION.0,
        Conformance::MULTIPLE_REFERENCES.0,
        Conformance::GET.0,
        Conformance::SET.0,
        Conformance::ACTION.0,
    ];
    assert!(rt;
        bits == [0x1000, 0x0800, 0x0400, 0x0200, 0x0010, 0x0008, 0x0001]
            && OFFERED_CONFORMANCE.0 == 0x1E19
    );
}
