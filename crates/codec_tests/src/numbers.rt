//! The numbers of the codecs' faults. They are public: new faults are added at the end.
use acse_ber::AcseFault;
use cosem_axdr::DataFault;
use wrapper_frame::WrapperFault;
use xdlms_apdu::ApduFault;
use xdlms_blocks::BlockFault;

#[test]
fn faults_have_numbers(rt: HostRuntime) {
    let of_data = [
        u8::from(DataFault::Truncated),
        u8::from(DataFault::UnknownTag),
        u8::from(DataFault::TooDeep),
        u8::from(DataFault::TooLong),
        u8::from(DataFault::Memory),
    ];
    let of_apdus = [
        u8::from(ApduFault::UnknownTag),
        u8::from(ApduFault::UnknownForm),
        u8::from(ApduFault::Unreadable),
        u8::from(ApduFault::Memory),
    ];
    let of_frames = [
        u8::from(WrapperFault::Version),
        u8::from(WrapperFault::TooLong),
        u8::from(WrapperFault::Memory),
    ];
    let of_blocks = [
        u8::from(BlockFault::NoTransfer),
        u8::from(BlockFault::WrongNumber),
        u8::from(BlockFault::TooLong),
        u8::from(BlockFault::Memory),
    ];
    let of_acse = [u8::from(AcseFault::Unreadable), u8::from(AcseFault::Memory)];
    assert!(rt;
        of_data == [1, 2, 3, 4, 5]
            && of_apdus == [1, 2, 3, 4]
            && of_frames == [1, 2, 3]
            && of_blocks == [1, 2, 3, 4]
            && of_acse == [1, 2]
    );
}
