//! The numbers of the faults and ends of sessions, calls and saved states. They are public: new
//! ones are added at the end.
use relay_core::OpeningFault;
use session_core::SessionEnd;
use session_io::ServeFault;
use turn_lock::CallFault;

#[test]
fn ends_and_faults_have_numbers(rt: HostRuntime) {
    let of_serving = [
        u8::from(ServeFault::Read),
        u8::from(ServeFault::Write),
        u8::from(ServeFault::Memory),
        u8::from(ServeFault::Exhausted),
        u8::from(ServeFault::Listen),
        u8::from(ServeFault::Journal),
    ];
    let of_calls = [
        u8::from(CallFault::Memory),
        u8::from(CallFault::Exhausted),
        u8::from(CallFault::Journal),
    ];
    let of_ends = [
        u8::from(SessionEnd::Closed),
        u8::from(SessionEnd::Cut),
        u8::from(SessionEnd::BadVersion),
        u8::from(SessionEnd::TooLong),
    ];
    let of_openings = [
        u8::from(OpeningFault::Unfit),
        u8::from(OpeningFault::Memory),
    ];
    assert!(rt;
        of_serving == [1, 2, 3, 4, 5, 6]
            && of_calls == [1, 2, 3]
            && of_ends == [1, 2, 3, 4]
            && of_openings == [1, 2]
    );
}
