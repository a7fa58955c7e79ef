//! The numbers of the faults of values, dates and blocks of samples.
use cosem_datetime::PatternFault;
use lane_sampler::BlockMade;
use script_steps::ScriptFault;

#[test]
fn faults_have_numbers(rt: HostRuntime) {
    let of_dates = [
        u8::from(PatternFault::Length),
        u8::from(PatternFault::Range),
        u8::from(PatternFault::SeasonMonth),
    ];
    let of_scripts = [
        u8::from(ScriptFault::Unmatched),
        u8::from(ScriptFault::Value),
        u8::from(ScriptFault::Memory),
    ];
    let of_blocks = [
        u8::from(BlockMade::TooLong),
        u8::from(BlockMade::Memory),
        u8::from(BlockMade::Uneven),
    ];
    assert!(rt; of_dates == [1, 2, 3] && of_scripts == [1, 2, 3] && of_blocks == [1, 2, 3]);
}
