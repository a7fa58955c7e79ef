//! The rounds of jobs, and the order in which one meter's jobs run.
use head_end::{jobs_of_a_meter_run_in_order, read_jobs, rounds_of};
use std::test::Fail;

#[test]
fn a_round_has_one_job_of_each_meter(rt: HostRuntime) -> Result<(), Fail> {
    let text = b"1 a state\n2 b state\n3 a state\n4 c state\n5 b state\n6 a state\n";
    let jobs = read_jobs(rt.alloc(), text)?;
    let rounds = rounds_of(rt.alloc(), jobs.as_slice());
    drop(jobs);
    let are_three = match &rounds {
        Ok(rounds) => {
            rounds.count == 3 && rounds.of_jobs.as_slice() == [0, 0, 1, 0, 1, 2].as_slice()
        }
        Err(_) => false,
    };
    drop(rounds);
    assert!(rt; are_three);
    jobs_of_a_meter_run_in_order();
    Ok(())
}
