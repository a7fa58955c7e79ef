//! A list of jobs that is read. tests/unproved/long_tests has long lists, and
//! tests/command_lines.py plays lists with wrong lines and with too many jobs.
use client_core::{Job, Verb};
use head_end::{Jobs, JobsFault, read_jobs};
use std::alloc::Global;
use std::test::Fail;

/// Returns whether a job has this name, this address and this verb.
fn is_job(job: &Job, name: &[u8], address: &[u8], verb: Verb) -> bool {
    job.id.as_slice() == name && job.address.as_slice() == address && job.verb == verb
}

/// Returns whether these are the two jobs of the text.
fn are_both(jobs: &[Job]) -> bool {
    match jobs {
        [first, second] => {
            is_job(first, b"m1", b"127.0.0.1:4059", Verb::Disconnect)
                && is_job(second, b"m2", b"127.0.0.1:4060", Verb::ReadState)
        }
        _ => false,
    }
}

#[test]
fn a_list_of_jobs_is_read(rt: HostRuntime) -> Result<(), Fail> {
    let text = b"m1 127.0.0.1:4059 disconnect\n\nm2 127.0.0.1:4060 state";
    let jobs = read_jobs(rt.alloc(), text)?;
    let has_two = jobs.len() == 2 && !jobs.is_empty();
    let listed = Jobs::try_from(jobs.into_listed());
    let are_listed = match &listed {
        Ok(jobs) => are_both(jobs.as_slice()),
        Err(_) => false,
    };
    drop(listed);
    assert!(rt; has_two && are_listed);
    Ok(())
}

#[test]
fn faults_of_jobs_have_numbers(rt: HostRuntime) {
    let numbers = [
        u8::from(JobsFault::Line(7)),
        u8::from(JobsFault::TooMany),
        u8::from(JobsFault::Memory),
    ];
    assert!(rt; numbers == [1, 2, 3]);
}
