//! Passwords of jobs, by their names. tests/command_lines.py plays lists with wrong lines, and jobs
//! without a password.
use cosem_axdr::Octets;
use head_end::{PasswordsFault, passwords_for, read_jobs};
use std::alloc::Global;

/// Lists of passwords, and the password of the job m1 with the common password 12345678.
static LISTS: [(&[u8], &[u8]); 2] = [
    (b"m2 22222222\n\nm9 9\nm1 1\nm1 later\n", b"1"),
    (b"m2 22222222", b"12345678"),
];

/// Returns whether the passwords are this one and 22222222.
fn are_both(passwords: &[Octets], first: &[u8]) -> bool {
    match passwords {
        [one, two] => one.as_slice() == first && two.as_slice() == b"22222222".as_slice(),
        _ => false,
    }
}

/// Returns whether the job m1 has this password by a list, and the job m2 has 22222222.
fn has_password(alloc: Global, list: &[u8], first: &[u8]) -> Result<bool, PasswordsFault> {
    let Ok(jobs) = read_jobs(alloc, b"m1 a state\nm2 b state\n") else {
        return Err(PasswordsFault::Memory);
    };
    let passwords = passwords_for(alloc, jobs.as_slice(), list, Some(b"12345678"));
    drop(jobs);
    let passwords = passwords?;
    let has_both = are_both(passwords.as_slice(), first);
    drop(passwords);
    Ok(has_both)
}

#[test]
fn each_job_has_the_password_of_its_name(rt: HostRuntime) {
    for (list, first) in &LISTS {
        assert!(rt;
            has_password(rt.alloc(), list, first) == Ok(true),
            "{list:?}"
        );
    }
}
