//! The passwords of a campaign's jobs: those of a list of lines `NAME PASSWORD`, and a common one.
ghost use Rattle.std.specs.Prelude.{◌≡◌, None, IfOk, IfSome, length, replicate};
ghost use Rattle.std.specs.List.{All};
ghost use Rattle.std.specs.Option.{option_copied};
ghost use Rattle.acse_ber.specs.Password.{IsPassword};
ghost use Rattle.head_end.specs.Jobs.{job_lines};
ghost use Rattle.head_end.specs.JobPasswords.{is_password_line, wrong_line_in, password_in};
ghost use Rattle.head_end.specs.JobPasswords.{password_of, password_for, GivesPasswords};

use crate::jobs::{MAX_ID, is_name};
use acse_ber::MAX_PASSWORD;
use client_core::Job;
use cosem_axdr::Octets;
use std::alloc::{AllocError, Global};
use text_lines::{Words, split_line};
use thiserror::Error;
use wire_bytes::Listed;

/// Why jobs have no passwords.
#[derive(Clone, Copy, Debug, PartialEq, Eq, Error)]
pub enum PasswordsFault {
    /// The first invalid line of the list of passwords, counted from 1.
    #[error("line {0} is not a name and a password")]
    Line(u64),
    /// The index of the first job without a password, counted from 0.
    #[error("job {0} has no password")]
    Job(usize),
    /// Out of memory.
    #[error("out of memory")]
    Memory,
}

impl From<AllocError> for PasswordsFault {
    ghost use Rattle.head_end.specs.declared.passwords.PasswordsFault.TheVariants.{Memory};

    ghost from_gives = { λ _ fault. fault ≡ Memory };

    fn from(_error: AllocError) -> PasswordsFault {
        PasswordsFault::Memory
    }
}

/// Returns the password of each job, in the order of the jobs: that of the first line with the
/// job's name, else the common one, which has 1 to 32 bytes.
///
/// The text has lines `NAME PASSWORD` with one blank between the words, each of 1 to 32 bytes from
/// 21 to 7E. Lines end with the byte 0A, which the last may lack; empty lines are skipped, and so
/// are names of no job. Errors, in this order: `Line` with the number of the first wrong line,
/// counted from 1; `Job` with the index of the first job that has no line, if there is no common
/// password. `Memory` can occur at any point.
pub fn passwords_for(
    alloc: Global,
    jobs: &[Job],
    text: &[u8],
    common: Option<&[u8]>,
) -> Result<Listed<Octets>, PasswordsFault>
    requires { IfSome (option_copied common) IsPassword }
    ensures given { GivesPasswords (job_lines text.now) (option_copied common.entry) jobs.now
        result }
    ensures sized { IfOk result (λ passwords. All IsPassword passwords) }
    ensures paired { IfOk result (λ passwords. length passwords ≡ length jobs.now) }
{
    if let Some(number) = find_wrong_line(text) {
        return Err(PasswordsFault::Line(number));
    }
    let mut passwords = Listed::new(alloc);
    for i in 0..jobs.len() {
        let job = &jobs[i];
        let Some(password) = choose_password(text, job, common) else {
            return Err(PasswordsFault::Job(i));
        };
        match passwords.push(Octets::from_slice(alloc, password)?) {
            Ok(()) => {}
            Err(_) => return Err(PasswordsFault::Memory),
        }
    }
    Ok(passwords)
}

/// Returns a number of copies of a password.
pub fn repeat_password(
    alloc: Global,
    password: &Octets,
    count: usize,
) -> Result<Listed<Octets>, AllocError>
    ensures { IfOk result (λ passwords. passwords ≡ replicate count password.now) }
{
    let mut passwords = Listed::new(alloc);
    'copies: for _ in 0..count {
        match passwords.push(password.try_clone(alloc)?) {
            Ok(()) => {}
            Err(_) => return Err(AllocError),
        }
    }
    Ok(passwords)
}

// Returns the number of the first wrong line, counted from 1, or `None` if there is none.
fn find_wrong_line(text: &[u8]) -> Option<u64>
    ensures { result ≡ wrong_line_in 1 (job_lines text.now) }
{
    let mut rest = text;
    let mut number: u64 = 1;
    'lines: while let Some((line, next_rest)) = split_line(rest) {
        if !is_password_line(line) {
            return Some(number);
        }
        number += 1;
        rest = next_rest;
    }
    if is_password_line(rest) {
        None
    } else {
        Some(number)
    }
}

// Returns whether a line is empty, or a name and a password with one blank between them.
fn is_password_line(line: &[u8]) -> bool
    ensures { result ≡ is_password_line line.now }
{
    if line.is_empty() {
        return true;
    }
    let mut words = Words::new(line);
    let Some(name) = words.next() else {
        return false;
    };
    let Some(password) = words.next() else {
        return false;
    };
    words.next().is_none() && is_name(name, MAX_ID) && is_name(password, MAX_PASSWORD)
}

// Returns the password of a job: that of the first line with its name, else the common one.
fn choose_password<'a>(text: &'a [u8], job: &Job, common: Option<&'a [u8]>) -> Option<&'a [u8]>
    requires lines { wrong_line_in 1 (job_lines text.now) ≡ None }
    requires common { IfSome (option_copied common) IsPassword }
    ensures password { option_copied result
        ≡ password_for (job_lines text.now) (option_copied common.entry) job.now }
    ensures sized { IfSome (option_copied result) IsPassword }
{
    match find_password(text, job.id.as_slice()) {
        Some(password) => Some(password),
        None => common,
    }
}

// Returns the password of the first line with this name, or `None` if there is none.
fn find_password<'a>(text: &'a [u8], name: &[u8]) -> Option<&'a [u8]>
    ensures { option_copied result ≡ password_of (job_lines text.now) name.now }
{
    let mut rest = text;
    'lines: while let Some((line, next_rest)) = split_line(rest) {
        if let Some(password) = password_in(line, name) {
            return Some(password);
        }
        rest = next_rest;
    }
    password_in(rest, name)
}

// Returns the password of a line, if it has this name.
fn password_in<'a>(line: &'a [u8], name: &[u8]) -> Option<&'a [u8]>
    ensures { option_copied result ≡ password_in name.now line.now }
{
    let mut words = Words::new(line);
    match words.next() {
        Some(word) if word == name => words.next(),
        _ => None,
    }
}
