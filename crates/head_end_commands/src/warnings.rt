//! Warnings about jobs that are valid but may be mistakes. A warning does not change what is run.
use crate::text_filter::TextFilter;
use client_core::Job;
use head_end::Jobs;
use memchr::{memchr, memrchr};
use std::net::SocketAddr;
use text_lines::read_number;

// Writes the warnings about all jobs of a text to standard error, a line each.
pub(crate) fn warn(rt: &HostRuntime, text: &[u8], jobs: &Jobs) {
    let mut number: u64 = 0;
    let mut rest = jobs.as_slice().iter();
    let mut earlier = EarlierJobs::new(text, jobs.as_slice());
    for line in text.split(|byte| *byte == b'\n') {
        number = number.saturating_add(1);
        if line.is_empty() {
            continue;
        }
        if let Some(job) = rest.next() {
            warn_of_job(rt, number, job);
            earlier.warn_of_double(rt, number, job);
            earlier.add(job);
        }
    }
}

// Writes the warnings about a job by itself.
fn warn_of_job(rt: &HostRuntime, number: u64, job: &Job) {
    if job.id.as_slice().starts_with(b"#") {
        let _ = eprintln!(rt;
            "line {number}: warning: `#` begins a name, not a comment: this job is run"
        );
    }
    if let Some(why) = why_no_address(job.address.as_slice()) {
        let _ = eprintln!(rt; "line {number}: warning: {why}");
    }
}

// The first `count` jobs of a list, with filters of their names and addresses. `text` is the list,
// and `jobs` has all of its jobs.
#[derive(Drop)]
struct EarlierJobs<'a> {
    text: &'a [u8],
    jobs: &'a [Job],
    count: usize,
    names: TextFilter,
    addresses: TextFilter,
}

impl<'a> EarlierJobs<'a> {
    // Returns no jobs of a list: those before its first one.
    fn new(text: &'a [u8], jobs: &'a [Job]) -> EarlierJobs<'a> {
        EarlierJobs {
            text,
            jobs,
            count: 0,
            names: TextFilter::new(),
            addresses: TextFilter::new(),
        }
    }

    // Counts a job, and remembers its name and address.
    fn add(&mut self, job: &Job) {
        self.count = self.count.saturating_add(1);
        self.names.add(job.id.as_slice());
        self.addresses.add(job.address.as_slice());
    }

    // Writes a warning if an earlier line has the name of a job, and one if it has its address.
    fn warn_of_double(&self, rt: &HostRuntime, number: u64, job: &Job) {
        let (name, address) = (job.id.as_slice(), job.address.as_slice());
        if self.names.may_have(name) {
            let place = self.jobs.iter().position(|it| it.id.as_slice() == name);
            if let Some(first) = self.line_of(place) {
                let _ = eprintln!(rt; "line {number}: warning: line {first} has the same name");
            }
        }
        if self.addresses.may_have(address) {
            let place = self
                .jobs
                .iter()
                .position(|it| it.address.as_slice() == address);
            if let Some(first) = self.line_of(place) {
                let _ = eprintln!(rt;
                    "line {number}: warning: line {first} has the same address: \
                    the two run in the order of the list"
                );
            }
        }
    }

    // Returns the number of the line of the job at a place, from 0, or `None` if the job is not one
    // of the first `count`.
    fn line_of(&self, place: Option<usize>) -> Option<u64> {
        match place {
            Some(place) if place < self.count => Some(line_of(self.text, place)),
            _ => None,
        }
    }
}

// Returns the number, from 1, of the line of the job at a place, from 0. Empty lines have no job.
fn line_of(text: &[u8], place: usize) -> u64 {
    let mut number: u64 = 0;
    let mut before = place;
    for line in text.split(|byte| *byte == b'\n') {
        number = number.saturating_add(1);
        if line.is_empty() {
            continue;
        }
        if before == 0 {
            return number;
        }
        before = before.saturating_sub(1);
    }
    number
}

// Returns why a text cannot be the address of a meter, or `None` if it can. An address is an IP
// address or a host name, a colon, and a port from 1 to 65535.
fn why_no_address(text: &[u8]) -> Option<&'static str> {
    if let Ok(address) = SocketAddr::parse_ascii(text) {
        return why_no_port(address.port() != 0);
    }
    let Some(at) = memrchr(b':', text) else {
        return Some("the address has no port (expected HOST:PORT)");
    };
    if !is_port(&text[at + 1..]) {
        return why_no_port(false);
    }
    if !is_name(&text[..at]) {
        return Some("the host of the address is not valid (expected HOST:PORT)");
    }
    None
}

// Returns the message about the port of an address, or `None` if the port is valid.
fn why_no_port(is_valid: bool) -> Option<&'static str> {
    if is_valid {
        None
    } else {
        Some("the port of the address must be 1 to 65535 (expected HOST:PORT)")
    }
}

// Returns whether a text can be a host name: it has no colon, and at least one byte other than
// digits and dots.
fn is_name(host: &[u8]) -> bool {
    memchr(b':', host).is_none()
        && host
            .iter()
            .any(|byte| !byte.is_ascii_digit() && *byte != b'.')
}

// Returns whether a text is a number from 1 to 65535.
fn is_port(text: &[u8]) -> bool {
    matches!(read_number(text, 65_535), Some(port) if port != 0)
}
