//! A session that runs out of memory has written the first of its responses, and the meter
//! continues.
ghost use Rattle.acse_ber.specs.Password.{IsPassword};

use super::RefusedAndStood;
use super::page::Page;
use cosem_axdr::Octets;
use counted_io::Counted;
use relay_core::RelayCore;
use session_core::SessionEnd;
use session_io::{ServeFault, serve_session};
use std::alloc::{AllocError, Global};
use std::process::Abort;
use std::test::Fail;

/// The public client's AARQ, and its GETs of control_state and of the object list.
const ASKED: &str =
    "000100100001001F601DA109060760857405080101BE10040E01000000065F1F0400007E1F04B0000100100001000D\
        C001C10046000060030AFF0300000100100001000DC001C1000F0000280000FF0200";

/// The number of bytes of the responses: an AARE of 51, a state of 14, and the list of 650 in a
/// frame with 12 more.
const ANSWERED: usize = 727;

type SessionResult = Result<SessionEnd, ServeFault>;

/// Serves a session with a meter, and writes to a page.
fn serve(
    alloc: Global,
    core: &mut RelayCore,
    input: &[u8],
    page: &mut Page,
    password: &Octets,
) -> SessionResult
    requires { IsPassword password.now }
{
    let mut reader = Counted::new(input);
    let mut writer = Counted::new(page);
    serve_session(alloc, &mut reader, &mut writer, core, password)
}

/// Returns whether one session ran out of memory, and the other wrote all responses, which begin
/// with those of the first session.
fn is_refused(ended: SessionResult, page: &Page, other_ended: SessionResult, other: &Page) -> bool {
    ended == Err(ServeFault::Memory)
        && other_ended == Ok(SessionEnd::Closed)
        && other.text().len() == ANSWERED
        && other.text().starts_with(page.text())
}

/// Serves two sessions with one meter, which is only read: one of them runs out of memory, or none.
fn serve_twice(
    rt: &impl Abort,
    alloc: Global,
    core: &mut RelayCore,
    input: &[u8],
    password: &Octets,
) -> Result<(), Fail>
    requires { IsPassword password.now }
{
    let mut page = Page::new();
    let mut other = Page::new();
    let ended = serve(alloc, core, input, &mut page, password);
    let other_ended = serve(alloc, core, input, &mut other, password);
    if ended == Ok(SessionEnd::Closed) && other_ended == Ok(SessionEnd::Closed) {
        assert!(rt; page.text().len() == ANSWERED && page.text() == other.text());
        return Ok(());
    }
    assert!(rt;
        is_refused(ended, &page, other_ended, &other)
            || is_refused(other_ended, &other, ended, &page)
    );
    Err(RefusedAndStood)?
}

fn new_core(rt: &impl Abort, alloc: Global) -> Result<RelayCore, AllocError> {
    let device = Octets::from_slice(alloc, b"RELAY1")?;
    assert!(rt; device.len() == 6);
    let core = RelayCore::new(alloc, &device);
    drop(device);
    core
}

/// Serves these two sessions with a new meter.
fn serve_new(rt: &impl Abort, alloc: Global, input: &[u8], password: &Octets) -> Result<(), Fail>
    requires { IsPassword password.now }
{
    let mut core = new_core(rt, alloc)?;
    let served = serve_twice(rt, alloc, &mut core, input, password);
    drop(core);
    served
}

#[test]
fn serve_session_reads_and_lists(rt: HostRuntime) -> Result<(), Fail> {
    let alloc = rt.alloc();
    let input = hex::decode(alloc, ASKED)?;
    let password = Octets::from_slice(alloc, b"12345678")?;
    let served = serve_new(&rt, alloc, input.as_slice(), &password);
    drop(input);
    drop(password);
    served
}
