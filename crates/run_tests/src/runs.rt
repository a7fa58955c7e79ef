//! Whole runs whose sources are lists.
ghost use Rattle.std.specs.Prelude.{◌≡◌, ◌+◌, ◌<◌, [], IfOk, IsErrOf, IsTrue};
ghost use Rattle.acse_ber.specs.Password.{IsPassword};
ghost use Rattle.run_tests.specs.ListedRuns.{IsListedRun};
ghost use Rattle.session_io.specs.declared.fault.ServeFault.TheVariants.{Listen};

use crate::clients::{Client, ClientListener, Line, client};
use crate::meters::new_recorder;
use crate::sources::{ListedBlocks, ListedMoments, ListedPresses};
use crate::traces::{Lines, is_merged};
use cosem_axdr::Octets;
use durable_lines::MemoryFile;
use lane_sampler::{Block, BlockMade};
use meter_journal::{FailureAction, JournalFault, MeterJournal, SupplyOutput};
use meter_run::{MeterRun, RunTerms, Sources, run_meter};
use meter_server::{ServeFault, Served};
use relay_recorder::Recorder;
use std::alloc::{AllocError, Global};
use std::collections::VecDeque;
use std::io;
use std::io::Write;
use std::process::Abort;
use std::sync::{Arc, Wait};
use std::test::Fail;
use std::thread::Threads;

/// What is done if a journal fails: nothing, since these meters have none.
#[derive(Drop)]
struct NoAction;

impl FailureAction for NoAction {
    fn act(self, _fault: JournalFault) {}
}

/// The output of these meters, which have no relay: nothing can be written to it.
#[derive(Drop)]
struct NoOutput;

impl Write for NoOutput {
    fn write(&mut self, _bytes: &[u8]) -> io::Result<usize> {
        Ok(0)
    }

    fn flush(&mut self) -> io::Result<()> {
        Ok(())
    }
}

impl SupplyOutput for NoOutput {
    fn report_change(&self, _is_on: bool) {}

    fn report_failure(&self) {}
}

/// Sources that are lists.
type Lists = Sources<ListedBlocks, ListedMoments, ListedPresses>;

/// Runs a meter until `limit` clients have come or the listener has failed. If a trace is written
/// and the listener did not fail, there is one list of calls, which the text records: the blocks,
/// the moments and the presses of the lists, each by a port of its own, and for each client served
/// the events that its session asks.
fn run_lists<R: Threads + Wait + Copy + Send + 'static>(
    rt: &R,
    alloc: Global,
    recorder: Recorder,
    listener: &mut ClientListener,
    lists: Lists,
    password: &Octets,
    limit: u32,
) -> MeterRun<MemoryFile, NoOutput>
    requires unused { recorder.events ≡ [] }
    requires password { IsPassword password.now }
    requires limited { 0 < limit }
    ensures run { IfOk result.served (λ served. IfOk result.trace (IsListedRun recorder
        (record {
          blocks = lists.blocks.left.items;
          moments = lists.moments.left.items;
          presses = lists.buttons.left;
          password = password.now;
        }) served.served)) }
    ensures limit { IfOk result.served (λ served. served.served + served.turned_away ≡ limit) }
    ensures counted { IfOk result.served (λ served.
        listener.new.accepted ≡ listener.old.accepted + (served.served + served.turned_away)) }
    ensures failed { IsErrOf result.served Listen → IsTrue listener.new.has_failed }
{
    let journal: Option<MeterJournal<MemoryFile, NoOutput, NoAction>> = None;
    let terms = RunTerms {
        password,
        limit: u64::from(limit),
    };
    run_meter(rt, alloc, recorder, listener, lists, journal, &terms)
}

/// How a run ended, and whether its trace has the lines of these lists.
type RunResult = (Result<Served, ServeFault>, bool);

// Returns how a run ended, and whether its trace has the lines of these lists.
fn result_of(run: MeterRun<MemoryFile, NoOutput>, expected: &[Lines; 6]) -> RunResult {
    let MeterRun {
        served,
        trace,
        journal: _,
        parts,
    } = run;
    drop(parts);
    match trace {
        Ok(text) => {
            let is_traced = is_merged(text.as_slice(), expected);
            drop(text);
            (served, is_traced)
        }
        Err(_) => (served, false),
    }
}

/// Runs a new meter whose management client has the password 12345678.
fn run<R: Threads + Wait + Abort + Copy + Send + 'static>(
    rt: &R,
    alloc: Global,
    listener: &mut ClientListener,
    lists: Lists,
    limit: u32,
    expected: &[Lines; 6],
) -> Result<RunResult, AllocError>
    requires { 0 < limit }
{
    match (
        new_recorder(rt, alloc, 256),
        Octets::from_slice(alloc, b"12345678"),
    ) {
        (Ok(recorder), Ok(password)) => {
            assert!(*rt; password.len() == 8);
            let run = run_lists(rt, alloc, recorder, listener, lists, &password, limit);
            drop(password);
            Ok(result_of(run, expected))
        }
        (recorder, password) => {
            drop(recorder);
            drop(password);
            drop(lists);
            Err(AllocError)
        }
    }
}

/// Returns lists without blocks, moments and presses.
fn no_lists(alloc: Global) -> Lists {
    Sources {
        blocks: ListedBlocks {
            left: VecDeque::new(alloc),
        },
        moments: ListedMoments {
            left: VecDeque::new(alloc),
        },
        buttons: ListedPresses { left: 0 },
    }
}

fn add_block(lists: &mut Lists, block: Block) -> Result<(), AllocError> {
    match lists.blocks.left.push_back(block) {
        Ok(()) => Ok(()),
        Err(refused) => {
            drop(refused);
            Err(AllocError)
        }
    }
}

/// Appends three blocks, one of pairs and one empty, two moments and two presses.
fn fill(alloc: Global, lists: &mut Lists) -> Result<(), Fail> {
    add_block(lists, Block::from_slice(alloc, &[10, 20])?)?;
    add_block(lists, Block::from_pairs(alloc, &[30], &[40])?)?;
    add_block(lists, Block::from_slice(alloc, &[])?)?;
    lists.moments.left.push_back(5)?;
    lists.moments.left.push_back(6)?;
    lists.buttons.left = 2;
    Ok(())
}

/// Bytes in hexadecimal, one text after the other.
type Texts = &'static [&'static str];

/// The management client opens an association with the password 12345678 and writes mode 2 of the
/// switch.
static WRITES_MODE: Texts = &[
    "00010001000100386036A1090607608574050801018A0207808B0760857405080201",
    "AC0A80083132333435363738BE10040E01000000065F1F0400001C190400",
    "000100010001000FC101C10046000060030AFF04001602",
];

/// The association is accepted, and the write succeeds.
static MODE_WRITTEN: Texts = &[
    "000100010001002B6129A109060760857405080101A203020100A305A103020100",
    "BE10040E0800065F1F0400001C1904000007",
    "0001000100010004C501C100",
];

/// The public client opens an association and reads the state of the switch.
static READS_STATE: Texts = &[
    "000100100001001F601DA109060760857405080101",
    "BE10040E01000000065F1F0400007E1F04B0",
    "000100100001000DC001C10046000060030AFF0300",
];

/// The association is accepted, and the state is 1: connected.
static STATE_READ: Texts = &[
    "000100010010002B6129A109060760857405080101A203020100A305A103020100",
    "BE10040E0800065F1F0400001E1904000007",
    "0001000100100006C401C1001601",
];

/// Returns the bytes of texts in hexadecimal.
fn bytes_of(alloc: Global, texts: Texts) -> Result<Vec<u8>, Fail> {
    let mut bytes = Vec::new(alloc);
    for text in texts {
        let decoded = hex::decode(alloc, text)?;
        bytes.extend_from_slice(decoded.as_slice())?;
    }
    Ok(bytes)
}

fn add_client(
    alloc: Global,
    clients: &mut VecDeque<Client>,
    line: &Arc<Line, Global>,
    asked: Texts,
    expected: Texts,
) -> Result<(), Fail> {
    let expected = bytes_of(alloc, expected)?;
    let client = client(line, bytes_of(alloc, asked)?, expected)?;
    clients.push_back(client)?;
    Ok(())
}

/// Returns a listener that accepts the management client and then the public one.
fn listener_of_two(alloc: Global, line: &Arc<Line, Global>) -> Result<ClientListener, Fail> {
    let mut clients = VecDeque::new(alloc);
    add_client(alloc, &mut clients, line, WRITES_MODE, MODE_WRITTEN)?;
    add_client(alloc, &mut clients, line, READS_STATE, STATE_READ)?;
    Ok(ClientListener::new(clients))
}

/// The lines of the trace that come from the run: the head of the events, and the events of each
/// port.
static ALL_LINES: [Lines; 6] = [
    &["events 10"],
    &[
        "getlist 1 2 71 0000110000FF 3 0 71 0001110000FF 3 0",
        "samples 10 20",
        "pairs 30 40",
        "samples",
    ],
    &["moment 5", "moment 6"],
    &["button", "button"],
    &["set 1 70 000060030AFF 4 0 1602"],
    &["get 16 70 000060030AFF 3 0"],
];

/// Serves two clients while the workers pass on all items of the lists.
fn run_two<R: Threads + Wait + Abort + Copy + Send + 'static>(
    rt: &R,
    alloc: Global,
    listener: &mut ClientListener,
    limit: u32,
) -> Result<RunResult, Fail>
    requires { 0 < limit }
{
    let mut lists = no_lists(alloc);
    match fill(alloc, &mut lists) {
        Ok(()) => Ok(run(rt, alloc, listener, lists, limit, &ALL_LINES)?),
        Err(fail) => {
            drop(lists);
            Err(fail)
        }
    }
}

#[test]
fn lists_are_handed_in_whole(rt: HostRuntime) -> Result<(), Fail> {
    let alloc = rt.alloc();
    let line = Arc::new(alloc, Line::new())?;
    let mut listener = listener_of_two(alloc, &line)?;
    let (served, is_traced) = run_two(&rt, alloc, &mut listener, 2)?;
    let all = Served {
        served: 2,
        turned_away: 0,
    };
    assert!(rt; served == Ok(all));
    assert!(rt; is_traced);
    assert!(rt; (listener.accepted, listener.has_failed) == (2, false));
    // Both answers to an AARQ have 51 bytes; the answers to the requests have 12 and 14.
    assert!(rt; line.counts() == (51 + 12 + 51 + 14, 0, 2));
    Ok(())
}

#[test]
fn a_listener_that_fails_ends_the_run(rt: HostRuntime) -> Result<(), Fail> {
    let alloc = rt.alloc();
    let line = Arc::new(alloc, Line::new())?;
    let mut listener = listener_of_two(alloc, &line)?;
    let (served, is_traced) = run_two(&rt, alloc, &mut listener, 3)?;
    assert!(rt; served == Err(ServeFault::Listen));
    assert!(rt; is_traced);
    assert!(rt; (listener.accepted, listener.has_failed) == (2, true));
    assert!(rt; line.counts() == (51 + 12 + 51 + 14, 0, 2));
    Ok(())
}
