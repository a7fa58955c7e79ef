//! What no contract states: with enough memory there is a result.
ghost use Rattle.std.specs.Prelude.{◌≡◌, [], Some};
ghost use Rattle.meter_console.specs.Ends.{ConsoleEnds};
ghost use Rattle.relay_core.specs.Opening.{IsFitOpening};

use counted_io::Monitored;
use meter_console::{
    ClockGuard, Console, ConsoleEnd, ConsoleObserver, ConsoleSources, EventSink, LineBuffer,
    Reading, console_event, is_clock_step, run_console, start,
};
use meter_server::{BlockSource, ButtonSource, MomentSource};
use relay_core::{Event, Reply};
use relay_recorder::{Recorder, Trace};
use server_commands::{PlanFault, read_head};
use std::alloc::{AllocError, Global};
use std::io;
use std::io::{BufReader, ErrorKind, Read};
use std::sync::Wait;
use std::test::Fail;
use std::thread::Threads;
use trace_player::resume_recorder;

// A remote disconnection, samples and a moment; and one more line after them.
const TRACE: &[u8] = b"RELAYTRACE 1
device 52454C415931
state 1
mode 0
value 0
now -
normal 4294967295
emergency 4294967295
minover 0
minunder 0
profile 0 FFFFFFFFFFFFFFFFFF8000FF 0
groups
actions 0 0
over 0 0
under 0 0
scripts 0100
schedule 0 0 5 0100
schedule 1 0 5 0100
schedule 2 0 5 0100
schedule 3 0 5 0100
events 4
set 1 70 000060030AFF 4 0 1601
execute 1 70 000060030AFF 1 0F00
samples 10 20
moment 5
moment 4
";

/// Returns the letter of an event.
fn letter(event: &Event) -> char {
    match event {
        Event::Button => 'b',
        Event::Moment(5) => 'm',
        Event::Samples(_) => 's',
        _ => '?',
    }
}

/// Returns the letter of the event of a line, or a blank if it has none.
fn event_letter(alloc: Global, line: &[u8]) -> Result<char, AllocError> {
    match console_event(alloc, line)? {
        Some(event) => {
            let letter = letter(&event);
            drop(event);
            Ok(letter)
        }
        None => Ok(' '),
    }
}

/// A line, and the letter of its event.
const LINES: [(&[u8], char); 7] = [
    (b"button", 'b'),
    (b"moment 5", 'm'),
    (b"samples 1 2", 's'),
    (b"pairs 1 2", 's'),
    (b"get 16 70 000060030AFF 3 0", ' '),
    (b"moment 5\r", ' '),
    (b"", ' '),
];

#[test]
fn lines_bring_events(rt: HostRuntime) -> Result<(), Fail> {
    for (line, letter) in &LINES {
        assert!(rt; event_letter(rt.alloc(), line)? == *letter, "{line:?}");
    }
    Ok(())
}

/// A sink that lists its events.
#[derive(Drop)]
struct Listing<R> {
    rt: R,
    events: Vec<Event>,
}

impl<R: Wait> EventSink for Listing<R> {
    ghost use Rattle.std.specs.Prelude.{Some};

    ghost taken = { λ listing. Some listing.events.items };

    fn take(&mut self, event: Event) {
        // (out of memory: the test ends)
        if self.events.push(event).is_err() {
            for _ in self.rt.forever() {}
        }
    }
}

impl<R> Listing<R> {
    // Returns a listing without events.
    fn new(rt: R, alloc: Global) -> Listing<R>
        ensures { result.events.items ≡ [] }
    {
        Listing {
            rt,
            events: Vec::new(alloc),
        }
    }

    /// Returns whether the events have these letters.
    fn has(&self, letters: &str) -> bool {
        let mut wanted = letters.chars();
        for event in &self.events {
            if wanted.next() != Some(letter(event)) {
                return false;
            }
        }
        wanted.next().is_none()
    }
}

/// Passes the events of a text to a sink that lists them: each event in order, if no line is lost.
fn hand_on<R: Wait + Eprint + Copy>(
    alloc: Global,
    text: &[u8],
    buffer: LineBuffer,
    sink: &mut Listing<R>,
) -> ConsoleEnd
    ensures { ConsoleEnds text.now sink.old.events.items result (Some sink.new.events.items) }
{
    let mut input = text;
    let errors = sink.rt;
    run_console(alloc, &mut input, buffer, sink, &errors, true)
}

/// A text, and the letters of the events that are passed on.
const TEXTS: [(&[u8], &str); 5] = [
    (b"button\nsamples 1 2\nmoment 5\npairs 1 2\n", "bsms"),
    (b"get 16 70 000060030AFF 3 0\nbuton\n\nbutton\n", "b"),
    (b"moment 5\r\nsamples\nbutton \nbutton\n", "sb"),
    (b"button\nmoment 5", "b"),
    (b"", ""),
];

#[test]
fn a_console_hands_on_the_events_of_its_lines(rt: HostRuntime) -> Result<(), Fail> {
    for (text, letters) in &TEXTS {
        let mut sink = Listing::new(rt, rt.alloc());
        let end = hand_on(rt.alloc(), text, LineBuffer::new(rt.alloc())?, &mut sink);
        assert!(rt; sink.has(letters), "{letters}");
        assert!(rt; !end.has_failed() && end.lost() == 0);
    }
    Ok(())
}

/// Returns whether a line with this many bytes before its end is skipped as a whole, and the line
/// after it is read.
fn is_skipped<R: Wait + Eprint + Copy + Drop>(
    rt: R,
    alloc: Global,
    count: usize,
) -> Result<bool, AllocError> {
    let mut text = Vec::new(alloc);
    text.resize(count, b'x')?;
    text.extend_from_slice(b"button\nmoment 5\n")?;
    let mut sink = Listing::new(rt, alloc);
    let end = hand_on(alloc, text.as_slice(), LineBuffer::new(alloc)?, &mut sink);
    Ok(sink.has("m") && !end.has_failed())
}

#[test]
fn a_long_line_is_skipped_whole(rt: HostRuntime) -> Result<(), Fail> {
    // (with `button` and its end: 8,191, 8,192 and 8,193 bytes; and one whose 8,193rd byte begins
    // the word)
    for count in [8_184, 8_185, 8_186, 8_192, 100_000] {
        assert!(rt; is_skipped(rt, rt.alloc(), count)?, "{count}");
    }
    Ok(())
}

/// Returns bytes, and then fails; every second read is interrupted by a signal.
#[derive(Drop)]
struct Failing {
    rest: &'static [u8],
    is_interrupted: bool,
}

impl Read for Failing {
    fn read(&mut self, buffer: &mut [u8]) -> io::Result<usize> {
        self.is_interrupted = !self.is_interrupted;
        if self.is_interrupted {
            return Err(io::Error::from(ErrorKind::Interrupted));
        }
        if self.rest.is_empty() {
            return Err(io::Error::from(ErrorKind::Other));
        }
        self.rest.read(buffer)
    }
}

#[test]
fn a_failed_read_ends_the_console(rt: HostRuntime) -> Result<(), Fail> {
    let failing = Failing {
        rest: b"button\nmoment 5\nbut",
        is_interrupted: false,
    };
    let mut input = BufReader::new(rt.alloc(), failing)?;
    let mut sink = Listing::new(rt, rt.alloc());
    let buffer = LineBuffer::new(rt.alloc())?;
    let end = run_console(rt.alloc(), &mut input, buffer, &mut sink, &rt, false);
    assert!(rt; sink.has("bm"));
    assert!(rt; end.has_failed() && end.lost() == 0);
    Ok(())
}

/// Does nothing at the end of the console.
#[derive(Drop)]
struct Silent;

impl ConsoleObserver for Silent {
    fn on_console_end(&self, _end: ConsoleEnd) {}
}

/// Returns whether each source gives what the three lines contain, and ends.
fn are_right<R: Wait + Drop + Send>(sources: ConsoleSources<R>) -> bool {
    let ConsoleSources {
        mut blocks,
        mut moments,
        mut presses,
    } = sources;
    let block = match blocks.next_block() {
        Some(block) => block.values() == [10, 20].as_slice(),
        None => false,
    };
    block
        && blocks.next_block().is_none()
        && moments.next_moment() == Some(5)
        && moments.next_moment().is_none()
        && presses.pressed()
        && !presses.pressed()
}

#[test]
fn each_worker_gets_its_own_events(rt: HostRuntime) -> Result<(), Fail> {
    let (console, sources) = Console::new(&rt, rt.alloc())?;
    let reading = Reading {
        input: b"moment 5\nsamples 10 20\nbutton\n".as_slice(),
        console,
        errors: rt,
        guard: guard(rt, None, false),
        is_verbose: false,
        ended: Silent,
    };
    let thread = start(&rt, rt.alloc(), reading).ok_or("no thread")?;
    assert!(rt; are_right(sources));
    let end = thread.join(&rt);
    assert!(rt; !end.has_failed() && end.lost() == 0);
    Ok(())
}

/// Returns the guard of a meter with this last moment.
fn guard(
    rt: HostRuntime,
    last: Option<u32>,
    accepts_steps: bool,
) -> ClockGuard<HostRuntime, HostRuntime> {
    ClockGuard {
        clock: rt,
        errors: rt,
        last,
        accepts_steps,
        held_back: 0,
    }
}

#[test]
fn a_step_is_more_than_a_day_ahead(rt: HostRuntime) -> Result<(), Fail> {
    assert!(rt; !is_clock_step(None, None, u32::MAX));
    assert!(rt; !is_clock_step(Some(1_000), None, 87_400));
    assert!(rt; is_clock_step(Some(1_000), None, 87_401));
    assert!(rt; !is_clock_step(Some(1_000), Some(1_000), 0));
    assert!(rt; is_clock_step(Some(1_000), Some(0), 86_401));
    assert!(rt; is_clock_step(None, Some(0), 86_401));
    Ok(())
}

/// Returns the first moments that a console with these lines gives to its worker.
fn moments_of<R: Threads + Wait + Copy + Drop + Send + 'static>(
    rt: HostRuntime,
    threads: &R,
    lines: &'static [u8],
    accepts_steps: bool,
) -> Result<(Option<u32>, Option<u32>), Fail> {
    let (console, sources) = Console::new(threads, rt.alloc())?;
    let reading = Reading {
        input: lines,
        console,
        errors: rt,
        guard: guard(rt, Some(1_000), accepts_steps),
        is_verbose: false,
        ended: Silent,
    };
    let thread = start(threads, rt.alloc(), reading).ok_or("no thread")?;
    let ConsoleSources {
        blocks,
        mut moments,
        presses,
    } = sources;
    let first = moments.next_moment();
    let second = moments.next_moment();
    let end = thread.join(threads);
    drop(blocks);
    drop(presses);
    if end.has_failed() {
        return Err(Fail::from("the console fails"));
    }
    Ok((first, second))
}

#[test]
fn a_moment_far_ahead_is_held_back(rt: HostRuntime) -> Result<(), Fail> {
    let lines = b"moment 87401\nmoment 87400\nmoment 87401\n".as_slice();
    let held = moments_of(rt, &rt, lines, false)?;
    assert!(rt; held == (Some(87_400), Some(87_401)));
    let passed = moments_of(rt, &rt, lines, true)?;
    assert!(rt; passed == (Some(87_401), Some(87_400)));
    Ok(())
}

/// The number of events that a meter keeps, and the last moment that its reply to an earlier one
/// gives.
#[derive(Clone, Copy, Drop)]
struct Seen {
    kept: u16,
    last: u32,
}

/// Returns the last moment that a reply to an earlier one gives, or 0 for any other reply.
fn last(reply: &Reply) -> u32 {
    match reply {
        Reply::Stale { last } => *last,
        _ => 0,
    }
}

/// Applies the moment 4 to a meter.
fn told_of_4(alloc: Global, recorder: &mut Recorder) -> Result<Seen, AllocError> {
    let kept = recorder.count();
    let reply = recorder.apply(alloc, Event::Moment(4))?;
    let last = last(&reply);
    drop(reply);
    Ok(Seen { kept, last })
}

/// Applies the moment 4 to a meter that resumes from a trace.
fn resume_from(alloc: Global, trace: &Trace) -> Result<Seen, AllocError>
    requires { IsFitOpening trace.now.opening }
{
    let mut recorder = resume_recorder(alloc, trace, 1)?;
    let seen = told_of_4(alloc, &mut recorder);
    drop(recorder);
    seen
}

/// An input in memory, of the type of the console's.
type Input<'a> = BufReader<Monitored<&'a [u8]>>;

/// Returns the input of these bytes.
fn input_of(alloc: Global, bytes: &[u8]) -> io::Result<Input<'_>> {
    BufReader::new(alloc, Monitored::new(bytes))
}

/// Applies the moment 4 to a meter that resumes from the trace at the head of an input.
fn resume_at_head(alloc: Global, input: &mut Input) -> Result<Seen, PlanFault> {
    let trace = read_head(alloc, input)?;
    let seen = resume_from(alloc, &trace);
    drop(trace);
    match seen {
        Ok(seen) => Ok(seen),
        Err(_) => Err(PlanFault::Memory),
    }
}

#[test]
fn a_meter_goes_on_from_a_trace(rt: HostRuntime) -> Result<(), Fail> {
    let mut input = input_of(rt.alloc(), TRACE)?;
    let seen = resume_at_head(rt.alloc(), &mut input).map_err(|_| "no meter")?;
    assert!(rt; input.buffer() == b"moment 4\n".as_slice());
    assert!(rt; seen.kept == 0 && seen.last == 5);
    Ok(())
}

#[test]
fn the_first_wrong_line_of_a_head_is_found(rt: HostRuntime) -> Result<(), Fail> {
    for (bytes, number) in [
        (b"".as_slice(), 1),
        (b"button\n", 1),
        (b"RELAYTRACE 1", 1),
        (b"RELAYTRACE 1\nbutton\n", 2),
        (&TRACE[..300], 22),
        (
            b"RELAYTRACE 1\ndevice 52454C415931\nstate 1\nmode 7\nvalue 0\n",
            4,
        ),
    ] {
        let mut input = input_of(rt.alloc(), bytes)?;
        assert!(rt;
            matches!(
            resume_at_head(rt.alloc(), &mut input),
            Err(PlanFault::Line(found)) if found == number
        )
        );
    }
    Ok(())
}

#[test]
fn a_journal_is_no_trace_to_resume_from(rt: HostRuntime) -> Result<(), Fail> {
    // (the number of its events, `4`, is the byte 297 of the trace)
    let mut text = Vec::new(rt.alloc());
    text.extend_from_slice(&TRACE[..297])?;
    text.extend_from_slice(b"-")?;
    text.extend_from_slice(&TRACE[298..])?;
    let mut input = input_of(rt.alloc(), text.as_slice())?;
    assert!(rt;
        matches!(
            resume_at_head(rt.alloc(), &mut input),
            Err(PlanFault::Journal)
        )
    );
    Ok(())
}
