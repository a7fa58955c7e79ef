//! The log of a server: a bounded queue of lines, and the thread that writes them.
//!
//! Whoever reads the log may be slow, or may have stopped. So no thread of the meter ever waits for
//! it: a line that finds the queue full is dropped, and counted. The queue is a pair of sockets,
//! whose size the system bounds.
use std::alloc::{AllocError, Global};
use std::io::{ErrorKind, Read, Write};
use std::net::{Net, Shutdown};
use std::os::unix::net::UnixStream;
use std::sync::Arc;
use std::sync::atomic::{AtomicU64, Ordering};
use std::thread::Threads;
use std::time::Duration;
use std::{fmt, io, thread};

// How long the end of the log waits for the lines that are left, in seconds.
const END_SECONDS: u64 = 1;

// The number of bytes that are read from the queue at a time.
const PIECE: usize = 4_096;

// The queue of a log: its sending end, and the number of lines that were dropped and not reported.
#[derive(Drop)]
struct LogQueue {
    stream: UnixStream,
    dropped: AtomicU64,
}

/// A handle of the log. Printing to it appends to the queue and never blocks. [`share`](Log::share)
/// gives another thread a handle of its own.
#[derive(Drop)]
pub struct Log {
    alloc: Global,
    queue: Arc<LogQueue, Global>,
}

impl Log {
    /// Returns a second handle. Errors: `AllocError`.
    pub fn share(&self) -> Result<Log, AllocError> {
        let queue = Arc::try_clone(&self.queue)?;
        Ok(Log {
            alloc: self.alloc,
            queue,
        })
    }

    // Appends a line. It is dropped, and counted, if the queue has no space for it.
    fn append(&self, line: Result<String, AllocError>) {
        let is_written = match line {
            Ok(line) => {
                let mut stream = &self.queue.stream;
                matches!(stream.write(line.as_bytes()), Ok(count) if count == line.len())
            }
            Err(_) => false,
        };
        if !is_written {
            let _ = self.queue.dropped.fetch_add(1, Ordering::SeqCst);
        }
    }

    /// Ends the log after the lines that wait. If they are not written within a second, because
    /// standard error is not read, the thread that writes them is left, and ends with the process.
    pub fn end(self) {
        let stream = &self.queue.stream;
        let is_ready = stream.shutdown(Shutdown::Write).is_ok()
            && stream.set_nonblocking(false).is_ok()
            && stream
                .set_read_timeout(Some(Duration::from_secs(END_SECONDS)))
                .is_ok();
        if is_ready {
            let mut ended = stream;
            let _ = ended.read(&mut [0]);
        }
    }
}

impl Eprint for Log {
    fn eprint<D: fmt::Display + Drop>(&self, value: D) -> io::Result<()> {
        self.append(String::format(self.alloc, format_args!("{value}")));
        Ok(())
    }

    fn eprintln<D: fmt::Display + Drop>(&self, value: D) -> io::Result<()> {
        self.append(String::format(self.alloc, format_args!("{value}\n")));
        Ok(())
    }
}

// Writes bytes. If that fails, the lines that end in them count as dropped.
fn write_part<W: Write>(output: &mut W, part: &[u8], queue: &LogQueue) {
    if part.is_empty() || output.write_all(part).is_ok() {
        return;
    }
    for byte in part {
        if *byte == b'\n' {
            let _ = queue.dropped.fetch_add(1, Ordering::SeqCst);
        }
    }
}

// Writes bytes of a queue. After the last line end in them it reports how many lines were dropped,
// so that a report stands on a line of its own.
fn write_piece<W: Write>(output: &mut W, piece: &[u8], queue: &LogQueue) {
    let (lines, rest) = match piece.iter().rposition(|byte| *byte == b'\n') {
        Some(end) => piece.split_at(end + 1),
        None => piece.split_at(0),
    };
    write_part(output, lines, queue);
    if !lines.is_empty() {
        report_dropped(output, queue);
    }
    write_part(output, rest, queue);
}

// Writes what comes from a queue on standard error until its end. Reports how many lines were
// dropped meanwhile.
fn write_lines<W: Write>(output: &mut W, lines: &mut UnixStream, queue: &LogQueue) {
    let mut piece = [0; PIECE];
    'pieces: for _ in 0..u64::MAX {
        match lines.read(&mut piece) {
            Ok(0) => break 'pieces,
            Ok(count) => write_piece(output, &piece[..count], queue),
            Err(error) if error.kind() == ErrorKind::Interrupted => {}
            Err(_) => break 'pieces,
        }
    }
    report_dropped(output, queue);
}

// Reports how many lines were dropped, if any were. They are reported later if that fails.
fn report_dropped<W: Write>(output: &mut W, queue: &LogQueue) {
    let count = queue.dropped.swap(0, Ordering::SeqCst);
    if count == 0 {
        return;
    }
    let report = writeln!(
        output,
        "log: {count} lines were dropped: the log is not read in time"
    );
    if report.is_err() {
        let _ = queue.dropped.fetch_add(count, Ordering::SeqCst);
    }
}

// Returns the log whose lines go to this stream.
fn log_of(alloc: Global, stream: UnixStream) -> io::Result<Log> {
    stream.set_nonblocking(true)?;
    let queue = Arc::new(
        alloc,
        LogQueue {
            stream,
            dropped: AtomicU64::new(0),
        },
    )?;
    Ok(Log { alloc, queue })
}

/// Starts the log of a program, whose lines a thread writes to `output`. Errors: any error of the
/// system; out of memory, or no thread.
pub fn start_log<N: Net, R: Threads, W: Write + Drop + Send + 'static>(
    net: &N,
    threads: &R,
    alloc: Global,
    output: W,
) -> io::Result<Log> {
    let (stream, lines) = UnixStream::pair(net)?;
    let log = log_of(alloc, stream)?;
    let queue = Arc::try_clone(&log.queue)?;
    thread::spawn(threads, move || {
        let (mut output, mut lines) = (output, lines);
        write_lines(&mut output, &mut lines, &queue);
    })?;
    Ok(log)
}
