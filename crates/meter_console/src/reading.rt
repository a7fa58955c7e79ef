//! The thread that reads the console.
use crate::clock_guard::ClockGuard;
use crate::console::Console;
use crate::running::ConsoleEnd;
use std::alloc::Global;
use std::io::BufRead;
use std::sync::Wait;
use std::thread;
use std::thread::{JoinHandle, Threads};
use std::time::Clock;

/// An observer that is called once the console has ended.
pub trait ConsoleObserver {
    /// Is called when the console has ended: no further line is read.
    fn on_console_end(&self, end: ConsoleEnd);
}

/// The input of the console's thread, the destinations of events and messages, and the observer of
/// its end.
#[derive(Drop)]
pub struct Reading<R, B, T, E, N> {
    /// The lines of the console.
    pub input: B,
    /// The channels that the events are passed to.
    pub console: Console<R>,
    /// The output on which lost lines and a failed read are reported.
    pub errors: E,
    /// What holds back moments that are far ahead.
    pub guard: ClockGuard<T, E>,
    /// Whether lines that are skipped are reported, too.
    pub is_verbose: bool,
    /// Called at the end of the input.
    pub ended: N,
}

// Passes on the events of the input's lines, and then calls `ended`.
fn read<
    R: Wait + Copy + Drop,
    B: BufRead + Drop,
    T: Clock + Drop,
    E: Eprint + Drop,
    N: ConsoleObserver + Drop,
>(alloc: Global, reading: Reading<R, B, T, E, N>) -> ConsoleEnd {
    let Reading {
        mut input,
        console,
        errors,
        guard,
        is_verbose,
        ended,
    } = reading;
    let end = console.run(alloc, &mut input, &errors, guard, is_verbose);
    ended.on_console_end(end);
    end
}

/// Starts the console's thread, whose result is how the console ended. Returns `None` if the thread
/// could not be started; `reading` is dropped then.
pub fn start<
    R: Threads + Wait + Copy + Drop + Send + 'static,
    B: BufRead + Drop + Send + 'static,
    T: Clock + Drop + Send + 'static,
    E: Eprint + Drop + Send + 'static,
    N: ConsoleObserver + Drop + Send + 'static,
>(rt: &R, alloc: Global, reading: Reading<R, B, T, E, N>) -> Option<JoinHandle<ConsoleEnd>> {
    match thread::spawn(rt, move || read(alloc, reading)) {
        Ok(thread) => Some(thread),
        Err(_) => None,
    }
}
