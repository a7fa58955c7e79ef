//! Tests of `meter_console`, `server_io` and `server_commands`: the lines of a console, how long a
//! client's stream waits, and the trace at the head of an input, from which a meter resumes.
//!
//! Tests are in a crate of their own because a check of tests proves their whole crate again.
#![tactic(auto)]

#[cfg(test)]
mod consoles;
#[cfg(test)]
mod sockets;
