//! Tests of clients' sessions at both ends, and of the lock under them. Of `session_io`: sessions
//! in hexadecimal. Of `client_core` and `head_end`: the client's side of a connection, jobs, and
//! campaigns over scripted connections. Of `turn_lock`: what a port sees of the calls of another.
//! tests/sessions.py and tests/campaigns.py play further ones over the proved executable, and
//! tests/unproved/long_tests has requests, sessions that fail at each read, and threads: these cost
//! no proof.
//!
//! Tests are in a crate of their own because a check of tests proves their whole crate again.
#![tactic(auto)]

#[cfg(test)]
mod campaigns;
#[cfg(test)]
mod clients;
#[cfg(test)]
mod hexadecimal;
#[cfg(test)]
mod jobs_texts;
#[cfg(test)]
mod locks;
#[cfg(test)]
mod meters;
#[cfg(test)]
mod numbers;
#[cfg(test)]
mod passwords;
#[cfg(test)]
mod recording;
#[cfg(test)]
mod rounds;
#[cfg(test)]
mod scripts;
#[cfg(test)]
mod streams;
