//! The calls on one of many places, by its number.
ghost use Rattle.std.specs.Prelude.{◌≡◌, ◌==◌, [], ◌∷◌, true, slice_get};
ghost use Rattle.std.specs.Bool.{OnTrue};
ghost use Rattle.campaign_ledger.specs.Entries.{entry_at};
ghost use Rattle.campaign_board.specs.Updates.{ClearsMarked, OpensPlace, HandsAt, TakesAt, EndsAt};
ghost use Rattle.campaign_board.specs.Updates.{IsDueAt, AreDueAt, AreSettled, is_talking};
ghost use Rattle.campaign_board.specs.Updates.{is_over_at, is_ready, is_settled, is_ended};
ghost use Rattle.campaign_board.specs.Updates.{ending_in};
ghost use Rattle.campaign_board.specs.Updates.{is_not_sent, is_waiting, ending_by};

use crate::place::{BoardPlace, Ending};
use crate::talk::Talk;
use campaign_ledger::LedgerEntry;
use client_core::Outcome;
use cosem_axdr::Octets;
use std::alloc::{AllocError, Global};

// Returns the entry of a place: `MaybeSent` if there is none.
pub(crate) fn entry_of(found: &[LedgerEntry], at: usize) -> LedgerEntry
    ensures { result ≡ entry_at found.now at }
{
    match found.get(at) {
        Some(entry) => *entry,
        None => LedgerEntry::MaybeSent,
    }
}

// Returns whether there is such a place, and its connection is over.
fn is_ended(places: &[BoardPlace], at: usize) -> bool
    ensures { result ≡ is_ended (slice_get places.now at) }
{
    match places.get(at) {
        Some(place) => place.ending().is_some(),
        None => false,
    }
}

// Returns whether a job must wait for no other one, or the connection of that one is over.
fn is_over(places: &[BoardPlace], before: Option<u32>) -> bool
    ensures { result ≡ is_over_at places.now before }
{
    match before {
        Some(at) => is_ended(places, at as usize),
        None => true,
    }
}

// Returns whether there is such a place, and the last earlier job of its address, if there is one,
// is over.
pub(crate) fn is_ready(places: &[BoardPlace], before: &[Option<u32>], at: usize) -> bool
    ensures { result ≡ is_ready places.now (slice_get before.now at) }
{
    match before.get(at) {
        Some(other) => is_over(places, *other),
        None => false,
    }
}

// Returns whether there is such a place, and its job waits.
pub(crate) fn is_waiting_at(places: &[BoardPlace], at: usize) -> bool
    ensures { result ≡ is_waiting (slice_get places.now at) }
{
    match places.get(at) {
        Some(place) => place.is_waiting(),
        None => false,
    }
}

// Begins the conversation of a place that waits.
pub(crate) fn open_at(places: &mut Vec<BoardPlace>, at: usize, talk: Box<Talk>)
    requires { is_waiting (slice_get places.old.items at) ≡ true }
    ensures { OpensPlace places.old.items at talk.value places.new.items }
{
    match places.get_mut(at) {
        Some(place) => place.begin(talk),
        None => unreachable!(),
    }
}

// Returns the next message for the meter of a place, if one may be sent now.
pub(crate) fn next_text_at(places: &mut Vec<BoardPlace>, at: usize) -> Option<Octets>
    ensures { HandsAt places.old.items at result places.new.items }
{
    match places.get_mut(at) {
        Some(place) => place.next_text(),
        None => None,
    }
}

// Processes bytes of the meter of a place.
pub(crate) fn receive_at(
    places: &mut Vec<BoardPlace>,
    alloc: Global,
    at: usize,
    bytes: &[u8],
) -> Result<bool, AllocError>
    ensures { TakesAt places.old.items at bytes.now result places.new.items }
{
    match places.get_mut(at) {
        Some(place) => place.receive(alloc, bytes),
        None => Ok(false),
    }
}

// Returns whether the connection of a place is open.
pub(crate) fn is_open_at(places: &[BoardPlace], at: usize) -> bool
    ensures { result ≡ is_talking (slice_get places.now at) }
{
    match places.get(at) {
        Some(place) => place.is_open(),
        None => false,
    }
}

// Returns whether a place is open, its bytes so far settle the outcome, and its request does not
// wait for its mark.
pub(crate) fn is_decided_at(places: &[BoardPlace], at: usize) -> bool {
    match places.get(at) {
        Some(place) => place.is_decided(),
        None => false,
    }
}

// Returns whether the command of a job was not sent, by the entry of its ledger.
pub(crate) fn is_not_sent(found: &[LedgerEntry], at: usize) -> bool
    ensures { result ≡ is_not_sent (entry_at found.now at) }
{
    match entry_of(found, at) {
        LedgerEntry::NotSent => true,
        LedgerEntry::MaybeSent | LedgerEntry::Came(_) => false,
    }
}

// Returns the end of a job whose command may have been sent before.
fn found_ending(outcome: Outcome) -> Ending
    ensures { result ≡ record { outcome = outcome; was_asked = true } }
{
    Ending {
        outcome,
        was_asked: true,
    }
}

// Returns the end of a place, by the entry of its ledger.
pub(crate) fn ending_by(found: &[LedgerEntry], places: &[BoardPlace], at: usize) -> Option<Ending>
    ensures { result ≡ ending_by (entry_at found.now at) (slice_get places.now at) }
{
    match entry_of(found, at) {
        LedgerEntry::NotSent => ending_at(places, at),
        LedgerEntry::MaybeSent => Some(found_ending(Outcome::Unknown)),
        LedgerEntry::Came(outcome) => Some(found_ending(outcome)),
    }
}

// Returns the end of a place whose connection is over.
fn ending_at(places: &[BoardPlace], at: usize) -> Option<Ending>
    ensures { result ≡ ending_in (slice_get places.now at) }
{
    match places.get(at) {
        Some(place) => place.ending(),
        None => None,
    }
}

// Ends the conversation of a place.
pub(crate) fn end_at(places: &mut Vec<BoardPlace>, at: usize) -> Option<Ending>
    ensures { EndsAt places.old.items at result places.new.items }
{
    match places.get_mut(at) {
        Some(place) => place.end(),
        None => None,
    }
}

// Returns whether there is such a place, whose request is the next message and waits for its mark.
fn is_due_at(places: &[BoardPlace], at: usize) -> bool
    ensures { OnTrue result (IsDueAt places.now at) }
{
    match places.get(at) {
        Some(place) => place.is_due(),
        None => false,
    }
}

// Drops the numbers that are not those of places whose requests wait for their marks, and those
// that are twice in the ascending list.
fn retain_due(marks: &mut Vec<u32>, places: &[BoardPlace])
    ensures { AreDueAt places.now marks.new.items }
{
    let mut kept = 0;
    'marks: for index in 0..marks.len() {
        let at = marks[index];
        if is_due_at(places, at as usize) && (kept == 0 || marks[kept - 1] < at) {
            marks[kept] = at;
            kept += 1;
        }
    }
    marks.truncate(kept);
}

// Sorts the numbers of places, and drops those whose requests do not wait for their marks.
pub(crate) fn keep_due(marks: &mut Vec<u32>, places: &[BoardPlace])
    ensures { AreDueAt places.now marks.new.items }
{
    marks.as_mut_slice().sort_unstable();
    retain_due(marks, places);
}

// Allows the request of a place to be sent.
fn clear_at(places: &mut Vec<BoardPlace>, at: u32)
    ensures { ClearsMarked (at ∷ []) places.old.items places.new.items }
{
    match places.get_mut(at as usize) {
        Some(place) => place.clear(),
        None => {}
    }
}

// Allows the requests of the places with marks to be sent.
pub(crate) fn clear_marked(places: &mut Vec<BoardPlace>, marks: &[u32])
    ensures { ClearsMarked marks.now places.old.items places.new.items }
{
    'marks: for mark in marks {
        clear_at(places, *mark);
    }
}

// Returns whether a place has no outcome to be waited for.
fn is_settled(found: &[LedgerEntry], places: &[BoardPlace], at: usize) -> bool
    ensures { result ≡ is_settled (entry_at found.now at) (slice_get places.now at) }
{
    match entry_of(found, at) {
        LedgerEntry::NotSent => is_ended(places, at),
        _ => true,
    }
}

// Returns whether no place has an outcome to be waited for.
pub(crate) fn are_settled(found: &[LedgerEntry], places: &[BoardPlace]) -> bool
    ensures { OnTrue result (AreSettled found.now places.now) }
{
    'places: for at in 0..places.len() {
        if !is_settled(found, places, at) {
            return false;
        }
    }
    true
}
