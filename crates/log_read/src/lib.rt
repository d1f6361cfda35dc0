// A night log is read at a place of a lent slice, or from end to end (02, Req 01). For every program that takes a log. Every public function takes any
// input.
#![tactic(auto)]

ghost use Rattle.std.specs.Prelude.{◌≡◌};
ghost use Rattle.log_records.specs.Reading.{found_at, payload_of, log_of};
ghost use Rattle.log_read.specs.Scan.{scan_of};
ghost use Rattle.log_read.specs.Records.{ending_in};

mod records; // records.rt: the records of a log, one after the other
mod stage; // stage.rt: a record, part by part

use log_records::{Found, RecordError};
pub use records::Records;
use refusals::Refusal;
use stage::record_from;

// How a log ends: behind a whole record; in a piece of one, which begins at a byte; or at a record that is refused, which begins at a byte.
// Kept (1): a log that ends in a piece is read whole by 02, so it is no refusal, and a clean end and a cut one would be two types nested in a Result.
#[derive(Clone, Copy)]
pub enum Ending {
    Clean,
    Cut(usize),
    Refused(Refusal, usize),
}

// What a whole log reads as: how many records, and how it ends.
#[derive(Clone, Copy)]
pub struct Scan {
    pub records: usize,
    pub ending: Ending,
}

// The record at a place of the log.
pub fn record_at(s: &[u8], at: usize) -> Found
    ensures { result ≡ found_at s.now at }
{
    if s.len() <= at {
        return Found::End;
    }
    match record_from(s, at) {
        Ok(e) => Found::Record(e),
        Err(RecordError::Cut) => Found::Cut(at),
        Err(RecordError::Bad(why)) => Found::Refused(why, at),
    }
}

// How the log ends, by the byte behind its last record. Where one more begins, what stands before it is whole.
pub fn ending_at(s: &[u8], at: usize) -> Ending
    ensures { result ≡ ending_in (found_at s.now at) }
{
    match record_at(s, at) {
        Found::Record(_) | Found::End => Ending::Clean,
        Found::Cut(at) => Ending::Cut(at),
        Found::Refused(why, at) => Ending::Refused(why, at),
    }
}

// A part of the caller's log: `length` bytes from `start` on, and nothing where the log has not that many.
pub fn payload(s: &[u8], start: usize, length: usize) -> &[u8]
    ensures { result.now ≡ payload_of s.now start length }
{
    start
        .checked_add(length)
        .and_then(|end| s.get(start..end))
        .unwrap_or(&[])
}

// A whole log, of any length, record by record.
pub fn scan_log(s: &[u8]) -> Scan
    ensures { result ≡ scan_of 0 (log_of s.now) }
{
    // Kept (3): byte and count are kept here: of a reader that is lent to a loop nothing is proved behind the loop, so that neither `count` nor its own place
    // can be asked; and by `fold` the closure would have to say a bound of its sum.
    let mut at = 0;
    let mut records: usize = 0;
    for e in Records::new(s) {
        at = e.next;
        records += 1;
    }
    Scan {
        records,
        ending: ending_at(s, at),
    }
}
