// The records of a log, one after the other.
ghost use Rattle.std.specs.Prelude.{◌≡◌, ◌-◌, length};
ghost use Rattle.std.specs.Iterator.{at_most};
ghost use Rattle.log_read.specs.Records.{Reads};

use crate::stage::record_from;
use log_records::Entry;

// A log, and the byte where the next record begins; or, behind the last one, where no more does, by which `ending_at` tells how the log ends.
#[derive(Drop)]
pub struct Records<'a> {
    pub log: &'a [u8],
    pub at: usize,
}

impl<'a> Records<'a> {
    // From the log's first byte on.
    pub fn new(log: &'a [u8]) -> Self
        ensures { result ≡ record { log = log.entry; at = 0 } }
    {
        Records { log, at: 0 }
    }
}

impl<'a> Iterator for Records<'a> {
    type Item = Entry;

    ghost next_gives = { Reads };

    ghost remaining = { λ s. at_most (length s.log.now - s.at) };

    // Built in, as `record_from` is: by a call a log reads at less than half the speed.
    #[inline(always)]
    fn next(&mut self) -> Option<Entry> {
        if self.log.len() <= self.at {
            return None;
        }
        let e = record_from(self.log, self.at).ok()?;
        self.at = e.next;
        Some(e)
    }
}
