// The file of a night while it is appended to. Before each wait for more lines all that was written is flushed, and within a long piece of them at
// each second of the clock.
use crate::file::Ours;
use crate::say;
use console::files;
use program_parts::voice::Said;
use std::fs::File;
use std::io;
use std::time::Clock;

// Where the records are that were written: all of them on the disk; some of them not flushed yet; or nobody knows where, since a flush failed.
#[derive(Clone, Copy)]
enum Written {
    Flushed,
    Waiting,
    Lost,
}

// The file; where its last whole record ends; how many records were written, how many of them are flushed, and where they are; and in which second all of them
// were flushed last.
#[derive(Drop)]
pub struct Night<'a> {
    pub ours: Ours<'a>,
    end: u64,
    records: u64,
    safe: u64,
    written: Written,
    second: Option<u64>,
}

// The system's clock; none where it reads a time before 1970.
fn second(rt: HostRuntime) -> Option<u64> {
    rt.since_1970().ok().map(|time| time.as_secs())
}

// How many bytes of a record were written, and why no more were, where the system gave a reason.
#[derive(Clone, Copy)]
struct Unwritten {
    done: usize,
    why: Option<io::Error>,
}

// One write for the whole record. Where it is short, one more for the rest may do it, or learns why not.
fn put(log: &File, record: &[u8]) -> Result<(), Unwritten> {
    let done = files::write(log, record).map_err(|why| Unwritten {
        done: 0,
        why: Some(why),
    })?;
    if done == record.len() {
        return Ok(());
    }
    if done == 0 {
        return Err(Unwritten { done, why: None });
    }
    let more = files::write(log, &record[done..]).map_err(|why| Unwritten {
        done,
        why: Some(why),
    })?;
    if done + more == record.len() {
        return Ok(());
    }
    Err(Unwritten {
        done: done + more,
        why: None,
    })
}

impl<'a> Night<'a> {
    pub fn new(ours: Ours<'a>, end: u64) -> Self {
        let second = second(ours.voice.rt);
        Night {
            ours,
            end,
            records: 0,
            safe: 0,
            written: Written::Flushed,
            second,
        }
    }

    // Nothing more is written where this fails.
    pub fn flush(&mut self) -> Result<(), Said> {
        if !matches!(self.written, Written::Waiting) {
            return Ok(());
        }
        self.written = Written::Lost;
        self.ours.flush()?;
        self.written = Written::Flushed;
        self.safe = self.records;
        self.second = second(self.ours.voice.rt);
        Ok(())
    }

    // A clock that is set moves the second too; only one set back by less than a second puts a flush off, and by no more than that.
    fn flush_in_time(&mut self) -> Result<(), Said> {
        let now = second(self.ours.voice.rt);
        if now.is_some() && now == self.second {
            return Ok(());
        }
        self.flush()
    }

    // Nothing is left of a record that could not be written whole, where nobody else has written to the file meanwhile.
    fn take_back(&mut self, done: usize) -> Result<(), Said> {
        if done == 0 {
            return Ok(());
        }
        self.ours.as_left(self.end.wrapping_add(done as u64))?;
        self.ours.cut(self.end)
    }

    // The record of a line goes to the file's end, or the file stays as it was and no more is written.
    pub fn store(&mut self, line: u64, record: &[u8]) -> Result<(), Said> {
        self.ours.as_left(self.end)?;
        self.written = Written::Waiting;
        if let Err(part) = put(&self.ours.log, record) {
            let said = say::fail_line(&mut self.ours.voice, line, part.why);
            let _ = self.take_back(part.done);
            return Err(said);
        }
        self.end = self.end.wrapping_add(record.len() as u64);
        self.records = self.records.wrapping_add(1);
        self.flush_in_time()
    }

    // All is flushed, and what was appended is said.
    pub fn finish(&mut self) {
        let _ = self.flush();
        let lasts = self.ours.lasts;
        if lasts && !matches!(self.written, Written::Lost) {
            say::appended(&mut self.ours.voice, self.records);
            return;
        }
        say::appended_in_part(&mut self.ours.voice, self.records, self.safe, lasts);
    }
}
