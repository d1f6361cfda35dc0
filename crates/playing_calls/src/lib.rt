// A replay's records (02, Req 05): a night log is fed to a table that was set up, one record a call, and each record gets a line in a lent buffer. For every
// program that plays a log. The public function takes any input.
#![tactic(auto)]

ghost use Rattle.std.specs.Prelude.{◌≡◌, ◌<◌, ◌≤◌, length};
ghost use Rattle.log_records.specs.Reading.{rec_of, found_at};
ghost use Rattle.playing_line.specs.Lines.{line_room, line_of, laid};
ghost use Rattle.playing_nights.specs.Fed.{fed_with};
ghost use Rattle.playing_nights.specs.Call.{other, line_call, on_found, next_by, buffer_by, next_line, buffer_after, Within};

use log_records::{Entry, Found};
use playing_nights::{Course, Next, Played, Replay};
use refusals::Refusal;
use text_pen::Sheet;
use watch_places::watch_rules::{Fed, Table};

// 02: "a line buffer under 40 bytes gets 8 first".
pub const LINE: usize = 40;

// Kept (5): the entry goes on field by field, as `watch::frame` takes it (docs/LIBRARY.md).
fn fed(t: Table, log: &[u8], e: Entry) -> Fed
    requires { Within log.now e }
    ensures { result ≡ fed_with t (rec_of log.now e) }
{
    if e.tick {
        return watch::tick(t, e.channel, e.time);
    }
    watch::frame(
        t,
        e.channel,
        e.time,
        e.id,
        e.extended,
        log_read::payload(log, e.start, e.length),
    )
}

// The line goes to the front of a buffer that has room for every line; the answer is how many bytes it has.
fn write(out: &mut [u8], count: u64, post: u32, a: Result<u32, Refusal>) -> usize
    requires { (line_room ≤ length out.old) × (post < 100) }
    ensures { (result ≡ length (line_of count post a)) × (out.new ≡ laid (line_of count post a) out.old) }
{
    let mut sheet = Sheet::new(out);
    playing_line::words(&mut sheet, count, post, a);
    sheet.pen.at
}

// A record is fed to the table, and its line is written.
fn told(r: Replay, log: &[u8], e: Entry, line: &mut [u8]) -> Next
    requires { Within log.now e × (line_room ≤ length line.old) }
    ensures { (result ≡ next_by r (line_call r log.now e))
        × (line.new ≡ buffer_by line.old (line_call r log.now e)) }
{
    let post = watch_places::place(r.table, e.channel) as u32;
    let count = r.count.wrapping_add(1);
    let f = fed(r.table, log, e);
    let bytes = write(line, count, post, f.answer);
    Next {
        replay: Replay {
            table: f.table,
            count,
            course: Course::Records,
        },
        answer: Played::Line {
            bytes,
            next: e.next,
        },
        heard: f.answer,
    }
}

// An answer without a line, which leaves the replay as it was and tells no finding.
fn unheard(r: Replay, answer: Played) -> Next
    ensures { result ≡ next_by r (other answer) }
{
    Next {
        replay: r,
        answer,
        heard: Ok(0),
    }
}

fn read_on(r: Replay, log: &[u8], at: usize, line: &mut [u8]) -> Next
    requires { line_room ≤ length line.old }
    ensures { (result ≡ next_by r (on_found r log.now (found_at log.now at)))
        × (line.new ≡ buffer_by line.old (on_found r log.now (found_at log.now at))) }
{
    match log_read::record_at(log, at) {
        Found::Record(e) => told(r, log, e, line),
        Found::End => unheard(r, Played::End),
        Found::Cut(byte) => unheard(r, Played::Cut(byte)),
        Found::Refused(w, byte) => unheard(r, Played::Bad(w, byte)),
    }
}

// One record a call: the one at byte `at` of the log, whose line is written from index 0 of the buffer. Behind the line the buffer stays as it
// was; every answer but a line leaves buffer and replay as they were.
pub fn next_line(r: Replay, log: &[u8], at: usize, line: &mut [u8]) -> Next
    ensures { (result ≡ next_line r log.now at (length line.old))
        × (line.new ≡ buffer_after r log.now at line.old) }
{
    if line.len() < LINE {
        return unheard(r, Played::Short);
    }
    match r.course {
        Course::SetUps | Course::Records => read_on(r, log, at, line),
        Course::Refused(w) => unheard(r, Played::SetUp(w)),
    }
}
