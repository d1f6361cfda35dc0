// What the desk lends to its steps: a line's fields, the room that their bytes are read into, and the output on its way to standard output. For the desk and
// its steps alone; every function takes any input.
#![tactic(auto)]

ghost use Rattle.std.specs.Prelude.{◌≡◌, length, ltb};

mod fields; // fields.rt: the fields of a line

// Passed on to the desk and its steps, which name it through this one.
pub use console::front;
pub use fields::Fields;
use std::io::ErrorKind;
use text_pen::{Pen, Sheet};

const HALF: usize = 32768;

// What an answer may have beyond its line's length: a record, or every finding in words. The answers of `logr` and `replay` go out between two records.
const SPARE: usize = 2048;

// A pen of an output that nobody reads any more: nothing more is written with it.
// Kept (1): the clause of is_unread speaks of a pen past its buffer.
const UNREAD: Pen = Pen {
    at: usize::MAX,
    full: true,
};

// The output, whose answers wait on the sheet until they are many.
// Kept (2): no `program_parts::paper::Paper`: that is full, and its program ends, once a write failed; the desk goes on, and ends where nobody reads alone.
#[derive(Drop)]
pub struct Output<'a> {
    pub rt: HostRuntime,
    pub sheet: Sheet<'a>,
}

impl<'a> Output<'a> {
    // Whether it has no reader left.
    pub fn is_unread(&self) -> bool
        ensures { result ≡ ltb (length self.now.sheet.out.now) self.now.sheet.pen.at }
    {
        self.sheet.pen.at > self.sheet.out.len()
    }

    // What waits goes out.
    pub fn flush(&mut self) {
        let rt = self.rt;
        let at = self.sheet.pen.at;
        let Some(waiting) = self.sheet.out.get(..at) else {
            return;
        };
        let done = console::write(rt, waiting);
        self.sheet.pen = Pen::default();
        if let Err(why) = done {
            if why.kind() == ErrorKind::BrokenPipe {
                self.sheet.pen = UNREAD;
            } else {
                console::fail(rt, b"desk: writing standard output", why);
            }
        }
    }

    // Between two parts of an answer that may be longer than its line.
    pub fn flush_half(&mut self) {
        if self.sheet.pen.at > HALF {
            self.flush();
        }
    }

    // Room for the answer to a line of this length: no answer is longer than its line and SPARE.
    pub fn make_room(&mut self, have: usize) {
        if have > HALF - SPARE {
            self.flush();
        } else {
            self.flush_half();
        }
    }
}

// Where a step works: the room that its line's bytes are read into, and the output.
#[derive(Drop)]
pub struct Bench<'a, 'b> {
    pub room: &'a mut [u8],
    pub output: &'a mut Output<'b>,
}
