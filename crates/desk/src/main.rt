// The desk: reads a script on standard input and writes one answer line for each step, in order. Every step runs by value; with the argument
// `lent` it runs through the entries that change a lent table in place.
// Kept (6): no heap: the buffers are the program's own, and lent to what reads and writes.
#![tactic(auto)]

mod step; // step.rt: a line and its answer

use console::lines::Line;
use desk_batch::desk_table::{ByValue, InPlace, Posts, Way};
use desk_buffers::{Output, front};
use notation_answers::answer;
use notation_read::script;
use text_pen::Sheet;

// desk.md: "a line over 65,535 bytes"
const LONGEST: usize = 65535;

// What is kept from one line to the next: the posts, the room that a line's bytes are read into, and the output.
#[derive(Drop)]
struct Desk<'p, 'r, 'o, 'b, W: Way> {
    posts: &'p mut Posts<W>,
    room: &'r mut [u8],
    output: &'o mut Output<'b>,
}

impl<'p, 'r, 'o, 'b, W: Way> Desk<'p, 'r, 'o, 'b, W> {
    // A whole line: its answer goes to the output.
    fn answer(&mut self, line: &Line) {
        let s = line.text();
        if script::is_skipped(s) {
            return;
        }
        self.output.make_room(s.len());
        if line.over {
            answer::unknown(&mut self.output.sheet);
            return;
        }
        step::answer(self.posts, s, self.room, self.output);
    }

    // The bytes of a piece, one after the other.
    fn feed(&mut self, line: &mut Line, piece: &[u8]) {
        for &b in piece {
            if b == b'\n' {
                self.answer(line);
                line.next();
            } else {
                line.push(b);
            }
        }
    }

    // To the input's end. Nobody waits for an answer while the desk waits for more: what is answered goes out first.
    fn run(&mut self, line: &mut Line, piece: &mut [u8]) {
        for _ in 0..u64::MAX {
            self.output.flush();
            // by default the system ends a program there
            if self.output.is_unread() {
                return;
            }
            let n = console::next_piece(self.output.rt, b"desk: reading standard input", piece);
            if n == 0 {
                return;
            }
            self.feed(line, front(piece, n));
        }
    }

    // "The last line may lack its line feed."
    fn finish(&mut self, line: &Line) {
        if line.have > 0 {
            self.answer(line);
        }
        self.output.flush();
    }
}

// Answers the input's lines, to its end.
fn serve<W: Way>(way: W, output: &mut Output) {
    let mut piece = console::large_buffer();
    let mut bytes = [0u8; LONGEST];
    let mut room = console::large_buffer();
    let mut line = Line::new(&mut bytes);
    let mut posts = Posts {
        way,
        table: watch::empty(),
    };
    let mut desk = Desk {
        posts: &mut posts,
        room: &mut room,
        output,
    };
    desk.run(&mut line, &mut piece);
    desk.finish(&line);
}

// Whether the call's first word is `lent`. A word longer than its room is not.
fn is_lent(rt: HostRuntime) -> bool {
    let mut word = [0u8; 16];
    console::word(rt, 1, &mut word).is_ok_and(|n| matches!(front(&word, n), b"lent"))
}

fn main(rt: HostRuntime) {
    let mut out = console::large_buffer();
    let mut output = Output {
        rt,
        sheet: Sheet::new(&mut out),
    };
    if console::has_words(rt, 0) {
        serve(ByValue, &mut output);
    } else if console::has_words(rt, 1) && is_lent(rt) {
        serve(InPlace, &mut output);
    } else {
        console::say(
            rt,
            b"usage: desk [lent] < SCRIPT; lent runs the steps on a lent table\n",
        );
    }
}
