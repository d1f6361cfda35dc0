// Two recordings compared (02, Req 10): `compare FIRST SECOND [FROM TO]` prints the records that one night log has and the other has not, by their numbers,
// and each channel that differs, by its first place; its last line is `same` or `differ`. What could not be done, or was refused, goes to standard error,
// and then there is no such line.
// Kept (6): fixed memory: a file's name, and what is kept of a log, have buffers of a fixed length.
#![tactic(auto)]

mod say; // say.rt: what is said on standard error
mod window; // window.rt: the times between which records are compared
mod kept; // kept.rt: the records of a log that are compared
mod piece; // piece.rt: the records of a piece of a log
mod file; // file.rt: a log, piece by piece
mod line; // line.rt: a record as its line
mod surplus; // surplus.rt: the records that the other log has not
mod channels; // channels.rt: the channels that differ
mod verdict; // verdict.rt: all of it, and the last line

use compare_rules::MOST;
use kept::Kept;
use program_parts::voice::Said;
use window::Window;

const USAGE: &[u8] =
    b"usage: compare FIRST SECOND [FROM TO]; FROM and TO cut both logs to the records from FROM to TO ms, both included\n";

// 02: "At each step the first log comes first": a broken one is told before the second is looked at.
fn run(rt: HostRuntime, w: Window, first: &[u8], second: &[u8]) -> Result<(), Said> {
    let mut bytes = console::large_buffer();
    let mut numbers = [0u64; MOST];
    let mut x = Kept::new(first, w, &mut bytes, &mut numbers);
    file::read(rt, &mut x)?;
    let mut bytes = console::large_buffer();
    let mut numbers = [0u64; MOST];
    let mut y = Kept::new(second, w, &mut bytes, &mut numbers);
    file::read(rt, &mut y)?;
    verdict::say(rt, &x, &y)
}

fn main(rt: HostRuntime) {
    let Some(w) = Window::told(rt) else {
        console::say(rt, USAGE);
        return;
    };
    let mut first = console::buffer();
    let Some(first) = console::whole_word(rt, 1, b"compare: FIRST", &mut first) else {
        return;
    };
    let mut second = console::buffer();
    let Some(second) = console::whole_word(rt, 2, b"compare: SECOND", &mut second) else {
        return;
    };
    let _ = run(rt, w, first, second);
}
