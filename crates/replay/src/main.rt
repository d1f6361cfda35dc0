// Replay of a night (02, Req 05): `replay POSTS LOG` sets posts up as the lines of POSTS tell, feeds them the records of the night log LOG, and
// writes each record's line to standard output. How the log ends, and a summary, go to standard error.
// Kept (6): fixed memory, so that a file's name has a buffer of a fixed length.
#![tactic(auto)]

mod say; // say.rt: what is said on standard error
mod posts; // posts.rt: the set-ups of a file
mod tally; // tally.rt: refusals counted by their numbers
mod own; // own.rt: the table's own counts
mod piece; // piece.rt: a piece of the log, batch by batch
mod night; // night.rt: the log, piece by piece
mod summary; // summary.rt: the ending and the counts

const USAGE: &[u8] = b"usage: replay POSTS LOG\n";

// The log is opened only where every set-up was taken.
fn run(rt: HostRuntime, posts: &[u8], log: &[u8]) {
    match posts::read(rt, posts) {
        Ok(replay) => night::play(rt, replay, log),
        Err(why) => say::unprepared(rt, posts, why),
    }
}

fn main(rt: HostRuntime) {
    if !console::has_words(rt, 2) {
        console::say(rt, USAGE);
        return;
    }
    let mut posts = console::buffer();
    let Some(posts) = console::whole_word(rt, 1, b"replay: POSTS", &mut posts) else {
        return;
    };
    let mut log = console::buffer();
    let Some(log) = console::whole_word(rt, 2, b"replay: LOG", &mut log) else {
        return;
    };
    run(rt, posts, log);
}
