// The set-ups of a file: the desk's `setup` lines, blank lines and comments.
use console::files;
use notation_read::script;
use notation_setup::setup;
use notation_setup::setup::Setup;
use playing_nights::{Replay, Unprepared};
use std::io;

// How a set-up's line begins.
const SETUP: &[u8] = b"setup ";

// Why a file's posts are not set up: what the system could not do; a file over its length; or a line, by its number, that is no set-up, or whose set-up is
// not taken. No set-up here is late: the records come after the file.
#[derive(Clone, Copy)]
pub enum PostsError {
    Opening(io::Error),
    Reading(io::Error),
    TooLong,
    NoSetup(u64),
    SetUp(u64, Unprepared),
}

// What a line asks for, if it is a set-up.
fn asked_in(s: &[u8]) -> Option<Setup> {
    setup::setup_line(s.strip_prefix(SETUP)?, 0)
}

// The replay after a line.
fn set_up(replay: Replay, line: u64, s: &[u8]) -> Result<Replay, PostsError> {
    if script::is_skipped(s) {
        return Ok(replay);
    }
    let asked = asked_in(s).ok_or(PostsError::NoSetup(line))?;
    let r = playing_setups::set_up(replay, asked.post, asked.channel, asked.limits);
    r.answer.map_err(|why| PostsError::SetUp(line, why))?;
    Ok(r.replay)
}

// The lines of a file, up to the first that stops the replay. The last may lack its line feed.
fn lines_in(file: &[u8]) -> Result<Replay, PostsError> {
    let mut replay = playing_setups::start();
    for (number, line) in (1..u64::MAX).zip(file.split(|&b| b == b'\n')) {
        replay = set_up(replay, number, line)?;
    }
    Ok(replay)
}

// A read behind the last byte tells whether it was the last, and why the reading ended where it was not.
// Kept (6): fixed memory: the file has a buffer of a fixed length.
pub fn read(rt: HostRuntime, name: &[u8]) -> Result<Replay, PostsError> {
    let file = files::open_read(rt, name).map_err(PostsError::Opening)?;
    let mut buf = console::large_buffer();
    let n = files::read_full(&file, &mut buf);
    let mut more = console::buffer();
    let behind = files::read(&file, &mut more).map_err(PostsError::Reading)?;
    if behind > 0 || n > 65535 {
        return Err(PostsError::TooLong);
    }
    lines_in(&buf[..n])
}
