// The night log in a file of any length, read in pieces.
// Kept (6): fixed memory: a piece of the log, the output and a message have buffers of a fixed length.
use crate::piece::Play;
use crate::{say, summary};
use playing_nights::Replay;
use program_parts::log::Log;
use program_parts::paper::Paper;
use program_parts::voice::{Said, Voice};
use std::io::IsTerminal;

// The lines of a batch have 40,960 bytes of the buffer's 65,536: playing_batches wants ten for each byte of the log.
const MOST: usize = 24576;

// Where standard output is a terminal too, the lines themselves show how far the replay is.
fn is_watched(rt: HostRuntime) -> bool {
    !rt.stdout().is_terminal() && rt.stderr().is_terminal()
}

// To the length that the log had: whoever records may append to it meanwhile. The lines that still wait are written, and the progress line is wiped, whatever
// came of the walk.
fn read_log(rt: HostRuntime, replay: Replay, log: &Log, voice: &mut Voice) -> Result<(), Said> {
    let mut out = console::large_buffer();
    let paper = Paper::new(rt, b"replay: writing standard output", MOST, &mut out);
    let watched = is_watched(rt);
    let mut play = Play::new(replay, log.size, paper, watched.then_some(rt));
    let mut buf = console::large_buffer();
    let heard = log.heard(&mut play, &mut buf, voice);
    if watched {
        say::wipe(rt);
    }
    play.paper.flush();
    heard?;
    play.paper.open()?;
    summary::say(rt, &play);
    Ok(())
}

fn played(rt: HostRuntime, replay: Replay, name: &[u8]) -> Result<(), Said> {
    let mut room = console::large_buffer();
    let mut voice = Voice::new(rt, say::PROGRAM, name, &mut room);
    let log = voice.opened()?;
    read_log(rt, replay, &log, &mut voice)
}

// The whole log is fed to a replay, and the summary told; where it could not be read, or its lines could not be written, that is said.
pub fn play(rt: HostRuntime, replay: Replay, name: &[u8]) {
    let _ = played(rt, replay, name);
}
