// The records of a file of any length, read in pieces: log_walk says where they end, and this reads the bytes.
// Kept (6): fixed memory: a message has a buffer of a fixed length.
use crate::{say, show, zeros};
use log_walk::Walk;
use program_parts::log::Listener;
use program_parts::paper::Paper;
use program_parts::voice::{Said, Voice};

// The paper that a file's records go to as lines, where they are shown.
// Kept (7): two listeners, one with a paper and one without, would have this walk twice, but for one line of it.
#[derive(Drop)]
pub struct Shown<'a> {
    pub paper: Option<Paper<'a>>,
}

impl<'a> Listener for Shown<'a> {
    // What is wrong where lines could not be written was said.
    fn hear(&mut self, start: Walk, piece: &[u8]) -> Result<Walk, Said> {
        let mut walk = start;
        for _ in 0..u64::MAX {
            let s = walk.stepped(piece);
            walk = s.walk;
            if let Some(paper) = &mut self.paper {
                show::put_found(paper, piece, s.found)?;
            }
            if !walk.is_within() {
                return Ok(walk);
            }
        }
        Ok(walk)
    }
}

// The whole file. Where its records are shown, each goes to that paper as a line; where not, zeros at the file's end are told. An error where the file could
// not be read to its end, or its lines could not be written. What is said in a walk has a buffer of its own: lines may wait in the paper's.
pub fn read_file(
    rt: HostRuntime,
    name: &[u8],
    buf: &mut [u8],
    shown: &mut Shown,
) -> Result<Walk, Said> {
    let mut room = console::large_buffer();
    let mut voice = Voice::new(rt, say::PROGRAM, name, &mut room);
    let log = voice.opened()?;
    let walk = log.heard(shown, buf, &mut voice);
    if shown.paper.is_none() {
        zeros::tell(&log, buf, &mut voice);
    }
    walk
}
