// A log in a file of any length, read in pieces to its end: what stands behind the window may be broken too.
// Kept (6): fixed memory: a piece of the file and a message have buffers of a fixed length.
use crate::kept::Kept;
use crate::say;
use log_walk::{Stand, Walk};
use program_parts::voice::{Said, Voice};

// Only a log that ends with a whole record is compared. At a seam or within a piece no walk ends.
fn judged(w: Walk, voice: &mut Voice) -> Result<(), Said> {
    match w.stand {
        Stand::End => Ok(()),
        Stand::Cut | Stand::Bad(_) => Err(say::broken(voice, w)),
        Stand::Short | Stand::Within | Stand::Seam => Err(voice.changed()),
    }
}

// To the length that the file had: whoever records may append to it meanwhile. Why a log is not compared is said.
pub fn read(rt: HostRuntime, kept: &mut Kept) -> Result<(), Said> {
    let mut room = console::large_buffer();
    let mut voice = Voice::new(rt, say::PROGRAM, kept.name, &mut room);
    let log = voice.opened()?;
    let mut buf = console::large_buffer();
    let walk = log.heard(kept, &mut buf, &mut voice)?;
    judged(walk, &mut voice)
}
