// A log in a file of any length, read in pieces to the length that the file had when it was opened: whoever records may append to it meanwhile.
ghost use Rattle.std.specs.Prelude.{◌≡◌, ◌-◌, ◌≤◌, false, length, IfOk};
ghost use Rattle.log_walk.specs.Walk.{is_short};

use crate::voice::{Said, Voice};
use console::{files, front};
use log_walk::Walk;
use log_walk::file::within;
use std::fs::File;
use std::io;

// What a program does with the pieces of a log, one behind the other.
pub trait Listener {
    // A piece, which begins at the byte that the walk names: the walk behind it.
    fn hear(&mut self, walk: Walk, piece: &[u8]) -> Result<Walk, Said>;
}

#[derive(Drop)]
pub struct Log {
    pub file: File,
    pub size: u64,
}

impl Log {
    // One read of the file from its byte `from` on: what the buffer takes of it, and nothing behind the length that the file had. Even of an empty file it is
    // tried, so that a folder is an error.
    pub fn piece<'a>(&self, from: u64, buf: &'a mut [u8]) -> io::Result<&'a [u8]>
        ensures { IfOk result (λ piece. length piece.now ≤ self.now.size - from) }
    {
        let got = files::read_at(&self.file, buf, from)?;
        Ok(front(buf, within(got, from, self.size)))
    }

    // All pieces, to the log's end or where it is broken. A piece that is short of a record, before the end that the file had, tells that the file is shorter
    // now. A record has at most 20 bytes, so every piece but the file's last holds some.
    pub fn heard<L: Listener>(
        &self,
        listener: &mut L,
        buf: &mut [u8],
        voice: &mut Voice,
    ) -> Result<Walk, Said>
        ensures { IfOk result (λ walk. is_short walk.stand ≡ false) }
    {
        let mut walk = Walk::start(self.size);
        // Kept (3): no measure falls here, since what a `Listener` answers need not lie behind where it stood: so a count bounds the turns.
        for _ in 0..u64::MAX {
            let piece = voice.done(b": reading", self.piece(walk.from, buf))?;
            walk = listener.hear(walk, piece)?;
            if walk.is_short() {
                return Err(voice.changed());
            }
            if !walk.is_at_seam() {
                return Ok(walk);
            }
        }
        Ok(walk)
    }
}
