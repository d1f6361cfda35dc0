// The records of a piece of a log, one after the other: log_walk says where they end, and those of the window are kept.
use crate::kept::Kept;
use log_walk::Walk;
use program_parts::log::Listener;
use program_parts::voice::Said;

impl<'a> Listener for Kept<'a> {
    // The number of a record in the file is how many there are with it.
    fn hear(&mut self, start: Walk, piece: &[u8]) -> Result<Walk, Said> {
        let mut walk = start;
        for _ in 0..u64::MAX {
            let at = walk.place();
            let s = walk.stepped(piece);
            walk = s.walk;
            self.keep(s.found, piece, at, walk.records);
            if !walk.is_within() {
                return Ok(walk);
            }
        }
        Ok(walk)
    }
}
