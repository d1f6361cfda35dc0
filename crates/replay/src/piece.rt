// A piece of the log, batch by batch: log_walk says where its records end, and the replay, the lines and the counts go along.
use crate::say;
use crate::tally::Tally;
use console::front;
use log_walk::{Step, Walk};
use playing_nights::Replay;
use program_parts::log::Listener;
use program_parts::paper::Paper;
use program_parts::voice::Said;
use text_pen::Sheet;

// A batch has 4,096 bytes, and a record four at least.
const BATCH: usize = 4096;

const RECORDS: usize = 1024;

// A replay; the walk over its log; how often each refusal was given; where the lines wait; how many pieces were heard; and what a terminal is told by how far
// the replay is, where one is told.
#[derive(Drop)]
pub struct Play<'a> {
    pub replay: Replay,
    pub walk: Walk,
    pub refusals: Tally,
    pub paper: Paper<'a>,
    pieces: u64,
    watched: Option<HostRuntime>,
}

// The bytes of the log between two places of a walk.
fn between(first: Walk, last: Walk) -> usize {
    last.at.wrapping_sub(first.at) as usize
}

// The walk behind as many whole records of its piece as a batch takes.
fn batch_end(start: Walk, piece: &[u8]) -> Walk {
    let mut w = start;
    for _ in 0..u64::MAX {
        let Step { walk: next, .. } = w.stepped(piece);
        if !next.is_within() {
            return next;
        }
        if between(start, next) > BATCH {
            return w;
        }
        w = next;
    }
    w
}

// So many bytes were written behind the lines that wait.
fn advance(sheet: &mut Sheet, bytes: usize) {
    match sheet.pen.at.checked_add(bytes) {
        Some(at) if at <= sheet.out.len() => sheet.pen.at = at,
        _ => sheet.pen.full = true,
    }
}

impl<'a> Play<'a> {
    pub fn new(replay: Replay, size: u64, paper: Paper<'a>, watched: Option<HostRuntime>) -> Self {
        Play {
            replay,
            walk: Walk::start(size),
            refusals: Tally::default(),
            paper,
            pieces: 0,
            watched,
        }
    }

    // One batch further: its records are counted, and its lines wait. Every batch holds whole records, and there is room for them.
    fn step(&mut self, piece: &[u8], words: &mut [u32]) -> Result<(), Said> {
        self.paper.make_room();
        self.paper.open()?;
        let end = batch_end(self.walk, piece);
        let bytes = log_read::payload(piece, self.walk.place(), between(self.walk, end));
        let sheet = &mut self.paper.sheet;
        let at = sheet.pen.at.min(sheet.out.len());
        let b = playing_batches::write_batch(self.replay, bytes, words, &mut sheet.out[at..]);
        self.replay = b.replay;
        let lines = b.answer.map_err(|_| Said)?;
        self.refusals
            .add_words(front(words, lines.records as usize));
        advance(&mut self.paper.sheet, lines.bytes);
        self.walk = end;
        self.paper.open()
    }

    // Kept (6): fixed memory: the answers of a batch have a buffer of a fixed length.
    fn feed(&mut self, piece: &[u8]) -> Result<(), Said> {
        let mut words = [0u32; RECORDS];
        for _ in 0..u64::MAX {
            self.step(piece, &mut words)?;
            if !self.walk.is_within() {
                return Ok(());
            }
        }
        Ok(())
    }
}

impl<'a> Listener for Play<'a> {
    // A piece has 65,536 bytes, so each 16th is about a MiB.
    fn hear(&mut self, walk: Walk, piece: &[u8]) -> Result<Walk, Said> {
        self.walk = walk;
        self.feed(piece)?;
        self.pieces = self.pieces.wrapping_add(1);
        if let Some(rt) = self.watched
            && self.pieces % 16 == 0
            && self.walk.is_at_seam()
        {
            say::progress(rt, self.replay.count, self.walk.at);
        }
        Ok(self.walk)
    }
}
