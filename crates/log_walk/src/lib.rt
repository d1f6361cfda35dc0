// A night log that no buffer holds, read in pieces (02, Req 01): where the walk stands, and what it says of the whole log in the end. For every program that
// reads a log from a file. Every public function takes any input.
#![tactic(auto)]

ghost use Rattle.std.specs.Prelude.{◌≡◌, length};
ghost use Rattle.log_walk.specs.Walk.{is_within, is_seam, is_short, start_of, place_in, seen_of, standing, on_piece, open_by, behind_of, passed_by, step_of};

pub mod file; // file.rt: lengths and places as the system tells and takes them

use log_records::Found;
use refusals::Refusal;

// Where a walk stands: behind a record, in its piece; where the next piece begins, which is still to be read; at the log's end; at a piece of a record,
// with which the log ends; at a malformed record; or in a piece that neither holds a whole record nor reaches the log's end.
// Kept (1): six places, of which two go on, three end the walk and one is an error: none of them is the answer alone.
#[derive(Clone, Copy)]
pub enum Stand {
    Within,
    Seam,
    End,
    Cut,
    Bad(Refusal),
    Short,
}

// Over a log of `size` bytes: the whole records so far, the byte of the log behind them, and the byte of the log where the piece begins.
#[derive(Clone, Copy)]
pub struct Walk {
    pub size: u64,
    pub records: u64,
    pub at: u64,
    pub from: u64,
    pub stand: Stand,
}

// What a piece shows at a place: a record, by the byte of the piece behind it; the piece's end; a piece of a record; a malformed record.
// Kept (1): an end and a cut are no errors, since the next piece may go on there.
// Kept (2): `passed_by` and the theorem `kept` over it go by this, so that of a record nothing but its end moves a walk; a `Found` has all of its fields.
#[derive(Clone, Copy)]
pub enum Seen {
    Record(usize),
    End,
    Cut,
    Bad(Refusal),
}

#[derive(Clone, Copy)]
pub struct Step {
    pub walk: Walk,
    pub found: Found,
}

impl From<Found> for Seen {
    ghost from_gives = { λ found seen. seen ≡ seen_of found };

    fn from(found: Found) -> Seen {
        match found {
            Found::Record(e) => Seen::Record(e.next),
            Found::End => Seen::End,
            Found::Cut(_) => Seen::Cut,
            Found::Refused(why, _) => Seen::Bad(why),
        }
    }
}

impl Walk {
    // Kept (4): the size is one of a walk's five fields: no number is turned into a type.
    pub fn start(size: u64) -> Self
        ensures { result ≡ start_of size }
    {
        Walk {
            size,
            records: 0,
            at: 0,
            from: 0,
            stand: Stand::Seam,
        }
    }

    // Whether the piece may hold more records.
    pub fn is_within(self) -> bool
        ensures { result ≡ is_within self.stand }
    {
        matches!(self.stand, Stand::Within)
    }

    // Whether the next piece is to be read.
    pub fn is_at_seam(self) -> bool
        ensures { result ≡ is_seam self.stand }
    {
        matches!(self.stand, Stand::Seam)
    }

    // Whether the piece is too short to go on.
    pub fn is_short(self) -> bool
        ensures { result ≡ is_short self.stand }
    {
        matches!(self.stand, Stand::Short)
    }

    // The byte of the piece where the walk stands.
    pub fn place(self) -> usize
        ensures { result ≡ place_in self }
    {
        self.at.saturating_sub(self.from) as usize
    }

    fn stands(self, stand: Stand) -> Self
        ensures { result ≡ standing self stand }
    {
        Walk { stand, ..self }
    }

    fn at_seam(self) -> Self
        ensures { result ≡ on_piece self }
    {
        Walk {
            from: self.at,
            stand: Stand::Seam,
            ..self
        }
    }

    fn open_end(self, length: usize, stand: Stand) -> Self
        ensures { result ≡ open_by self length stand }
    {
        if self.size <= self.from.wrapping_add(length as u64) {
            return self.stands(stand);
        }
        if self.at == self.from {
            return self.stands(Stand::Short);
        }
        self.at_seam()
    }

    fn behind(self, next: usize) -> Self
        ensures { result ≡ behind_of self next }
    {
        Walk {
            records: self.records.wrapping_add(1),
            at: self.from.wrapping_add(next as u64),
            stand: Stand::Within,
            ..self
        }
    }

    // On from what the walk's piece, of so many bytes, shows at its place.
    pub fn passed(self, length: usize, seen: Seen) -> Self
        ensures { result ≡ passed_by self length seen }
    {
        match seen {
            Seen::Record(next) => self.behind(next),
            Seen::End => self.open_end(length, Stand::End),
            Seen::Cut => self.open_end(length, Stand::Cut),
            Seen::Bad(why) => self.stands(Stand::Bad(why)),
        }
    }

    // One record further, where the piece shows one.
    pub fn stepped(self, piece: &[u8]) -> Step
        ensures { result ≡ step_of self piece.now }
    {
        let found = log_read::record_at(piece, self.place());
        let walk = self.passed(piece.len(), Seen::from(found));
        Step { walk, found }
    }
}
