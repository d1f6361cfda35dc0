// A pen appends text to a lent buffer, the two of them a sheet: for every program that writes text. It never writes past the end: what does not fit is left
// out, and the pen is full from then on. The public functions take any input.
#![tactic(auto)]

ghost use Rattle.std.specs.Prelude.{◌≡◌, ◌+◌, ◌≤◌, [], ◌∷◌, length, take, IsTrue};
ghost use Rattle.text_pen.specs.Pens.{has_room, Wrote, new_pen};

// Where the next byte goes; full once something did not fit. By default at the front.
// Kept (1): a full pen keeps its place, by `moved` (docs/PROMISES.md), and what was written up to there is shown.
#[derive(Clone, Copy, Default)]
pub struct Pen {
    pub at: usize,
    pub full: bool,
}

// A lent buffer, and the pen over it.
#[derive(Drop)]
pub struct Sheet<'a> {
    pub out: &'a mut [u8],
    pub pen: Pen,
}

impl<'a> Sheet<'a> {
    // The pen at the buffer's front.
    pub fn new(out: &'a mut [u8]) -> Self
        ensures pen { result.pen ≡ new_pen }
        ensures text { result.out.now ≡ out.old }
        ensures buffer { result.out.ghost_name ≡ out.entry.ghost_name }
    {
        Sheet {
            out,
            pen: Pen::default(),
        }
    }

    #[tactic(auto, using(crate::proofs::Inks::is_full_lem, crate::proofs::Inks::too_long, crate::proofs::Inks::has_room_lem))]
    fn has_room(&self, n: usize) -> bool
        ensures value { result ≡ has_room (length self.now.out.now) self.now.pen n }
        ensures there { IsTrue result → self.now.pen.at + n ≤ length self.now.out.now }
    {
        let left = self.out.get(self.pen.at..);
        !self.pen.full && left.is_some_and(|left| n <= left.len())
    }

    // What it wrote.
    pub fn text(&self) -> &[u8]
        ensures { result.now ≡ take self.now.pen.at self.now.out.now }
    {
        &self.out[..self.pen.at.min(self.out.len())]
    }

    // src after what the pen wrote before.
    pub fn put(&mut self, src: &[u8])
        ensures { Wrote self.old (src.now ∷ []) self.new }
    {
        if !self.has_room(src.len()) {
            self.pen.full = true;
            return;
        }
        let at = self.pen.at;
        self.out[at..at + src.len()].copy_from_slice(src);
        self.pen.at = at + src.len();
    }
}
