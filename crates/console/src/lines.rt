// A line of the input, taken byte by byte: for programs that read lines. Every function takes any input.
#![tactic(auto)]

ghost use Rattle.std.specs.Prelude.{◌≡◌, ◌+◌, ◌%◌, ◌^◌, ◌<◌, ◌≤◌, ◌++◌, ◌∷◌, [], false, take, length, IsTrue};

// The line that is read: its number, from 1; how many of its bytes there are, at the start of a lent buffer; and whether it is longer than that buffer.
// Kept (1, 2, 6): a `text_pen::Sheet` is written: over one, a byte would be put as a slice, what has no room would go unread as `sheet.pen.full`, the line's
// length be `sheet.pen.at`, and `console` stand on the pen.
#[derive(Drop)]
pub struct Line<'a> {
    pub number: u64,
    pub have: usize,
    pub over: bool,
    pub bytes: &'a mut [u8],
}

impl<'a> Line<'a> {
    pub fn new(bytes: &'a mut [u8]) -> Self
        ensures first { result.number ≡ 1 }
        ensures empty { result.have ≡ 0 }
        ensures fits { result.over ≡ false }
        ensures bytes { result.bytes.now ≡ bytes.old }
        ensures buffer { result.bytes.ghost_name ≡ bytes.entry.ghost_name }
    {
        Line {
            number: 1,
            have: 0,
            over: false,
            bytes,
        }
    }

    // One byte more, where there is room for it.
    pub fn push(&mut self, b: u8)
        ensures longer { self.old.have < length self.old.bytes.now → take self.new.have self.new.bytes.now ≡ take self.old.have self.old.bytes.now ++ b ∷ [] }
        ensures room { self.old.have < length self.old.bytes.now → (self.new.have ≡ self.old.have + 1) × (self.new.over ≡ self.old.over) }
        ensures over { length self.old.bytes.now ≤ self.old.have → IsTrue self.new.over }
        ensures same { length self.old.bytes.now ≤ self.old.have → (self.new.have ≡ self.old.have) × (self.new.bytes.now ≡ self.old.bytes.now) }
        ensures number { self.new.number ≡ self.old.number }
        ensures length { length self.new.bytes.now ≡ length self.old.bytes.now }
    {
        // Kept (6): tried with `get_mut(self.have)`: its clause in std does not tell what the slice is once the byte was written, and `longer` says it.
        if self.have >= self.bytes.len() {
            self.over = true;
            return;
        }
        self.bytes[self.have] = b;
        self.have += 1;
    }

    // Its bytes so far, as many as there was room for.
    pub fn text(&self) -> &[u8]
        ensures { result.now ≡ take self.now.have self.now.bytes.now }
    {
        crate::front(self.bytes, self.have)
    }

    // The line behind it, of which nothing is read.
    pub fn next(&mut self)
        ensures next { self.new.number ≡ (self.old.number + 1) % 2 ^ 64 }
        ensures empty { self.new.have ≡ 0 }
        ensures fits { self.new.over ≡ false }
        ensures bytes { self.new.bytes ≡ self.old.bytes }
    {
        self.number = self.number.wrapping_add(1);
        self.have = 0;
        self.over = false;
    }
}
