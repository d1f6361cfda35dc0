// The fields of a line, one behind the other.
ghost use Rattle.std.specs.Prelude.{◌≡◌, ◌+◌, cond, drop, leb, length, ltb, IfSome, is_some, None};
ghost use Rattle.text_bytes.specs.Hex.{bytes_in, stored_in};
ghost use Rattle.text_lines.specs.Lines.{field_of, word_at, word_end};
ghost use Rattle.notation_read.specs.Fields.{last_of, head_of, rest_of, rest_in};
ghost use Rattle.desk_buffers.specs.Fields.{number_in, behind_number, behind_head};

use notation_read::fields;
use notation_read::fields::Head;

// A line, and where its next field starts; past the line's end there is none.
#[derive(Clone, Copy)]
pub struct Fields<'a> {
    pub line: &'a [u8],
    pub at: usize,
}

impl<'a> Fields<'a> {
    // Whether there is none.
    pub fn is_over(self) -> bool
        ensures { result ≡ ltb (length self.entry.line.now) self.entry.at }
    {
        self.at > self.line.len()
    }

    // A number; the field behind it is the next.
    pub fn number(&mut self) -> Option<u32>
        ensures value { result ≡ number_in (field_of 10 self.old.line.now self.old.at) }
        ensures behind { self.new.at ≡ behind_number self.old.at (field_of 10 self.old.line.now self.old.at) }
        ensures line { self.new.line ≡ self.old.line }
    {
        let (n, next) = text_lines::take_u32(self.line, self.at)?;
        self.at = next;
        Some(n)
    }

    // `ID x|s`
    pub fn head(&mut self) -> Option<Head>
        ensures value { result ≡ head_of self.old.line.now self.old.at }
        ensures behind { self.new.at ≡ behind_head self.old.at (head_of self.old.line.now self.old.at) }
        ensures line { self.new.line ≡ self.old.line }
    {
        let head = fields::take_head(self.line, self.at)?;
        self.at = head.next;
        Some(head)
    }

    // A field as it stands there.
    #[tactic(auto, using(text_lines::proofs::Words::the_word))]
    pub fn word(&mut self) -> Option<&'a [u8]>
        ensures there { is_some result ≡ leb self.old.at (length self.old.line.now) }
        ensures value { IfSome result (λ w. w.now ≡ word_at self.old.line.now self.old.at) }
        ensures behind { self.new.at ≡ cond (leb self.old.at (length self.old.line.now)) (word_end self.old.line.now self.old.at + 1) self.old.at }
        ensures line { self.new.line ≡ self.old.line }
    {
        let e = text_lines::word_end(self.line, self.at);
        let word = self.line.get(self.at..e)?;
        self.at = e + 1;
        Some(word)
    }

    // `HEX`: its bytes go to the front of room.
    pub fn bytes(&mut self, room: &mut [u8]) -> Option<usize>
        ensures value { result ≡ cond (leb self.old.at (length self.old.line.now)) (bytes_in (word_at self.old.line.now self.old.at) (length room.old)) None }
        ensures room_after { room.new ≡ cond (leb self.old.at (length self.old.line.now)) (stored_in (word_at self.old.line.now self.old.at) room.old) room.old }
    {
        text_bytes::hex_bytes(self.word()?, room)
    }

    // All that is left of the line.
    pub fn rest(self) -> Option<&'a [u8]>
        ensures there { is_some result ≡ leb self.entry.at (length self.entry.line.now) }
        ensures value { IfSome result (λ w. w.now ≡ drop self.entry.at self.entry.line.now) }
    {
        self.line.get(self.at..)
    }

    // A number that the line ends with.
    pub fn last(self) -> Option<u32>
        ensures { result ≡ last_of self.entry.line.now self.entry.at }
    {
        fields::take_last(self.line, self.at)
    }

    // `HEX` that the line ends with: its bytes go to the front of room.
    pub fn last_bytes(self, room: &mut [u8]) -> Option<usize>
        ensures value { result ≡ rest_of self.entry.line.now self.entry.at (length room.old) }
        ensures room_after { room.new ≡ rest_in self.entry.line.now self.entry.at room.old }
    {
        fields::take_rest(self.line, self.at, room)
    }
}
