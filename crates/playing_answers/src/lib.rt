// A record's line of a replay (02, Req 05) from its answer word. It is made from its end to its front in a room of its own, so that each byte is stored
// once, and goes to the output as one text. For `playing_batches` alone. The public function takes any input.
// Kept (1, 4): a batch leaves its answers as words of 32 bits in the lent array, and the line is made of such a word.
// Kept (2): the methods of a line are no twins: each puts other bytes. Its digits are not `text_written`'s: one function over both rooms would be public, with
// the premise that they have room, and no public function here has one; over a table of its own a digit would be stored twice (docs/PERFORMANCE.md).
#![tactic(auto, unfolding(crate::specs::Texts::start_text, crate::specs::Texts::answer_text, crate::specs::Texts::post_text))]

ghost use Rattle.std.specs.Prelude.{◌≡◌, [], ◌∷◌, ◌++◌, ◌+◌, ◌<◌, ◌≤◌, eqb, length};
ghost use Rattle.text_numbers.specs.Numbers.{numeral};
ghost use Rattle.text_pen.specs.Pens.{Wrote};
ghost use Rattle.plain_words.specs.Words.{number_in};
ghost use Rattle.playing_answers.specs.Texts.{refused_text, answer_text, post_text, word_line};

use plain_words::answer_in;
use std::marker::Model;
use text_pen::Sheet;

// Four numbers of at most 20 digits and six other bytes.
const ROOM: usize = 86;

// The end of a line: the bytes from `at` on. More of it goes in front.
// Kept (6): the room has the fixed size of the longest line, since there is no heap.
#[derive(Drop)]
struct Line {
    room: [u8; ROOM],
    at: usize,
}

// To a contract a line is its text.
impl Model for Line {
    ghost use Rattle.std.specs.Prelude.{ℕ, ◌≤◌, List, drop};

    ghost Value = { List ℕ };

    ghost view = { λ l. drop l.at l.room };

    ghost invariant = { λ l. l.at ≤ 86 };
}

impl Line {
    fn new() -> Self
        ensures { result ≡ [] }
    {
        Line {
            room: [0; ROOM],
            at: ROOM,
        }
    }

    fn text(&self) -> &[u8]
        ensures { result.now ≡ self.now }
    {
        &self.room[self.at..]
    }

    fn put_byte(&mut self, byte: u8)
        requires { length self.old < 86 }
        ensures { self.new ≡ byte ∷ self.old }
    {
        self.at -= 1;
        self.room[self.at] = byte;
    }

    // A number, by the fewest digits.
    // Kept (3): a turn goes on by what is left of n, and `i` only says where the digits behind stand. The library states no end of
    // `iter::successors`.
    fn put_digits(&mut self, n: u64)
        requires { length self.old + 20 ≤ 86 }
        ensures text { self.new ≡ numeral 10 n ++ self.old }
        ensures few { length self.new ≤ length self.old + 20 }
    {
        let mut i = self.at;
        let mut rest = n;
        while rest >= 10 {
            i -= 1;
            self.room[i] = b'0' + (rest % 10) as u8;
            rest /= 10;
        }
        i -= 1;
        self.room[i] = b'0' + rest as u8;
        self.at = i;
    }

    // "a line feed after"; "refusal 5 adds a space and the start bit"
    fn put_refused(&mut self, n: u32, start: u32)
        requires { self.old ≡ [] }
        ensures text { self.new ≡ refused_text n start }
        ensures few { length self.new ≤ 43 }
    {
        self.put_byte(b'\n');
        if n == 5 {
            self.put_digits(u64::from(start));
            self.put_byte(b' ');
        }
        self.put_digits(u64::from(n));
        self.put_byte(b'R');
    }

    fn put_answer(&mut self, word: u32)
        requires { self.old ≡ [] }
        ensures text { self.new ≡ answer_text word }
        ensures few { length self.new ≤ 43 }
    {
        match answer_in(word) {
            Ok(found) => {
                self.put_byte(b'\n');
                self.put_digits(u64::from(found));
                self.put_byte(b'A');
            }
            // Of the start the line has one byte, as the header's function answers it (`start_in`).
            Err(w) => self.put_refused(w.number, w.start % 256),
        }
    }

    // "post (dash for refusal 1)"
    fn put_post(&mut self, post: u32, word: u32)
        requires { length self.old + 20 ≤ 86 }
        ensures text { self.new ≡ post_text post (eqb (number_in word) 1) ++ self.old }
        ensures few { length self.new ≤ length self.old + 20 }
    {
        if answer_in(word).is_err_and(|w| w.number == 1) {
            self.put_byte(b'-');
        } else {
            self.put_digits(u64::from(post));
        }
    }
}

// The line of a record: its count, its post, and its answer word, one space between.
#[tactic(auto, using(text_pen::proofs::Turns::sheets), unfolding(crate::specs::Texts::word_line))]
pub fn put_line(sheet: &mut Sheet, count: u64, post: u32, word: u32)
    ensures { Wrote sheet.old (word_line count post word ∷ []) sheet.new }
{
    let mut line = Line::new();
    line.put_answer(word);
    line.put_byte(b' ');
    line.put_post(post, word);
    line.put_byte(b' ');
    line.put_digits(count);
    sheet.put(line.text());
}
