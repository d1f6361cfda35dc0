// Answers as text, each with its line feed.
#![tactic(auto, using(text_pen::proofs::Turns::sheets), unfolding(crate::specs::Answers::refused_words, crate::specs::Answers::findings_words, crate::specs::Answers::setting_words))]

ghost use Rattle.std.specs.Prelude.{◌++◌};
ghost use Rattle.text_pen.specs.Pens.{Wrote};
ghost use Rattle.notation_answers.specs.Answers.{unknown_words, end_words, named_words, numbered_words, refused_words, refusal_words, findings_words, setting_words, bytes_words};

use plain_words::{Refused, answer_in};
use refusals::Refusal;
use text_pen::Sheet;

pub fn unknown(sheet: &mut Sheet)
    ensures { Wrote sheet.old unknown_words sheet.new }
{
    sheet.put(b"?\n");
}

pub fn line_end(sheet: &mut Sheet)
    ensures { Wrote sheet.old end_words sheet.new }
{
    sheet.put(b"\n");
}

// A name and its number.
pub fn named(sheet: &mut Sheet, name: &[u8], n: u32)
    ensures { Wrote sheet.old (named_words name.now n) sheet.new }
{
    sheet.put(name);
    text_written::put_decimal(sheet, u64::from(n));
}

fn numbered(sheet: &mut Sheet, name: &[u8], n: u32)
    ensures { Wrote sheet.old (numbered_words name.now n) sheet.new }
{
    named(sheet, name, n);
    line_end(sheet);
}

// `R<n>`, and of 5 also its start bit: `R5:<start>`.
fn refused(sheet: &mut Sheet, w: Refused)
    ensures { Wrote sheet.old (refused_words w.number w.start) sheet.new }
{
    named(sheet, b"R", w.number);
    if w.number == 5 {
        named(sheet, b":", w.start);
    }
}

fn refused_end(sheet: &mut Sheet, w: Refused)
    ensures { Wrote sheet.old (refused_words w.number w.start ++ end_words) sheet.new }
{
    refused(sheet, w);
    line_end(sheet);
}

// The answer word of a frame or a tick: `A<findings>`, or the refusal.
// Kept (1): `findings_words` and `setting_words` (docs/PROMISES.md) are of an answer's word, as the entries of the C interface give it.
pub fn findings(sheet: &mut Sheet, word: u32)
    ensures { Wrote sheet.old (findings_words word) sheet.new }
{
    match answer_in(word) {
        Ok(found) => numbered(sheet, b"A", found),
        Err(w) => refused_end(sheet, w),
    }
}

// The answer word of a set-up or a release: `A`, or the refusal.
pub fn setting(sheet: &mut Sheet, word: u32)
    ensures { Wrote sheet.old (setting_words word) sheet.new }
{
    match answer_in(word) {
        Ok(_) => sheet.put(b"A\n"),
        Err(w) => refused_end(sheet, w),
    }
}

pub fn refusal(sheet: &mut Sheet, w: Refusal)
    ensures { Wrote sheet.old (refusal_words w ++ end_words) sheet.new }
{
    refused_end(sheet, Refused::from(w));
}

// A space, the bytes and a line feed.
pub fn bytes_end(sheet: &mut Sheet, bytes: &[u8])
    ensures { Wrote sheet.old (bytes_words bytes.now) sheet.new }
{
    sheet.put(b" ");
    text_written::put_hex(sheet, bytes);
    line_end(sheet);
}

// The refusal and the bytes afterwards.
pub fn refusal_bytes(sheet: &mut Sheet, w: Refusal, bytes: &[u8])
    ensures { Wrote sheet.old (refusal_words w ++ bytes_words bytes.now) sheet.new }
{
    refused(sheet, Refused::from(w));
    bytes_end(sheet, bytes);
}
