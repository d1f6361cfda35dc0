// What the programs share that go through night logs: a log in a file, read in pieces; its records and its ending as text; the output, whose lines wait in a
// buffer; and what is said of a file on standard error. For these programs; every function takes any input.
#![tactic(auto, using(text_pen::proofs::Turns::sheets), unfolding(crate::specs::Words::record_words))]

ghost use Rattle.text_pen.specs.Pens.{Wrote};
ghost use Rattle.program_parts.specs.Words.{two_words, ending_words, stamp_words, record_words};

pub mod log; // log.rt: a log in a file
pub mod paper; // paper.rt: the output, whose lines wait in a buffer
pub mod voice; // voice.rt: what is said of a file

use log_records::Entry;
use log_walk::Stand;
use notation_answers::answer;
use notation_endings::ending;
use text_pen::Sheet;
use text_written::{put_decimal, put_hex, put_hexadecimal};

// Two numbers, and what stands between them.
pub fn put_two(sheet: &mut Sheet, n: u64, between: &[u8], m: u64)
    ensures { Wrote sheet.old (two_words n between.now m) sheet.new }
{
    put_decimal(sheet, n);
    sheet.put(between);
    put_decimal(sheet, m);
}

// `END`, `CUT@BYTE` or `BAD R<n>@BYTE`; nothing of a walk that is not at its log's end.
pub fn put_ending(sheet: &mut Sheet, stand: Stand, at: u64)
    ensures { Wrote sheet.old (ending_words stand at) sheet.new }
{
    match stand {
        Stand::End => sheet.put(b"END"),
        Stand::Cut => ending::cut(sheet, at),
        Stand::Bad(why) => ending::bad(sheet, why, at),
        Stand::Within | Stand::Seam | Stand::Short => {}
    }
}

// `WORD CHANNEL TIME`
fn put_stamp(sheet: &mut Sheet, word: &[u8], e: Entry)
    ensures { Wrote sheet.old (stamp_words word.now e) sheet.new }
{
    answer::named(sheet, word, e.channel);
    answer::named(sheet, b" ", e.time);
}

// A record of this log: `tick CHANNEL TIME`, or `frame CHANNEL TIME ID x|s HEX`.
pub fn put_record(sheet: &mut Sheet, log: &[u8], e: Entry)
    ensures { Wrote sheet.old (record_words log.now e) sheet.new }
{
    if e.tick {
        put_stamp(sheet, b"tick ", e);
        return;
    }
    put_stamp(sheet, b"frame ", e);
    sheet.put(b" ");
    put_hexadecimal(sheet, u64::from(e.id));
    sheet.put(if e.extended { b" x " } else { b" s " });
    put_hex(sheet, log_read::payload(log, e.start, e.length));
}
