// Refusals in words.
use crate::sentence;
use notation_answers::answer;
use refusals::Refusal;
use text_pen::Sheet;

// Of refusal 1 and on.
pub const SENTENCES: [&[u8]; 29] = [
    b"channel above 31, or held by no post",
    b"time earlier than the post's latest accepted frame or tick",
    b"identifier not in the table, standard and extended ones told apart",
    b"shorter than the table's length",
    b"a label signal holds a number without a label",
    b"a bit that no signal covers is 1",
    b"a value has no raw number, or a raw number does not fit its signal",
    b"lent buffer shorter than the message",
    b"post number above 15",
    b"channel above 31 at set-up",
    b"channel held by another post",
    b"a post limit outside its range",
    b"no signal of the message starts at that bit",
    b"post not set up",
    b"longer than the table's length",
    b"a number in the log that is not in its shortest form, or has more than five groups or 32 bits",
    b"a channel above 31 in a log record",
    b"a standard identifier above 2,047 in a log record",
    b"an extended identifier above 29 bits in a log record",
    b"a length above 9 in a log record, or more than 8 payload bytes to be logged",
    b"a tick's length, 9, with an identifier part other than 0",
    b"a batch of more than 4,096 bytes",
    b"a malformed or cut record in a batch",
    b"fewer places for answers than a batch has records",
    b"the post's count of accepted frames and ticks is at its largest",
    b"a malformed or cut log in a comparison",
    b"more than 512 records in a log of a comparison",
    b"fewer than 512 places for the record numbers of a comparison",
    b"identifier that only the other interface has",
];

// `E R<n>` and its words; a line asks for no other number.
fn put_named(sheet: &mut Sheet, n: u32) {
    if let Some(sentence) = SENTENCES.get((n as usize).wrapping_sub(1)) {
        sentence::put(sheet, b"E R", n, sentence);
    }
}

pub fn put(sheet: &mut Sheet, n: u32) {
    put_named(sheet, n);
    answer::line_end(sheet);
}

// Refusal 5 with the signal that it tells.
pub fn put_start(sheet: &mut Sheet, start: u8) {
    put_named(sheet, refusals::refusal_number(Refusal::NoLabel(start)));
    answer::named(sheet, b" (the signal that starts at bit ", u32::from(start));
    sheet.put(b")\n");
}
