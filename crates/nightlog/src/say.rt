// What is said on standard error, of the file and of the lines for it.
use notation_answers::answer;
use program_parts::put_two;
use program_parts::voice::{Said, Voice};
use refusals::{Refusal, refusal_number};
use std::io;
use text_written::put_decimal;

// The name that messages begin with.
pub const PROGRAM: &[u8] = b"nightlog";

// The system's number of what is told where it gave no reason.
const NO_REASON: i32 = 0;

// The record of a line could not be written.
pub fn fail_line(voice: &mut Voice, line: u64, why: Option<io::Error>) -> Said {
    voice.about(b": writing line ");
    put_decimal(&mut voice.sheet, line);
    voice.end_reason(why.unwrap_or_else(|| io::Error::from_raw_os_error(NO_REASON)))
}

// A line that has no record, and why.
pub fn no_record(voice: &mut Voice, line: u64, why: &[u8]) {
    voice.about_line(line);
    voice.end(why);
}

pub fn refused(voice: &mut Voice, line: u64, why: Refusal) {
    voice.about_line(line);
    answer::named(&mut voice.sheet, b": R", refusal_number(why));
    voice.end(b"");
}

pub fn cut_back(voice: &mut Voice, at: u64, left: u64) {
    voice.about(b": cut back to byte ");
    put_two(&mut voice.sheet, at, b", ", left);
    voice.end(b" bytes of a piece left over");
}

pub fn other_length(voice: &mut Voice, found: u64, left: u64) -> Said {
    voice.about(b": ");
    put_two(
        &mut voice.sheet,
        found,
        b" bytes where this program left ",
        left,
    );
    voice.end(b": another one writes to it")
}

pub fn zeros(voice: &mut Voice, zeros: u64, from: u64) {
    voice.about(b": ");
    put_two(
        &mut voice.sheet,
        zeros,
        b" zero bytes at its end, from byte ",
        from,
    );
    voice.end(b" on");
}

// All that was appended is flushed, and so is the file's name.
pub fn appended(voice: &mut Voice, records: u64) {
    voice.about(b": ");
    put_decimal(&mut voice.sheet, records);
    voice.end(b" records appended");
}

// Of some of it, or of the file's name, nobody knows.
pub fn appended_in_part(voice: &mut Voice, records: u64, safe: u64, lasts: bool) {
    voice.about(b": ");
    put_two(&mut voice.sheet, records, b" records appended, ", safe);
    voice.end(if lasts {
        b" flushed"
    } else {
        b" flushed, the name of the file not"
    });
}
