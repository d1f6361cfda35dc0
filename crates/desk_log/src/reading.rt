// The step `logr`: the records of bytes.
use desk_buffers::{Bench, Fields, Output, front};
use log_read::{Ending, Records};
use log_records::Entry;
use notation_answers::answer;
use notation_endings::ending;
use refusals::Refusal;
use text_pen::Sheet;

// `logr HEX`
pub fn read(fields: Fields, bench: Bench) {
    let Bench { room, output } = bench;
    match fields.last_bytes(room) {
        None => answer::unknown(&mut output.sheet),
        Some(n) => put_log(output, front(room, n)),
    }
}

// `L K REC*K ENDING`
fn put_log(output: &mut Output, bytes: &[u8]) {
    let scan = log_read::scan_log(bytes);
    output.sheet.put(b"L ");
    text_written::put_decimal(&mut output.sheet, scan.records as u64);
    // The answer may be twice as long as its line, so that what is written goes out between two records.
    for e in Records::new(bytes) {
        output.flush_half();
        put_entry(&mut output.sheet, bytes, e);
    }
    output.sheet.put(b" ");
    put_ending(&mut output.sheet, scan.ending);
}

fn put_ending(sheet: &mut Sheet, ending: Ending) {
    match ending {
        Ending::Clean => sheet.put(b"END\n"),
        Ending::Cut(at) => put_cut(sheet, at),
        Ending::Refused(why, at) => put_bad(sheet, why, at),
    }
}

pub fn put_cut(sheet: &mut Sheet, at: usize) {
    ending::cut(sheet, at as u64);
    answer::line_end(sheet);
}

pub fn put_bad(sheet: &mut Sheet, why: Refusal, at: usize) {
    ending::bad(sheet, why, at as u64);
    answer::line_end(sheet);
}

// `t,TIME,CHANNEL` or `f,TIME,CHANNEL,ID,x|s,HEX`
fn put_entry(sheet: &mut Sheet, bytes: &[u8], e: Entry) {
    answer::named(sheet, if e.tick { b" t," } else { b" f," }, e.time);
    answer::named(sheet, b",", e.channel);
    if e.tick {
        return;
    }
    sheet.put(b",");
    text_written::put_hexadecimal(sheet, u64::from(e.id));
    sheet.put(if e.extended { b",x," } else { b",s," });
    text_written::put_hex(sheet, log_read::payload(bytes, e.start, e.length));
}
