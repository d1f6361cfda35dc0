// Records as desk lines on standard output, and how a log ends.
// Kept (6): fixed memory: a piece of the file, the output and a message have buffers of a fixed length.
use crate::pieces::Shown;
use crate::{pieces, say};
use log_records::Found;
use log_walk::{Stand, Walk};
use notation_answers::answer;
use program_parts::paper::Paper;
use program_parts::voice::{Said, Voice};
use program_parts::{put_ending, put_record};
use text_written::put_decimal;

// What a failure to write standard output is told as.
const WRITING: &[u8] = b"nightlog: writing standard output";

// Every line has room behind half of the buffer.
const HALF: usize = 32768;

// What was found in this log, where that is a record. An error where lines could not be written.
pub fn put_found(paper: &mut Paper, s: &[u8], f: Found) -> Result<(), Said> {
    if let Found::Record(e) = f {
        paper.make_room();
        put_record(&mut paper.sheet, s, e);
        answer::line_end(&mut paper.sheet);
    }
    paper.open()
}

// `nightlog: FILE: ENDING` and further words
pub fn say_ending(voice: &mut Voice, w: Walk, words: &[u8]) {
    voice.about(b": ");
    put_ending(&mut voice.sheet, w.stand, w.at);
    voice.end(words);
}

// Kept (1): the paper lies in the listener, which outlives the walk, and its listener may have none.
pub fn lines(rt: HostRuntime, name: &[u8]) {
    let mut buf = console::large_buffer();
    let mut out = console::large_buffer();
    let mut shown = Shown {
        paper: Some(Paper::new(rt, WRITING, HALF, &mut out)),
    };
    let read = pieces::read_file(rt, name, &mut buf, &mut shown);
    if let Some(paper) = &mut shown.paper {
        paper.flush();
    }
    if let Ok(w) = read
        && matches!(w.stand, Stand::Cut | Stand::Bad(_))
    {
        let mut room = console::large_buffer();
        say_ending(&mut Voice::new(rt, say::PROGRAM, name, &mut room), w, b"");
    }
}

// `N records, ENDING`
pub fn count(rt: HostRuntime, name: &[u8]) {
    let mut buf = console::large_buffer();
    if let Ok(w) = pieces::read_file(rt, name, &mut buf, &mut Shown { paper: None }) {
        let mut out = console::buffer();
        let mut paper = Paper::new(rt, WRITING, HALF, &mut out);
        put_decimal(&mut paper.sheet, w.records);
        paper.sheet.put(b" records, ");
        put_ending(&mut paper.sheet, w.stand, w.at);
        answer::line_end(&mut paper.sheet);
        paper.flush();
    }
}
