// Lines from standard input into the file.
// Kept (6): fixed memory: a line, its record and a piece of the input have buffers of a fixed length.
use crate::file::Ours;
use crate::lines::LineError;
use crate::night::Night;
use crate::pieces::Shown;
use crate::{lines, pieces, say};
use console::front;
use console::lines::Line;
use notation_read::script;
use program_parts::voice::{Said, Voice};

// desk.md: "a line over 65,535 bytes"
const LONGEST: usize = 65535;

// A record has at most 20 bytes.
const RECORD: usize = 32;

// What a line is that has no record.
const NEITHER: &[u8] = b": no frame or tick";

// A whole line: its record is stored, or what is wrong with it is said. A line over its length is skipped where it is a comment.
fn take(line: &Line, night: &mut Night, room: &mut [u8]) -> Result<(), Said> {
    let s = line.text();
    if script::is_skipped(s) {
        return Ok(());
    }
    if line.over {
        say::no_record(&mut night.ours.voice, line.number, NEITHER);
        return Ok(());
    }
    let mut out = [0u8; RECORD];
    match lines::record_of(s, room, &mut out) {
        Ok(record) => night.store(line.number, record)?,
        Err(LineError::NoRecord) => say::no_record(&mut night.ours.voice, line.number, NEITHER),
        Err(LineError::Refused(why)) => say::refused(&mut night.ours.voice, line.number, why),
    }
    Ok(())
}

// The bytes of a piece, one after the other.
fn feed(line: &mut Line, night: &mut Night, piece: &[u8], room: &mut [u8]) -> Result<(), Said> {
    for &b in piece {
        if b == b'\n' {
            take(line, night, room)?;
            line.next();
        } else {
            line.push(b);
        }
    }
    Ok(())
}

// To the input's end. All that was written is flushed before more lines are waited for.
fn run(line: &mut Line, night: &mut Night, piece: &mut [u8]) -> Result<(), Said> {
    let rt = night.ours.voice.rt;
    let mut room = console::large_buffer();
    for _ in 0..u64::MAX {
        night.flush()?;
        let n = console::next_piece(rt, b"nightlog: reading standard input", piece);
        if n == 0 {
            return Ok(());
        }
        feed(line, night, front(piece, n), &mut room)?;
    }
    Ok(())
}

// A last line that lacks its line feed may be a piece of one, its numbers cut: it is named, and no record is made of it.
fn all_lines(night: &mut Night, piece: &mut [u8]) {
    let mut bytes = [0u8; LONGEST];
    let mut line = Line::new(&mut bytes);
    if run(&mut line, night, piece).is_ok() && !script::is_skipped(line.text()) {
        say::no_record(&mut night.ours.voice, line.number, b": no line feed");
    }
    night.finish();
}

fn appended(rt: HostRuntime, name: &[u8]) -> Result<(), Said> {
    let mut room = console::large_buffer();
    let mut ours = Ours::opened(Voice::new(rt, say::PROGRAM, name, &mut room))?;
    let mut piece = console::large_buffer();
    let w = pieces::read_file(rt, name, &mut piece, &mut Shown { paper: None })?;
    ours.ready(w)?;
    all_lines(&mut Night::new(ours, w.at), &mut piece);
    Ok(())
}

// What fails is said.
pub fn from_input(rt: HostRuntime, name: &[u8]) {
    let _ = appended(rt, name);
}
