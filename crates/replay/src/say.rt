// What is said on standard error. A message is made in a buffer of its own, since lines may wait in the output's, and written at once.
// Kept (6): fixed memory: a message has a buffer of a fixed length.
use crate::posts::PostsError;
use notation_endings::ending;
use playing_nights::Unprepared;
use program_parts::put_two;
use program_parts::voice::Voice;
use text_pen::Sheet;
use text_written::put_decimal;

// The name that messages begin with.
pub const PROGRAM: &[u8] = b"replay";

// `replay: FILE: line N: `
fn about_line(voice: &mut Voice, line: u64) {
    voice.about(b": line ");
    put_decimal(&mut voice.sheet, line);
    voice.sheet.put(b": ");
}

// Why the posts of a file are not set up. Of a set-up that is refused also the ending, in desk.md's words: `SETUP R<n>`.
pub fn unprepared(rt: HostRuntime, name: &[u8], why: PostsError) {
    let mut room = console::large_buffer();
    let mut voice = Voice::new(rt, PROGRAM, name, &mut room);
    match why {
        PostsError::Opening(why) => {
            voice.fail(b"", why);
        }
        PostsError::Reading(why) => {
            voice.fail(b": reading", why);
        }
        PostsError::TooLong => {
            voice.about(b"");
            voice.end(b": longer than 65,535 bytes");
        }
        PostsError::NoSetup(line) => {
            about_line(&mut voice, line);
            voice.end(b"no setup POST CHANNEL VOLT CHG DIS W [SENSOR [IFACE]]");
        }
        PostsError::SetUp(line, Unprepared::Refused(why)) => {
            about_line(&mut voice, line);
            voice.sheet.put(b"the set-up is refused\n");
            ending::set_up(&mut voice.sheet, why);
            voice.end(b"");
        }
        PostsError::SetUp(_, Unprepared::Late) => {}
    }
}

// How far a long log is, on a line that the next one goes over.
pub fn progress(rt: HostRuntime, records: u64, at: u64) {
    let mut room = console::buffer();
    let mut said = Sheet::new(&mut room);
    said.put(b"\rreplay: ");
    put_two(&mut said, records, b" records, byte ", at);
    console::say(rt, said.text());
}

pub fn wipe(rt: HostRuntime) {
    console::say(rt, b"\r\x1b[K");
}
