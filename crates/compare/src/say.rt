// What is said on standard error. A message is made in a buffer of its own and written at once.
// Kept (6): fixed memory: a message has a buffer of a fixed length.
use crate::kept::Kept;
use log_walk::Walk;
use notation_answers::answer;
use program_parts::put_ending;
use program_parts::voice::{Said, Voice};
use refusals::{Refusal, refusal_number};
use text_written::put_decimal;

// The name that messages begin with.
pub const PROGRAM: &[u8] = b"compare";

// 26: `compare: FILE: R26, ENDING`, with the byte of the file where the piece or the malformed record begins
pub fn broken(voice: &mut Voice, w: Walk) -> Said {
    voice.about(b": R26, ");
    put_ending(&mut voice.sheet, w.stand, w.at);
    voice.end(b"")
}

// 27, or any other that the library gives: `compare: FILE: R27, N records ..`
pub fn refused(rt: HostRuntime, kept: &Kept, why: Refusal) -> Said {
    let mut room = console::large_buffer();
    let mut voice = Voice::new(rt, PROGRAM, kept.name, &mut room);
    voice.about(b"");
    answer::named(&mut voice.sheet, b": R", refusal_number(why));
    voice.sheet.put(b", ");
    put_decimal(&mut voice.sheet, kept.chosen);
    voice.end(b" records where 512 are compared; FROM TO cuts both logs to a window")
}
