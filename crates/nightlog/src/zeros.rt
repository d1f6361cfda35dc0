// Zeros at a file's end. A pulled plug may leave them there, and by 02's format `00 00 00 00` is a record; but a payload may end in them too. They are told.
use crate::say;
use console::front;
use program_parts::log::Log;
use program_parts::voice::Voice;

// As many as the shortest record has.
const FEW: u64 = 4;

// How many bytes stand before the zeros that a piece ends with.
fn rest_end(piece: &[u8]) -> usize {
    piece
        .iter()
        .rposition(|&b| b != 0)
        .map_or(0, |last| last + 1)
}

// Behind which byte a file has nothing but zeros: piece by piece from its end towards its front. What cannot be read, or not to its end, was told
// by the walk over the file.
fn zeros_from(log: &Log, buf: &mut [u8]) -> u64 {
    let mut from = log.size;
    for _ in 0..u64::MAX {
        let start = from.saturating_sub(buf.len() as u64);
        let piece = log.piece(start, buf).unwrap_or(&[]);
        let piece = front(piece, from.saturating_sub(start) as usize);
        if piece.is_empty() || start.wrapping_add(piece.len() as u64) != from {
            return from;
        }
        let rest = rest_end(piece);
        from = start.wrapping_add(rest as u64);
        if rest > 0 {
            return from;
        }
    }
    from
}

pub fn tell(log: &Log, buf: &mut [u8], voice: &mut Voice) {
    let from = zeros_from(log, buf);
    let zeros = log.size.saturating_sub(from);
    if zeros >= FEW {
        say::zeros(voice, zeros, from);
    }
}
