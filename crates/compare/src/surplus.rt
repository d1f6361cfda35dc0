// The records that one log has and the other has not, a line for each: `first N LINE`, `second N LINE`.
use crate::kept::Kept;
use crate::line;
use notation_answers::answer;
use program_parts::paper::Paper;

// The library numbers the records that it was handed from 1.
pub fn put_all(paper: &mut Paper, side: &[u8], list: &[u32], kept: &Kept) {
    for &number in list {
        if let Some(i) = number.checked_sub(1) {
            paper.make_room();
            paper.sheet.put(side);
            line::put_numbered(&mut paper.sheet, kept, i as usize);
            answer::line_end(&mut paper.sheet);
        }
    }
}
