// What a line asks to be explained: the findings of an answer, a refusal, or refusal 5 with its start bit.
use crate::refused::SENTENCES;
use desk_buffers::Fields;

// Kept (1): a line names a refusal by its number, and what is told of it is that number with its words: as a `Refusal` it would be turned into one and back.
#[derive(Clone, Copy)]
pub enum Asked {
    Findings(u32),
    Refusal(u32),
    Start(u8),
}

// Findings are 12 bits, refusals have the numbers from 1 on, and a start bit is a byte: `Refusal::NoLabel` holds no more.
pub fn asked_in(fields: Fields) -> Option<Asked> {
    match fields.rest()? {
        [b'R', b'5', b':', start @ ..] => { Some(Asked::Start(u8::try_from(number(start)?).ok()?)) }
        [b'R', refusal @ ..] => {
            let n = number(refusal)?;
            (1..=SENTENCES.len() as u32)
                .contains(&n)
                .then_some(Asked::Refusal(n))
        }
        findings => {
            let n = number(findings)?;
            (n <= 4095).then_some(Asked::Findings(n))
        }
    }
}

// The number that a text is.
fn number(line: &[u8]) -> Option<u32> {
    Fields { line, at: 0 }.last()
}
