// Comparing two recordings (02, Req 10): definitions and laws, and no function. Read with 02 beside it, in this order:
//   specs/Records.antt    when two records are equal: in all parts
//   specs/Surplus.antt    the records that one log has and the other has not, by counting, and their numbers
//   specs/Places.antt     for each channel the first place where its two sequences differ
//   specs/Compare.antt    the whole answer: each refusal in 02's order, and what the lent lists and places hold afterwards
//   specs/Cases.antt      each refusal by its case
//   specs/Words.antt      the answer for C, as a word and two numbers
// proofs/ has their laws, and each of them on records and on logs (Nights.antt, NightLogs.antt). `compare_logs` and `lent_compare` answer by it.
use refusals::Refusal;

// How many records stand in each list.
#[derive(Clone, Copy)]
pub struct Listed {
    pub first: usize,
    pub second: usize,
}

// Why nothing is listed: of the first log (side 1) or of the second (side 2), 26 with the byte where a record begins that is malformed or cut, 27, and 28
// of that log's list; 8 where there are too few places for the channels, with side 0. The byte is 0 but for 26.
// Kept (1): Compare.antt and Words.antt tell refusal, side and byte of every case, and the entry hands out each: an enum of cases would be taken apart there.
#[derive(Clone, Copy)]
pub struct Unlisted {
    pub why: Refusal,
    pub side: u32,
    pub at: usize,
}

// 02: "At most 512 records a log".
pub const MOST: usize = 512;

pub const CHANNELS: usize = 32;
