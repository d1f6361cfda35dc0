// What a night log is (02, Req 01): the bytes of its records, what any bytes read as, and the laws between the two. Whoever checks the log against 02
// reads this crate; log_read and log_write answer by it.
#![tactic(auto)]

ghost use Rattle.std.specs.Prelude.{◌≡◌};
ghost use Rattle.log_records.specs.Record.{identifiers};
ghost use Rattle.log_records.specs.Reading.{error_of, above_of};

use log_numbers::NumberError;
use refusals::Refusal;

// A record that was read: a tick, or a frame whose payload is the `length` bytes of the log from `start` on. The next record begins at `next`.
// Kept (1): `rec_of`, `entry_lies` and plain_log's `entry_numbers` name these fields, and C is handed all eight, with zeros for a tick.
#[derive(Clone, Copy)]
pub struct Entry {
    pub tick: bool,
    pub time: u32,
    pub channel: u32,
    pub id: u32,
    pub extended: bool,
    pub start: usize,
    pub length: usize,
    pub next: usize,
}

// Why the bytes from a place on begin with no record: they end in one, or it is refused.
// Kept (1): the error of a `Result`, whose two cases 02 tells apart: a cut piece is no refusal.
#[derive(Clone, Copy)]
pub enum RecordError {
    Cut,
    Bad(Refusal),
}

impl From<NumberError> for RecordError {
    ghost from_gives = { λ n e. e ≡ error_of n };

    fn from(n: NumberError) -> RecordError {
        match n {
            NumberError::Cut => RecordError::Cut,
            NumberError::Ill => RecordError::Bad(Refusal::IllNumber),
        }
    }
}

// 02 refuses "channels above 31".
pub const LAST_CHANNEL: u32 = 31;

// As many identifiers there are of each form. 02 refuses "standard identifiers above 2,047, extended ones above 29 bits".
pub fn identifiers(extended: bool) -> u32
    ensures { result ≡ identifiers extended }
{
    if extended { 536870912 } else { 2048 }
}

// The refusal of an identifier that is none of its form.
pub fn above(extended: bool) -> Refusal
    ensures { result ≡ above_of extended }
{
    if extended {
        Refusal::LogExtended
    } else {
        Refusal::LogStandard
    }
}

// What stands at a place of a log: a record; nothing, the log ends there; a piece of a record that begins there and is cut; or a record that
// begins there and is refused.
// Kept (1): no plainer as a Result of an Option: each match would nest, and the log's end would lose its name.
#[derive(Clone, Copy)]
pub enum Found {
    Record(Entry),
    End,
    Cut(usize),
    Refused(Refusal, usize),
}
