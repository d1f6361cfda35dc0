// What a replay of a night is (02, Req 05), without functions: one set-up and one call, whole nights, nights over pieces of a log, and the laws that hold them
// to the records fed singly and to 01's rules. Whoever checks a replay against 02 reads this crate; playing_setups and playing_calls answer by it.
use refusals::Refusal;
use watch_rules::Table;

// What a replay stands at: its set-ups may still come; records were fed; or a set-up was refused, which ended it.
// Kept (1): no Result, since of the two courses that go on only the first lets set-ups in.
#[derive(Clone, Copy)]
pub enum Course {
    SetUps,
    Records,
    Refused(Refusal),
}

// The count is that of the records fed so far.
#[derive(Clone, Copy)]
pub struct Replay {
    pub table: Table,
    pub count: u64,
    pub course: Course,
}

// Why a set-up is not taken: its refusal, which ends the replay; or that it came late, after the first record, which changes nothing and has no number in 02.
// Kept (1): the error of a set-up's Result.
#[derive(Clone, Copy)]
pub enum Unprepared {
    Refused(Refusal),
    Late,
}

// A replay after a step, and what the step answers.
#[derive(Clone, Copy)]
pub struct Replayed<A> {
    pub replay: Replay,
    pub answer: A,
}

// After a set-up.
pub type Prepared = Replayed<Result<(), Unprepared>>;

// What a call answers: a line of so many bytes, and the byte where the next record begins; the log's end; a cut piece, by its byte; a malformed
// record, by its refusal and its byte; the refusal of the set-up that ended the replay; or 8, the buffer being too short for a line.
// Kept (1): no Result, since the log's end and a cut piece are no refusals.
#[derive(Clone, Copy)]
pub enum Played {
    Line { bytes: usize, next: usize },
    End,
    Cut(usize),
    Bad(Refusal, usize),
    SetUp(Refusal),
    Short,
}

// Beside a line stands what it tells: the watch's answer to the record, for callers that count. Where there is no line it is no finding.
// Kept (1): docs/PROMISES.md names `heard` of every answer.
#[derive(Clone, Copy)]
pub struct Next {
    pub replay: Replay,
    pub answer: Played,
    pub heard: Result<u32, Refusal>,
}
