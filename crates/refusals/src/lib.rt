// What is refused, and its number: the one list of refusals of every crate above. Whoever refuses names a case of it, and whoever gives numbers
// back asks here.
#![tactic(auto)]

ghost use Rattle.std.specs.Prelude.{◌≡◌};
ghost use Rattle.refusals.specs.Refusals.{number_of, start_of};

// 01, "Numbers given back": a case for each number, in their order (`number_of` in specs/). Those of 02 follow: a length above the table's
// (Req 02), the night log's (Req 01), a batch's (Req 07), a full count's (Req 08), a comparison's (Req 10) and the other interface's (Req 11).
// 5 carries the start bit of the signal (02, Req 02).
#[derive(Clone, Copy)]
pub enum Refusal {
    ChannelFree,
    Earlier,
    UnknownIdentifier,
    TooShort,
    NoLabel(u8),
    UncoveredBit,
    NoRawNumber,
    ShortBuffer,
    NoSuchPost,
    NoSuchChannel,
    ChannelTaken,
    LimitOutside,
    NoSignal,
    NotSetUp,
    TooLong,
    IllNumber,
    LogChannel,
    LogStandard,
    LogExtended,
    LogLength,
    LogTick,
    BatchBytes,
    BatchRecord,
    BatchAnswers,
    CountFull,
    CompareLog,
    CompareRecords,
    CompareRoom,
    OtherInterface,
}

// Kept (1, 4): docs/LIBRARY.md names it, and 5 carries its start, so that no `as` gives the number.
pub fn refusal_number(w: Refusal) -> u32
    ensures { result ≡ number_of w }
{
    match w {
        Refusal::ChannelFree => 1,
        Refusal::Earlier => 2,
        Refusal::UnknownIdentifier => 3,
        Refusal::TooShort => 4,
        Refusal::NoLabel(_) => 5,
        Refusal::UncoveredBit => 6,
        Refusal::NoRawNumber => 7,
        Refusal::ShortBuffer => 8,
        Refusal::NoSuchPost => 9,
        Refusal::NoSuchChannel => 10,
        Refusal::ChannelTaken => 11,
        Refusal::LimitOutside => 12,
        Refusal::NoSignal => 13,
        Refusal::NotSetUp => 14,
        Refusal::TooLong => 15,
        Refusal::IllNumber => 16,
        Refusal::LogChannel => 17,
        Refusal::LogStandard => 18,
        Refusal::LogExtended => 19,
        Refusal::LogLength => 20,
        Refusal::LogTick => 21,
        Refusal::BatchBytes => 22,
        Refusal::BatchRecord => 23,
        Refusal::BatchAnswers => 24,
        Refusal::CountFull => 25,
        Refusal::CompareLog => 26,
        Refusal::CompareRecords => 27,
        Refusal::CompareRoom => 28,
        Refusal::OtherInterface => 29,
    }
}

// 02: "It is to carry the start bit of the first offending signal"; 0 of every refusal but 5.
// Kept (1): docs/LIBRARY.md names it, and its clause `start_of` has 0 where there is no start, which the C interface hands on.
pub fn refusal_start(w: Refusal) -> u32
    ensures { result ≡ start_of w }
{
    match w {
        Refusal::NoLabel(s) => u32::from(s),
        _ => 0,
    }
}
