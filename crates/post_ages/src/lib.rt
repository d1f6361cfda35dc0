// A kept time as a record shows it: as it was received, and its age (02, Req 09). For the record, by value and over the C interface.
#![tactic(auto)]

ghost use Rattle.std.specs.Prelude.{◌≡◌};
ghost use Rattle.rules.specs.Times.{received_of, age_of};

// A kept time as it was received.
pub fn received(time: u64) -> u32
    ensures { result ≡ received_of time }
{
    (time % 4294967296) as u32
}

// The ms from a kept time to the post's latest: "an age stops growing at 4,294,967,295" (02, Req 09).
pub fn age(now: u64, from: u64) -> u32
    ensures { result ≡ age_of now from }
{
    u32::try_from(now.saturating_sub(from)).unwrap_or(u32::MAX)
}
