// A frame read and a signal changed, each printed as a line with what came of it; by the pages of 001 a frame is written again too.
// Kept (2): `read` and `read_older` are one call each of `line`, of which one answers 000's messages and the other 001's.
// Kept (5): a line names what a frame is made of one by one, as the papers' readings do and as the codec takes it.
// Kept (6): no heap in a program, so what is written goes into a buffer of fixed size, with room behind the longest frame.
use crate::write::Written;
use readings_messages::message::InWords;
use readings_messages::show::{Answer, Hex, say};
use refusals::Refusal;
use std::fmt;

// One signal of a frame changed by the pages of either interface.
fn change_by<F: FnOnce(u32, bool, &mut [u8], u32, i64) -> Result<(usize, u64), Refusal>>(
    rt: HostRuntime,
    by: F,
    id: u32,
    extended: bool,
    payload: &mut [u8],
    start: u32,
    raw: i64,
)
    requires { F.IsAlwaysCallable by }
{
    say(
        rt,
        format_args!("  change {} at {start} to {raw}", Hex(payload)),
    );
    let judged = by(id, extended, payload, start, raw);
    let answer = judged.map(|(kind, n)| Raws {
        kind,
        raws: page_write::raws_of(kind, n),
    });
    say(
        rt,
        format_args!(" -> {} {}\n", Hex(payload), Answer(answer)),
    );
}

// A kind, and the raw numbers of its signals with zeros behind them.
#[derive(Clone, Copy)]
struct Raws {
    kind: usize,
    raws: page_write::Raws,
}

impl fmt::Display for Raws {
    fn fmt<W: fmt::Write>(&self, f: &mut fmt::Formatter<W>) -> fmt::Result {
        write!(f, "kind {}:", self.kind)?;
        for z in self.raws {
            write!(f, " {z}")?;
        }
        Ok(())
    }
}

// By the pages of the older interface: a message's raw numbers, and what it writes again, into a longer buffer.
#[derive(Clone, Copy)]
struct WrittenAgain(older_types::Message);

impl fmt::Display for WrittenAgain {
    fn fmt<W: fmt::Write>(&self, f: &mut fmt::Formatter<W>) -> fmt::Result {
        let m = self.0;
        let kind = older_types::kind_of(m);
        let raws = older_take::raws(m);
        let mut buf = [0x55u8; 10];
        let written = Answer(older::write(m, &mut buf).map(Written));
        write!(f, "{} -> {} {written}", Raws { kind, raws }, Hex(&buf))
    }
}

fn line<T: fmt::Display + Drop>(rt: HostRuntime, id: u32, payload: &[u8], r: Result<T, Refusal>) {
    let answer = Answer(r);
    say(
        rt,
        format_args!("  read {id:x} {} -> {answer}\n", Hex(payload)),
    );
}

pub fn read(rt: HostRuntime, id: u32, extended: bool, payload: &[u8]) {
    line(
        rt,
        id,
        payload,
        messages::read(id, extended, payload).map(InWords),
    );
}

pub fn read_older(rt: HostRuntime, id: u32, extended: bool, payload: &[u8]) {
    line(
        rt,
        id,
        payload,
        older::read(id, extended, payload).map(WrittenAgain),
    );
}

pub fn change(rt: HostRuntime, id: u32, extended: bool, payload: &mut [u8], start: u32, raw: i64) {
    change_by(rt, page_change::change, id, extended, payload, start, raw);
}

pub fn change_older(
    rt: HostRuntime,
    id: u32,
    extended: bool,
    payload: &mut [u8],
    start: u32,
    raw: i64,
) {
    change_by(rt, older::change, id, extended, payload, start, raw);
}
