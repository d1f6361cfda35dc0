// What the library answers, as lines; how many records were compared; and whether they differ.
// Kept (6): fixed memory: the output and the library's lists have buffers of a fixed length.
use crate::kept::Kept;
use crate::{channels, say, surplus};
use compare_rules::{CHANNELS, MOST, Unlisted};
use console::front;
use program_parts::paper::Paper;
use program_parts::put_two;
use program_parts::voice::Said;

// Every line has room behind half of the buffer.
const HALF: usize = 32768;

// The last lines, behind all others: `compared N and M records`, and `same` or `differ`.
fn finish(paper: &mut Paper, n: u64, m: u64, differ: bool) {
    paper.make_room();
    paper.sheet.put(b"compared ");
    put_two(&mut paper.sheet, n, b" and ", m);
    paper.sheet.put(b" records\n");
    paper
        .sheet
        .put(if differ { b"differ\n" } else { b"same\n" });
    paper.flush();
}

// Whatever is listed, its channel differs; it is asked all the same.
// Kept (5): here and in what this calls the two logs are told apart by their order alone, so that a struct of both would be opened at each line.
fn listed(
    rt: HostRuntime,
    first: &[u32],
    second: &[u32],
    places: &[u32; CHANNELS],
    x: &Kept,
    y: &Kept,
) {
    let mut out = console::large_buffer();
    let mut paper = Paper::new(rt, b"compare: writing standard output", HALF, &mut out);
    surplus::put_all(&mut paper, b"first", first, x);
    surplus::put_all(&mut paper, b"second", second, y);
    let any = channels::put_all(&mut paper, places, x, y);
    let differ = !first.is_empty() || !second.is_empty() || any;
    finish(&mut paper, x.chosen, y.chosen, differ);
}

// Kept (1): `Unlisted`, the answer of the library, numbers the logs, as lent_compare's entry hands the number on to C.
// Kept (2): tried as one call over the log that was chosen: the borrow checker refuses it ("would stand at another lifetime").
fn refused(rt: HostRuntime, unlisted: Unlisted, x: &Kept, y: &Kept) -> Said {
    if unlisted.side == 1 {
        say::refused(rt, x, unlisted.why)
    } else {
        say::refused(rt, y, unlisted.why)
    }
}

// The library's answer to what was kept of both logs. Every list has its places and every log is whole, so that a refusal is 27.
pub fn say(rt: HostRuntime, x: &Kept, y: &Kept) -> Result<(), Said> {
    let mut first = [0u32; MOST];
    let mut second = [0u32; MOST];
    let mut places = [0u32; CHANNELS];
    let n = compare_logs::compare(x.log(), y.log(), &mut first, &mut second, &mut places).map_err(
        |unlisted| refused(rt, unlisted, x, y),
    )?;
    listed(
        rt,
        front(&first, n.first),
        front(&second, n.second),
        &places,
        x,
        y,
    );
    Ok(())
}
