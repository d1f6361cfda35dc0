// How the log ended, and the counts: on standard error, behind the lines.
use crate::own;
use crate::piece::Play;
use notation_answers::answer;
use program_parts::put_ending;
use text_pen::Sheet;
use text_written::put_decimal;

fn put_counted(said: &mut Sheet, n: u64, words: &[u8]) {
    put_decimal(said, n);
    said.put(words);
}

// The counts of refusals or of findings, from number 1 on, as `F9: 3`; a number that did not occur has no line.
fn put_numbers(said: &mut Sheet, name: &[u8], counts: &[u64]) {
    for (k, &n) in (1..32u32).zip(counts.iter().skip(1)) {
        if n > 0 {
            answer::named(said, name, k);
            said.put(b": ");
            put_counted(said, n, b"\n");
        }
    }
}

// `N records: N accepted, N refused`, and a line for each number. What was accepted, refused and found is what the table counted; how often each refusal was
// given it does not count.
// Kept (6): fixed memory: the summary has a buffer of a fixed length.
pub fn say(rt: HostRuntime, play: &Play) {
    let mut room = console::large_buffer();
    let mut said = Sheet::new(&mut room);
    put_ending(&mut said, play.walk.stand, play.walk.at);
    answer::line_end(&mut said);
    let own = own::counted(&play.replay.table);
    put_counted(&mut said, play.replay.count, b" records: ");
    put_counted(&mut said, own[0], b" accepted, ");
    put_counted(&mut said, play.replay.table.refused, b" refused\n");
    put_numbers(&mut said, b"R", &play.refusals.counts);
    put_numbers(&mut said, b"F", &own);
    console::say(rt, said.text());
}
