// The steps that change the table, by value or lent: setup, release, frame, tick, for the desk alone. A line is read before the table is touched.
// Kept (2): what a step reads, runs and answers differs in each; all that is alike, that the table is kept, is `Posts::keep`.
// Kept (5): a step reads its line, changes the table and writes on the sheet, and each of the three has another owner: as a method of one it would be handed
// the other two all the same.
#![tactic(auto)]

ghost use Rattle.std.specs.Prelude.{◌≡◌};

mod way; // way.rt: a step on the table, by value or lent

// `gateway`, the calls on a lent table, is passed on.
use desk_buffers::{Bench, Fields, front};
pub use gateway;
use lent_step::lent_words::Lent;
use notation_answers::answer;
use notation_read::heard;
use notation_setup::setup;
use text_pen::Sheet;
use watch_rules::Table;
pub use way::{ByValue, InPlace, Way};

// The table of the posts that the desk watches, and how its steps run.
#[derive(Clone, Copy)]
pub struct Posts<W: Way> {
    pub way: W,
    pub table: Table,
}

impl<W: Way> Posts<W> {
    // What a step left is the table from now on: the step's answer.
    pub fn keep(&mut self, r: Lent) -> u32
        ensures answer { result ≡ r.answer }
        ensures table { self.new.table ≡ r.table }
        ensures way { self.new.way ≡ self.old.way }
    {
        self.table = r.table;
        r.answer
    }
}

// `setup POST CHANNEL VOLT CHG DIS W [SENSOR [IFACE]]`
pub fn setup<W: Way>(posts: &mut Posts<W>, fields: Fields, sheet: &mut Sheet) {
    let Some(s) = setup::setup_line(fields.line, fields.at) else {
        answer::unknown(sheet);
        return;
    };
    answer::setting(sheet, posts.keep(posts.way.set_up(posts.table, s)));
}

// `release POST`
pub fn release<W: Way>(posts: &mut Posts<W>, fields: Fields, sheet: &mut Sheet) {
    let Some(post) = fields.last() else {
        answer::unknown(sheet);
        return;
    };
    answer::setting(sheet, posts.keep(posts.way.release(posts.table, post)));
}

// `frame CHANNEL TIME ID x|s HEX`
pub fn frame<W: Way>(posts: &mut Posts<W>, fields: Fields, bench: Bench) {
    let Bench { room, output } = bench;
    let Some(f) = heard::frame_line(fields.line, fields.at, room) else {
        answer::unknown(&mut output.sheet);
        return;
    };
    let payload = front(room, f.length);
    answer::findings(
        &mut output.sheet,
        posts.keep(posts.way.frame(posts.table, f, payload)),
    );
}

// `tick CHANNEL TIME`
pub fn tick<W: Way>(posts: &mut Posts<W>, fields: Fields, sheet: &mut Sheet) {
    let Some(k) = heard::tick_line(fields.line, fields.at) else {
        answer::unknown(sheet);
        return;
    };
    answer::findings(sheet, posts.keep(posts.way.tick(posts.table, k)));
}
